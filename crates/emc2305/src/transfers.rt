// Transfers: the pointer, data bytes written, bytes read.
ghost use Rattle.std.specs.Prelude.{◌≡◌, ◌≤◌, length};
ghost use Rattle.laws.specs.Buffer.{laid_over};
ghost use Rattle.emc2305.specs.Transfers.{pointer_after, in_turn, sent, reply_of, read_out};

use emc2305_chip::{Chip, Register};

// The bytes of a write. The first sets the pointer; with none nothing changes.
#[tactic(auto, unfolding(crate::specs::Transfers::sent, crate::specs::Transfers::in_turn))]
pub(crate) fn sent(mut chip: Chip, bytes: &[u8]) -> Chip
    ensures { result ≡ sent bytes.now chip }
{
    let Some((pointer, data)) = bytes.split_first() else {
        return chip;
    };
    chip.pointer = *pointer;
    // Mostly a read comes next, and there is nothing to write.
    if data.is_empty() {
        return chip;
    }
    in_turn(chip, data)
}

// The data bytes of a write, in turn. The fans are held apart, and a fan takes all the bytes for it at once, so that they move
// that fan and not the chip. The index goes on by as many bytes as were taken, which no `for` does.
fn in_turn(mut chip: Chip, bytes: &[u8]) -> Chip
    ensures { result ≡ in_turn (length bytes.now) bytes.now chip }
{
    let n = bytes.len();
    let mut fans = chip.fans;
    let mut pointer = chip.pointer;
    let mut i = 0;
    while i < n {
        let mut count = 1;
        match emc2305_chip::register_of(chip.fan_count(), pointer) {
            Register::OfFan(at, offset) => {
                let fan = fans[at];
                let written = fan.write(offset, &bytes[i..], chip.is_locked());
                fans[at] = written.fan;
                if written.programmed {
                    chip = chip.programmed();
                }
                count = written.count;
            }
            Register::OfChip(own) => {
                if emc2305_chip::is_writable(own) {
                    chip = chip.own_written(own, bytes[i]);
                }
            }
            Register::Undefined => {}
        }
        pointer = pointer_past(pointer, n, count);
        i += count;
    }
    chip.pointer = pointer;
    chip.fans = fans;
    chip
}

// A read of n bytes, laid at the front of the buffer. No read changes what a fan's register shows.
pub(crate) fn read_out(mut chip: Chip, n: usize, reply: &mut [u8]) -> Chip
    requires { n ≤ length reply.old }
    ensures { (result ≡ read_out n chip) × (reply.new ≡ laid_over (reply_of n chip n) reply.old) }
{
    let fans = chip.fans;
    let mut pointer = chip.pointer;
    for i in 0..n {
        match emc2305_chip::register_of(chip.fan_count(), pointer) {
            Register::OfFan(at, offset) => {
                let fan = fans[at];
                reply[i] = fan.register(offset);
            }
            Register::OfChip(own) => {
                let byte = chip.own_register(own);
                reply[i] = byte;
                // A status byte of 0 has nothing to clear.
                if byte != 0 {
                    if emc2305_chip::is_cleared(own) {
                        chip = chip.own_cleared(own);
                    }
                }
            }
            Register::Undefined => {
                reply[i] = 0x00;
            }
        }
        pointer = pointer_past(pointer, n, 1);
    }
    chip.pointer = pointer;
    chip
}

// The pointer after so many data bytes of n: with one it stays, with more it goes up for each, FFh to 00h.
fn pointer_past(pointer: u8, n: usize, count: usize) -> u8
    requires { count ≤ 16 }
    ensures { result ≡ pointer_after n count pointer }
{
    if n <= 1 {
        pointer
    } else {
        ((usize::from(pointer) + count) % 256) as u8
    }
}
