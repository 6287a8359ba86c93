// Data bytes written to the fan's registers, and what follows from each.
ghost use Rattle.std.specs.Prelude.{◌≡◌, not, ◌&&◌, min, ◌-◌, length};
ghost use Rattle.emc2305_fan.specs.Registers.{closed_loop};
ghost use Rattle.emc2305_fan.specs.Stored.{clears_clock, spin_starts, takes, programs, bytes_taken, bytes_program};

use crate::{CONFIGURATION_1, CONFIGURATION_2, Fan, LOOP, OFFSETS, SETTING, Written, registers};

impl Fan {
    // Data bytes in turn, from an offset on, with the lock on or off. One that is not stored changes nothing.
    // The fan is changed where it lies: handed from function to function it would be copied for each byte.
    pub fn write(self, first: usize, bytes: &[u8], locked: bool) -> Written
        ensures fan_value { result.fan ≡ bytes_taken locked first bytes.now self }
        ensures programmed_value { result.programmed ≡ bytes_program locked first bytes.now self }
        ensures count_value { result.count ≡ min (length bytes.now) (16 - first) }
    {
        let mut fan = self;
        let mut programmed = false;
        // Those past the last offset are not for this fan.
        let own = &bytes[..bytes.len().min(OFFSETS.saturating_sub(first))];
        for (i, &byte) in own.iter().enumerate() {
            let offset = first + i;
            if !fan.takes(offset, locked) {
                continue;
            }
            programmed |= programs(offset, byte);
            let was_closed = fan.closed_loop();
            fan.registers[offset] = byte;
            if fan.turned_on(was_closed) {
                fan.wish = fan.drive;
            }
            if fan.clears_clock(offset) {
                fan.clock = 0;
            }
            if fan.spin.running {
                if fan.goal() == 0 {
                    fan = fan.end(0);
                }
            } else if fan.spin_starts() {
                fan = fan.start();
            } else if !fan.under_ramp() {
                fan.drive = fan.goal();
            }
        }
        Written {
            fan,
            programmed,
            count: own.len(),
        }
    }

    // Whether a write to the offset is stored, with the lock on or off.
    fn takes(self, offset: usize, locked: bool) -> bool
        ensures { result ≡ takes locked self offset }
    {
        !(locked && registers::is_locked(offset)) && self.stores(offset)
    }

    // Whether the loop is on and was not.
    fn turned_on(self, was_closed: bool) -> bool
        ensures { result ≡ (not was_closed && closed_loop self) }
    {
        !was_closed && self.closed_loop()
    }

    // Whether a stored write to the offset sets the update clock to 0.
    fn clears_clock(self, offset: usize) -> bool
        ensures { result ≡ clears_clock offset self }
    {
        matches!(offset, CONFIGURATION_1 | CONFIGURATION_2) || self.driver_off()
    }

    // Drive 0 before the write, goal above 0 after it.
    fn spin_starts(self) -> bool
        ensures { result ≡ spin_starts self }
    {
        self.drive == 0 && 0 < self.goal()
    }
}

// Whether a stored write programs the fan: one to Setting, or one that sets Configuration 1 bit 7.
fn programs(offset: usize, byte: u8) -> bool
    ensures { result ≡ programs offset byte }
{
    match offset {
        SETTING => true,
        CONFIGURATION_1 => byte / LOOP % 2 == 1,
        _ => false,
    }
}
