// Reading and writing one register.
ghost use Rattle.std.specs.Prelude.{◌≡◌, get_or, set};
ghost use Rattle.emc2305_fan.specs.Registers.{shown};
ghost use Rattle.emc2305_fan.specs.Status.{bit_read};
ghost use Rattle.emc2305_parts.specs.Parts.{identity_of};
ghost use Rattle.laws.specs.Lists.{first_moved};
ghost use Rattle.emc2305_chip.specs.State.{fan_count, with_fans, with_outputs};
ghost use Rattle.emc2305_chip.specs.Fans.{fan_at};
ghost use Rattle.emc2305_chip.specs.Registers.{own_shown, clears, own_cleared, is_locked, own_guarded, writable, own_stores, own_stored, own_written, shown_at};

use crate::{Chip, Own, Register, fans, map};
use emc2305_fan::Bit;

// The weight of bit 0 of EFh.
const LOCKED: u8 = 0x01;

impl Chip {
    // What a read of the register at the address shows.
    #[tactic(auto, unfolding(crate::specs::Registers::shown_at))]
    pub fn register(self, address: u8) -> u8
        ensures { result ≡ shown_at self address }
    {
        match map::register_of(self.fan_count(), address) {
            Register::OfFan(i, offset) => self.fan_register(i, offset),
            Register::OfChip(own) => self.own_register(own),
            Register::Undefined => 0x00,
        }
    }

    // What a read of a register of fan i + 1 shows.
    #[tactic(auto, using(crate::proofs::Ways::no_register))]
    fn fan_register(self, i: usize, offset: usize) -> u8
        ensures { result ≡ shown (fan_at self.fans i) offset }
    {
        match self.fans.get(i) {
            Some(fan) => fan.register(offset),
            None => 0x00,
        }
    }

    // What a read of one of the chip's own registers shows.
    pub fn own_register(self, own: Own) -> u8
        ensures { result ≡ own_shown self own }
    {
        match own {
            Own::Configuration => self.configuration,
            Own::Status => self.status_byte(),
            Own::StallStatus => self.stall_byte(),
            Own::SpinStatus => self.spin_byte(),
            Own::DriveFailStatus => 0x00,
            Own::Enable => self.enable,
            Own::Output(i) => self.output(i),
            Own::Lock => self.lock,
            Own::Identity(i) => self.identity(i),
        }
    }

    // The chip that a read of one of its own registers leaves.
    pub fn own_cleared(mut self, own: Own) -> Chip
        ensures { result ≡ own_cleared own self }
    {
        match own {
            Own::Status => {
                self.expired = false;
                self
            }
            Own::StallStatus => self.bits_read(Bit::Stall),
            Own::SpinStatus => self.bits_read(Bit::Spin),
            // No other read clears anything.
            _ => self,
        }
    }

    // Whether the lock is on: bit 0 of EFh.
    pub fn is_locked(self) -> bool
        ensures { result ≡ is_locked self }
    {
        self.lock / LOCKED % 2 == 1
    }

    // A write of a byte to one of the chip's own registers; one that is not stored changes nothing.
    pub fn own_written(self, own: Own, byte: u8) -> Chip
        ensures { result ≡ own_written own byte self }
    {
        if self.own_stores(own) {
            self.own_stored(own, byte)
        } else {
            self
        }
    }

    // Whether a write to one of them is stored.
    fn own_stores(self, own: Own) -> bool
        ensures { result ≡ own_stores self own }
    {
        is_writable(own) && !(self.is_locked() && is_guarded(own))
    }

    // What a stored write does.
    fn own_stored(mut self, own: Own, byte: u8) -> Chip
        ensures { result ≡ own_stored own byte self }
    {
        match own {
            Own::Configuration => {
                self.configuration = byte;
                self.configured_by(byte)
            }
            Own::Enable => {
                self.enable = byte;
                self
            }
            Own::Output(i) => self.with_output(i, byte),
            Own::Lock => {
                self.lock = byte;
                self
            }
            // Nothing else stores.
            _ => self,
        }
    }

    // A read of 25h or of 26h, fan by fan.
    fn bits_read(self, bit: Bit) -> Chip
        ensures { result ≡ with_fans (first_moved (fan_count self) (bit_read bit) self.fans) self }
    {
        self.with_fans(fans::each(self.fans, self.part, |fan| fan.bit_read(bit)))
    }

    // FCh to FFh, by the place from FCh on.
    fn identity(self, i: usize) -> u8
        ensures { result ≡ get_or (identity_of self.part) i 0 }
    {
        self.part.identity().get(i).copied().unwrap_or(0x00)
    }

    // 2Ah to 2Dh, by the place from 2Ah on.
    fn output(self, i: usize) -> u8
        ensures { result ≡ get_or self.outputs i 0 }
    {
        self.outputs.get(i).copied().unwrap_or(0x00)
    }

    // One of 2Ah to 2Dh changed.
    fn with_output(mut self, i: usize, byte: u8) -> Chip
        ensures { result ≡ with_outputs (set self.outputs i byte) self }
    {
        let mut outputs = self.outputs;
        if i < outputs.len() {
            outputs[i] = byte;
        }
        self.outputs = outputs;
        self
    }
}

// Whether a read of one of the chip's own registers clears something: 24h to 26h.
pub fn is_cleared(own: Own) -> bool
    ensures { result ≡ clears own }
{
    matches!(own, Own::Status | Own::StallStatus | Own::SpinStatus)
}

// Whether one of the chip's own registers can be written, the lock aside.
pub fn is_writable(own: Own) -> bool
    ensures { result ≡ writable own }
{
    // The others are read only.
    matches!(
        own,
        Own::Configuration | Own::Enable | Own::Output(_) | Own::Lock
    )
}

// Whether the lock guards it: 20h and EFh.
fn is_guarded(own: Own) -> bool
    ensures { result ≡ own_guarded own }
{
    matches!(own, Own::Configuration | Own::Lock)
}
