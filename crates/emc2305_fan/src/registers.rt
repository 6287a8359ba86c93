// A fan's registers: power-on, what a read shows, which writes are stored, which offsets are locked.
ghost use Rattle.std.specs.Prelude.{◌≡◌};
ghost use Rattle.emc2305_fan.specs.Registers.{power_on, shown, stores, locked, closed_loop};

use crate::{CONFIGURATION_1, Fan, LOOP, SETTING, SpinUp};

impl Fan {
    // Power-on: the part's reset bytes, and nothing running.
    #[tactic(auto, unfolding(crate::specs::Registers::power_on))]
    pub fn power_on(registers: [u8; 16]) -> Fan
        ensures { result ≡ power_on registers }
    {
        Fan {
            registers,
            drive: 0,
            wish: 0,
            clock: 0,
            spin: SpinUp::default(),
            stalled: false,
            failed: false,
        }
    }

    // What a read of the offset shows.
    #[tactic(auto, unfolding(crate::specs::Registers::shown))]
    pub fn register(self, offset: usize) -> u8
        ensures { result ≡ shown self offset }
    {
        match offset {
            SETTING => self.drive,
            0x1..=0x3 | 0x5..=0xF => self.registers[offset],
            _ => 0x00,
        }
    }

    // Whether a write to the offset is stored, where no lock forbids it.
    #[tactic(auto, unfolding(crate::specs::Registers::stores))]
    pub fn stores(self, offset: usize) -> bool
        ensures { result ≡ stores self offset }
    {
        match offset {
            SETTING => !self.closed_loop(),
            0x1..=0x3 | 0x5..=0xD => true,
            // 4 is undefined, E and F are read only.
            _ => false,
        }
    }

    // Whether the loop is on.
    pub fn closed_loop(self) -> bool
        ensures { result ≡ closed_loop self }
    {
        self.registers[CONFIGURATION_1] / LOOP % 2 == 1
    }
}

// Whether the lock guards the offset.
#[tactic(auto, unfolding(crate::specs::Registers::locked))]
pub fn is_locked(offset: usize) -> bool
    ensures { result ≡ locked offset }
{
    matches!(offset, 0x3 | 0x5..=0xB)
}
