// The chip's registers and ticks: a part with one, two, three or five fans side by side, register map, lock, status, alert line, watchdog (document 01: 'Registers' and 'Tach and watchdog').
#![tactic(auto)]

mod fans;
mod map;
mod one_fan;
mod registers;
mod status;
mod ticks;
mod watching;

ghost use Rattle.std.specs.Prelude.{◌≡◌, true};
ghost use Rattle.emc2305_chip.specs.State.{fan_count, with_fans};
ghost use Rattle.emc2305_chip.specs.Registers.{at_defaults, unpowered};

use emc2305_fan::Fan;
use emc2305_parts::Part;
use emc2305_watchdog::Watch;
pub use map::register_of;
pub use registers::{is_cleared, is_writable};

// The chip.
#[derive(Clone, Copy, Debug, PartialEq, Eq)]
pub struct Chip {
    pub powered: bool,
    // The bus address, which means nothing before power-on: the definitions speak of both.
    pub address: u8,
    pub fans: [Fan; 5],
    // 20h.
    pub configuration: u8,
    // 29h, interrupt enable.
    pub enable: u8,
    // 2Ah to 2Dh: PWM polarity, output type and base frequencies, which are stored and do nothing.
    pub outputs: [u8; 4],
    // EFh.
    pub lock: u8,
    pub pointer: u8,
    // The bit WATCH of 24h.
    pub expired: bool,
    pub watch: Watch,
    // By which it has the first one, two, three or all of the fans; the others keep what power-on gave them, and nothing shows it.
    pub part: Part,
}

// What stands at a register address.
#[derive(Clone, Copy, Debug, PartialEq, Eq)]
pub enum Register {
    // The fan, from 0, and the offset.
    OfFan(usize, usize),
    OfChip(Own),
    Undefined,
}

// The registers that are no fan's.
#[derive(Clone, Copy, Debug, PartialEq, Eq)]
pub enum Own {
    Configuration,
    Status,
    StallStatus,
    SpinStatus,
    DriveFailStatus,
    Enable,
    // By its place from 2Ah on.
    Output(usize),
    Lock,
    // By its place from FCh on.
    Identity(usize),
}

impl Chip {
    // The chip before any power-on, which has five fans.
    pub fn unpowered() -> Chip
        ensures { result ≡ unpowered }
    {
        Chip::at_defaults(Part::Emc2305, false, 0)
    }

    // Power-on of a part, at a bus address.
    pub fn power_on(part: Part, address: u8) -> Chip
        ensures { result ≡ at_defaults part true address }
    {
        Chip::at_defaults(part, true, address)
    }

    // Every default, unlocked; the power-up watch starts. Not inlined, so that the compiler does not spread the defaults' bytes over every step.
    #[inline(never)]
    #[tactic(auto, unfolding(crate::specs::Registers::at_defaults))]
    fn at_defaults(part: Part, powered: bool, address: u8) -> Chip
        ensures { result ≡ at_defaults part powered address }
    {
        let reset = part.reset();
        let outputs = reset.outputs;
        let fan = fans::powered_on(part);
        // From `each`, for the same reason. As of the five-fan part, since absent fans get a power-on's state too.
        let fans = fans::each([fan; 5], Part::Emc2305, |_| fans::powered_on(part));
        Chip {
            powered,
            address,
            fans,
            configuration: reset.configuration,
            enable: reset.enable,
            outputs,
            lock: reset.lock,
            pointer: 0,
            expired: false,
            watch: Watch::PowerUp(0),
            part,
        }
    }

    // How many fans it has.
    pub fn fan_count(self) -> usize
        ensures { result ≡ fan_count self }
    {
        self.part.fans()
    }

    // The chip with other fans.
    pub(crate) fn with_fans(mut self, fans: [Fan; 5]) -> Chip
        ensures { result ≡ with_fans fans self }
    {
        self.fans = fans;
        self
    }
}
