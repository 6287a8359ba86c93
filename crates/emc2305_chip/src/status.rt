// The status registers and the alert line.
ghost use Rattle.std.specs.Prelude.{◌≡◌};
ghost use Rattle.emc2305_chip.specs.Registers.{stall_byte, spin_byte, status_byte, alert_line};

use crate::{Chip, fans};
use emc2305_fan::Bit;

// Weights of the bits of 24h, and of MASK in 20h.
const WATCH: u8 = 0x80;

const ANY_SPIN: u8 = 0x02;

const ANY_STALL: u8 = 0x01;

const MASK: u8 = 0x80;

impl Chip {
    // The byte of 25h.
    pub(crate) fn stall_byte(self) -> u8
        ensures { result ≡ stall_byte self }
    {
        fans::bits_of(self.fans, self.part, Bit::Stall)
    }

    // The byte of 26h.
    pub(crate) fn spin_byte(self) -> u8
        ensures { result ≡ spin_byte self }
    {
        fans::bits_of(self.fans, self.part, Bit::Spin)
    }

    // 24h: WATCH, any of 26h, any of 25h.
    pub(crate) fn status_byte(self) -> u8
        ensures { result ≡ status_byte self }
    {
        u8::from(self.expired) * WATCH
            + u8::from(self.spin_byte() != 0) * ANY_SPIN
            + u8::from(self.stall_byte() != 0) * ANY_STALL
    }

    // The alert line. WATCH is not gated by 29h.
    #[tactic(auto, unfolding(crate::specs::Registers::alert_line))]
    pub fn alert(self) -> bool
        ensures { result ≡ alert_line self }
    {
        self.configuration / MASK % 2 != 1
            && (self.expired || fans::interrupting(self.fans, self.part, self.enable))
    }
}
