// Status: the fan's bits of 25h and 26h, and what a read of one of these leaves.
ghost use Rattle.std.specs.Prelude.{◌≡◌};
ghost use Rattle.emc2305_fan.specs.Status.{standing, bit_cleared, stuck, bit_read};

use crate::{Bit, Fan};

impl Fan {
    // Whether a status bit of the fan stands.
    pub fn stands(self, bit: Bit) -> bool
        ensures { result ≡ standing bit self }
    {
        match bit {
            Bit::Stall => self.stalled,
            Bit::Spin => self.failed,
        }
    }

    // The fan after a read of 25h or of 26h.
    #[tactic(auto, unfolding(crate::specs::Status::bit_read))]
    pub fn bit_read(self, bit: Bit) -> Fan
        ensures { result ≡ bit_read bit self }
    {
        if self.is_stuck() {
            self
        } else {
            self.bit_cleared(bit)
        }
    }

    // Whether the latest reading is too slow while the fan is driven. In spin-up too: the stall's conditions are others.
    #[tactic(auto, unfolding(crate::specs::Status::stuck))]
    pub fn is_stuck(self) -> bool
        ensures { result ≡ stuck self }
    {
        self.too_slow() && 0 < self.drive
    }

    // The fan with one of its bits cleared.
    fn bit_cleared(mut self, bit: Bit) -> Fan
        ensures { result ≡ bit_cleared bit self }
    {
        match bit {
            Bit::Stall => self.stalled = false,
            Bit::Spin => self.failed = false,
        }
        self
    }
}
