// Ticks, and the ends of a spin-up.
ghost use Rattle.std.specs.Prelude.{◌≡◌, false};
ghost use Rattle.laws.specs.Repeat.{repeated};
ghost use Rattle.emc2300_output.specs.State.{in_spin};
ghost use Rattle.emc2300_output.specs.Tick.{spin_ticked, ticked, last_within, spun_up};

use crate::{Output, Request};
use emc2300_duty::Asked;

impl Output {
    // One tick of 12.5 ms.
    #[tactic(auto, unfolding(crate::specs::Tick::ticked))]
    pub fn tick(self, request: Request) -> Output
        ensures { result ≡ ticked request.registers request.asked self }
    {
        if self.in_spin_up() {
            self.spin_tick(request.asked.goal())
        } else if request.under_ramp() {
            self.with_ramp(self.ramp().tick(request.pace()))
        } else {
            self
        }
    }

    // A tick in a spin-up.
    #[tactic(auto, unfolding(crate::specs::Tick::spin_ticked))]
    fn spin_tick(mut self, goal: u8) -> Output
        ensures { result ≡ spin_ticked goal self }
    {
        if self.left <= 1 {
            return Output::placed(goal);
        }
        self.left -= 1;
        self
    }

    // So many ticks: those of a spin-up, then those of the ramp, both at once.
    #[tactic(auto, using(crate::proofs::Passing::spin_ticks, crate::proofs::Passing::spun_past))]
    pub fn ticks(mut self, request: Request, count: u16) -> Output
        ensures { result ≡ repeated count (ticked request.registers request.asked) self }
    {
        if count < self.left {
            self.left -= count;
            self
        } else if 0 < self.left {
            Output::placed(request.asked.goal()).still_ticks(request, count - self.left)
        } else {
            self.still_ticks(request, count)
        }
    }

    // So many ticks out of spin-up.
    #[tactic(auto, using(crate::proofs::Passing::ramp_alone, crate::proofs::Passing::still_ticks_lem))]
    fn still_ticks(self, request: Request, count: u16) -> Output
        requires { in_spin self ≡ false }
        ensures { result ≡ repeated count (ticked request.registers request.asked) self }
    {
        if request.under_ramp() {
            self.with_ramp(self.ramp().ticks(request.pace(), count))
        } else {
            self
        }
    }

    // Whether the last tick of a spin-up is among the next so many.
    pub fn last_within(self, count: u16) -> bool
        ensures { result ≡ last_within count self }
    {
        0 < self.left && self.left <= count
    }

    // A spin-up that its tachs end.
    #[tactic(auto, unfolding(crate::specs::Tick::spun_up))]
    pub fn spun_up(self, asked: Asked) -> Output
        ensures { result ≡ spun_up asked self }
    {
        if self.in_spin_up() {
            Output::placed(asked.goal())
        } else {
            self
        }
    }
}
