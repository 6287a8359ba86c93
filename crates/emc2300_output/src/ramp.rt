// The ramp's rate, ramp control, and what a read shows.
ghost use Rattle.std.specs.Prelude.{◌≡◌};
ghost use Rattle.laws.specs.Bits.{bit};
ghost use Rattle.emc2300_duty.specs.Duty.{goal_of};
ghost use Rattle.emc2300_output.specs.State.{placed, power_on, in_spin, shown, clock_cleared, ramp_of, with_ramp};
ghost use Rattle.emc2300_output.specs.Ramp.{rate_of, zero_at_once, ramp_control};

use crate::{Output, Request};
use emc2300_duty::{Asked, Registers};
use ramps::{Pace, Ramp};

// Ticks of one ramp step, by rate.
const RATES: [u8; 8] = [17, 9, 6, 4, 3, 2, 1, 1];

// Bit 3 of the ramp byte, bit 2 of the options.
const ENABLE: u8 = 0x08;

const ZERO_AT_ONCE: u8 = 0x04;

impl Output {
    pub fn power_on() -> Output
        ensures { result ≡ power_on }
    {
        Output::placed(255)
    }

    // At a duty at once: no spin-up, clock 0.
    pub(crate) fn placed(duty: u8) -> Output
        ensures { result ≡ placed duty }
    {
        Output {
            duty,
            clock: 0,
            left: 0,
        }
    }

    pub fn in_spin_up(self) -> bool
        ensures { result ≡ in_spin self }
    {
        0 < self.left
    }

    // What a read of 30h+ shows.
    pub fn shown(self) -> u8
        ensures { result ≡ shown self }
    {
        if self.in_spin_up() { 0 } else { self.duty }
    }

    // A stored write to the output's ramp register sets the clock to 0.
    pub fn clock_cleared(mut self) -> Output
        ensures { result ≡ clock_cleared self }
    {
        self.clock = 0;
        self
    }

    // Where the ramp stands. This, `with_ramp` and `pace` are of each device's own struct: a trait that they shared would be longer.
    pub(crate) fn ramp(self) -> Ramp
        ensures { result ≡ ramp_of self }
    {
        Ramp {
            drive: self.duty,
            clock: self.clock,
        }
    }

    pub(crate) fn with_ramp(self, ramp: Ramp) -> Output
        ensures { result ≡ with_ramp ramp self }
    {
        Output {
            duty: ramp.drive,
            clock: ramp.clock,
            ..self
        }
    }
}

// Ticks for one step of 1.
pub fn rate(registers: Registers) -> u8
    ensures { result ≡ rate_of registers }
{
    RATES[(registers.ramp % 8) as usize]
}

impl Request {
    // Whether the duty goes to the goal by steps: never to full or off, nor to 0 with SZEN.
    #[tactic(auto, unfolding(crate::specs::Ramp::ramp_control))]
    pub fn under_ramp(self) -> bool
        ensures { result ≡ ramp_control self.registers self.asked }
    {
        matches!(self.asked, Asked::Duty(_)) && self.ramp_enabled() && !self.zero_at_once()
    }

    fn ramp_enabled(self) -> bool
        ensures { result ≡ bit 3 self.registers.ramp }
    {
        self.registers.ramp / ENABLE % 2 == 1
    }

    // Goal 0 with SZEN.
    fn zero_at_once(self) -> bool
        ensures { result ≡ zero_at_once self.registers (goal_of self.asked) }
    {
        self.asked.goal() == 0 && self.registers.options / ZERO_AT_ONCE % 2 == 1
    }

    // Toward the goal by 1 at the rate.
    pub(crate) fn pace(self) -> Pace
        ensures { result ≡ record { goal = goal_of self.asked; step = 1; period = rate_of self.registers } }
    {
        Pace {
            goal: self.asked.goal(),
            step: 1,
            period: rate(self.registers),
        }
    }
}
