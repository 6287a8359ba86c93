// Settling: what an output does when what it is asked for may have changed.
ghost use Rattle.std.specs.Prelude.{◌≡◌};
ghost use Rattle.emc2300_output.specs.Settling.{spin_length, started, spin_held, starts, duty_set, settled};

use crate::{Output, Request};
use emc2300_duty::{Asked, Registers};

// Spin-up lengths in ticks, by configuration bits 2..0.
const LENGTHS: [u16; 8] = [0, 8, 20, 32, 56, 80, 160, 320];

impl Output {
    // After a stored write, a soft reset and a kept temperature sample.
    #[tactic(auto, unfolding(crate::specs::Settling::settled))]
    pub fn settle(self, request: Request) -> Output
        ensures { result ≡ settled request.registers request.asked self }
    {
        match request.asked {
            Asked::Full => Output::placed(255),
            Asked::Off => Output::placed(0),
            Asked::Duty(goal) => {
                if self.in_spin_up() {
                    self.spin_held(goal)
                } else {
                    let length = spin_length(request.registers);
                    self.duty_set(length, request.under_ramp(), goal)
                }
            }
        }
    }

    // Goal 0 ends a spin-up.
    fn spin_held(self, goal: u8) -> Output
        ensures { result ≡ spin_held goal self }
    {
        if goal == 0 { Output::placed(0) } else { self }
    }

    // Out of a spin-up: from standstill one starts, and without ramp control the duty is the goal.
    #[tactic(auto, unfolding(crate::specs::Settling::duty_set))]
    fn duty_set(self, length: u16, ramped: bool, goal: u8) -> Output
        ensures { result ≡ duty_set length ramped goal self }
    {
        if self.starts(goal) {
            started(length, goal)
        } else if ramped {
            self
        } else {
            Output::placed(goal)
        }
    }

    fn starts(self, goal: u8) -> bool
        ensures { result ≡ starts goal self }
    {
        self.duty == 0 && 0 < goal
    }
}

// A spin-up at its start; one of no ticks ends at once.
#[tactic(auto, unfolding(crate::specs::Settling::started))]
fn started(length: u16, goal: u8) -> Output
    ensures { result ≡ started length goal }
{
    if length == 0 {
        Output::placed(goal)
    } else {
        Output {
            duty: 0,
            clock: 0,
            left: length,
        }
    }
}

// The ticks of a spin-up that would start now.
pub fn spin_length(registers: Registers) -> u16
    ensures { result ≡ spin_length registers }
{
    LENGTHS[(registers.configuration % 8) as usize]
}
