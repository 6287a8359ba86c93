// A ramp, of whichever device: the drive goes to its goal by a step each period (document 01, 'Drive').
#![tactic(auto)]

ghost use Rattle.std.specs.Prelude.{◌≡◌, ◌<◌};
ghost use Rattle.laws.specs.Repeat.{repeated};
ghost use Rattle.ramps.specs.Ramp.{moved, counted};

// Where a ramp stands.
#[derive(Clone, Copy, Debug, PartialEq, Eq)]
pub struct Ramp {
    pub drive: u8,
    // Ticks that the update clock has counted.
    pub clock: u8,
}

// Where a ramp goes, and how fast: by a step each period of its clock.
#[derive(Clone, Copy, Debug, PartialEq, Eq)]
pub struct Pace {
    pub goal: u8,
    pub step: u8,
    pub period: u8,
}

impl Ramp {
    // A tick that the clock counts. A clock past its period acts as at the period.
    #[tactic(auto, unfolding(crate::specs::Ramp::counted))]
    pub fn tick(self, pace: Pace) -> Ramp
        ensures { result ≡ counted pace.goal pace.step pace.period self }
    {
        // In u16, so that a clock of 255 does not overflow.
        if self.clock as u16 + 1 < pace.period as u16 {
            Ramp {
                clock: self.clock + 1,
                ..self
            }
        } else {
            Ramp {
                drive: update(self.drive, pace.goal, pace.step),
                clock: 0,
            }
        }
    }

    // So many ticks that the clock counts. A clock past its period acts first.
    #[tactic(auto, unfolding(crate::specs::Ramp::counted, laws::specs::Repeat::repeated), using(crate::proofs::Ticks::first_rest))]
    pub fn ticks(self, pace: Pace, count: u16) -> Ramp
        ensures { result ≡ repeated count (counted pace.goal pace.step pace.period) self }
    {
        if self.clock < pace.period {
            self.passed(pace, count)
        } else if count == 0 {
            self
        } else {
            // A period of 0 acts at each tick, as one of 1 does.
            let rest = Pace {
                period: pace.period.max(1),
                ..pace
            };
            self.tick(pace).passed(rest, count - 1)
        }
    }

    // So many ticks by the closed formula: a step for each whole period, and the clock at what is left.
    #[tactic(auto, using(crate::proofs::Ticks::counted_ticks, crate::proofs::Ticks::short_ticks))]
    fn passed(self, pace: Pace, count: u16) -> Ramp
        requires { self.clock < pace.period }
        ensures { result ≡ repeated count (counted pace.goal pace.step pace.period) self }
    {
        let counted = self.clock as u32 + count as u32;
        let period = pace.period as u32;
        // No division where no update comes.
        if counted < period {
            return Ramp {
                clock: counted as u8,
                ..self
            };
        }
        Ramp {
            drive: moved(self.drive, pace.goal, pace.step as u32 * (counted / period)),
            clock: (counted % period) as u8,
        }
    }
}

// One update.
pub fn update(drive: u8, goal: u8, step: u8) -> u8
    ensures { result ≡ moved drive goal step }
{
    moved(drive, goal, step as u32)
}

// The drive moved toward the goal by the smaller of `by` and the distance.
#[tactic(auto, unfolding(crate::specs::Ramp::moved))]
fn moved(drive: u8, goal: u8, by: u32) -> u8
    ensures { result ≡ moved drive goal by }
{
    let smaller = by.min(drive.abs_diff(goal) as u32) as u8;
    if drive <= goal {
        drive + smaller
    } else {
        drive - smaller
    }
}
