// The figures of a report over a log: those of a fan, a sample at a time, and all of them as text (document 02, CR 2).
#![tactic(auto)]

mod lines;

ghost use Rattle.std.specs.Prelude.{◌≡◌, ◌+◌, ◌<◌};
ghost use Rattle.reports.specs.Adding.{is_full, with_zero, with_speed, with_sample};
ghost use Rattle.reports.specs.Lines.{no_figures, figures_row};

use eventlog::Refusal;
pub use lines::lay;

// How many samples a report takes of a fan.
const LIMIT: u32 = 65535;

// The figures of a fan: how many samples have a count above 0; the lowest, the highest and the total of their whole RPM, 0 of none, as C is answered;
// how many have count 0.
#[derive(Clone, Copy, Debug, PartialEq, Eq)]
pub struct Figures {
    pub samples: u16,
    pub lowest: u32,
    pub highest: u32,
    pub total: u64,
    pub zeros: u16,
}

// What a report gives: the refusal that it ends with, if any; the place of the stopping record or the end, how many records it took, and the figures of each fan.
// It is WrongPoles for poles outside 1 to 4, and TooMany at a sample past the limit.
#[derive(Clone, Copy, Debug, PartialEq, Eq)]
pub struct Report {
    pub stop: Option<Refusal>,
    pub place: usize,
    pub records: usize,
    pub fans: [Figures; 5],
}

// A state that is handed on, and the figures of each fan with it.
#[derive(Clone, Copy, Debug, PartialEq, Eq)]
pub struct Reported<S> {
    pub state: S,
    pub fans: [Figures; 5],
}

impl Figures {
    // The figures of a fan that has no samples.
    pub fn none() -> Self
        ensures { result ≡ no_figures }
    {
        Figures {
            samples: 0,
            lowest: 0,
            highest: 0,
            total: 0,
            zeros: 0,
        }
    }

    // A fan has as many samples as a report takes, those with count 0 included.
    pub fn is_full(self) -> bool
        ensures { result ≡ is_full self }
    {
        LIMIT <= u32::from(self.samples) + u32::from(self.zeros)
    }

    // The figures with a sample more, unless they are full.
    #[tactic(auto, unfolding(crate::specs::Adding::with_sample))]
    pub fn with_sample(self, count: u16, rpm: u32) -> Self
        ensures { result ≡ with_sample count rpm self }
    {
        if self.is_full() {
            return self;
        }
        if count == 0 {
            self.with_zero()
        } else {
            self.with_speed(rpm)
        }
    }

    // One more with count 0.
    fn with_zero(self) -> Self
        requires { self.zeros < 65535 }
        ensures { result ≡ with_zero self }
    {
        Figures {
            zeros: self.zeros + 1,
            ..self
        }
    }

    // One more with a speed; the first is the lowest. No total of so many samples wraps; that of other figures may.
    fn with_speed(self, rpm: u32) -> Self
        requires { self.samples < 65535 }
        ensures { result ≡ with_speed rpm self }
    {
        let lowest = if self.samples == 0 {
            rpm
        } else {
            self.lowest.min(rpm)
        };
        Figures {
            samples: self.samples + 1,
            lowest,
            highest: self.highest.max(rpm),
            total: self.total.wrapping_add(u64::from(rpm)),
            zeros: self.zeros,
        }
    }

    // The five figures of a fan, in their order.
    pub fn row(self) -> [u64; 5]
        ensures { result ≡ figures_row self }
    {
        [
            u64::from(self.samples),
            u64::from(self.lowest),
            u64::from(self.highest),
            self.total,
            u64::from(self.zeros),
        ]
    }
}
