// The watchdog: which watch runs, and how many ticks it has counted (document 01, 'Tach and watchdog').
#![tactic(auto)]

ghost use Rattle.std.specs.Prelude.{◌≡◌, min};
ghost use Rattle.emc2305_watchdog.specs.Watch.{in_power_up, fires, watch_ticked, fed, programmed, configured, reached, ticks_left, quietly};

// The ticks after which a watch fires.
const LIMIT: u32 = 320;

// The count at which one more tick makes it fire.
const LAST: u16 = 319;

// Only one watch runs at a time. Each holds its count of ticks. They have arms of their own, since different things end them.
#[derive(Clone, Copy, Debug, PartialEq, Eq)]
pub enum Watch {
    Off,
    PowerUp(u16),
    Continuous(u16),
}

// What passes before a watch fires: how many ticks, and the watch after them.
#[derive(Clone, Copy, Debug, PartialEq, Eq)]
pub struct Quiet {
    pub ticks: u16,
    pub watch: Watch,
}

impl Watch {
    // Whether the power-up watch runs.
    pub fn in_power_up(self) -> bool
        ensures { result ≡ in_power_up self }
    {
        matches!(self, Watch::PowerUp(_))
    }

    // Whether the next tick makes it fire.
    pub fn fires(self) -> bool
        ensures { result ≡ fires self }
    {
        match self {
            Watch::Off => false,
            Watch::PowerUp(count) | Watch::Continuous(count) => reached(count),
        }
    }

    // The watch after a tick. Where it fires, power-up watch ends and continuous counts again from 0.
    pub fn tick(self) -> Watch
        ensures { result ≡ watch_ticked self }
    {
        match self {
            Watch::Off => Watch::Off,
            Watch::PowerUp(count) if reached(count) => Watch::Off,
            Watch::PowerUp(count) => Watch::PowerUp(count + 1),
            Watch::Continuous(count) if reached(count) => Watch::Continuous(0),
            Watch::Continuous(count) => Watch::Continuous(count + 1),
        }
    }

    // Of so many ticks, those before the one that makes it fire.
    pub fn quiet(self, count: u16) -> Quiet
        ensures { result ≡ quietly count self }
    {
        match self {
            Watch::Off => Quiet {
                ticks: count,
                watch: Watch::Off,
            },
            Watch::PowerUp(passed) => {
                let ticks = before_limit(passed, count);
                Quiet {
                    ticks,
                    watch: Watch::PowerUp(passed + ticks),
                }
            }
            Watch::Continuous(passed) => {
                let ticks = before_limit(passed, count);
                Quiet {
                    ticks,
                    watch: Watch::Continuous(passed + ticks),
                }
            }
        }
    }

    // A transfer taken: it feeds the continuous watch alone.
    pub fn fed(self) -> Watch
        ensures { result ≡ fed self }
    {
        match self {
            Watch::Continuous(_) => Watch::Continuous(0),
            _ => self,
        }
    }

    // A fan was programmed: the power-up watch ends.
    pub fn programmed(self) -> Watch
        ensures { result ≡ programmed self }
    {
        match self {
            Watch::PowerUp(_) => Watch::Off,
            _ => self,
        }
    }

    // A stored write to 20h with this WD_EN.
    pub fn configured(self, enabled: bool) -> Watch
        ensures { result ≡ configured enabled self }
    {
        if enabled {
            return Watch::Continuous(0);
        }
        match self {
            Watch::Continuous(_) => Watch::Off,
            _ => self,
        }
    }
}

// Whether one more tick is the 320th, or past it. In u32, so that no count overflows.
fn reached(count: u16) -> bool
    ensures { result ≡ reached count }
{
    LIMIT <= u32::from(count) + 1
}

// Of so many ticks, those before the 320th.
fn before_limit(passed: u16, count: u16) -> u16
    ensures { result ≡ min count (ticks_left passed) }
{
    count.min(LAST.saturating_sub(passed))
}
