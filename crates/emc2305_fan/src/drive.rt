// Drive: goal, wish, ramp control, and the tick.
ghost use Rattle.std.specs.Prelude.{◌≡◌, false};
ghost use Rattle.laws.specs.Repeat.{repeated};
ghost use Rattle.emc2305_fan.specs.Ramp.{ramp_of, with_ramp, pace_of};
ghost use Rattle.emc2305_fan.specs.Drive.{driver_off, goal, under_ramp, step, period, wished};
ghost use Rattle.emc2305_fan.specs.Tick.{clock_ticked, ticked, busy};

use crate::{
    CONFIGURATION_1, CONFIGURATION_2, DRIVER_OFF, Fan, MAX_STEP, MINIMUM_DRIVE, RAMP, SETTING,
    TARGET_HIGH, tables,
};
use ramps::{Pace, Ramp};

impl Fan {
    // Closed loop with target high FFh.
    pub fn driver_off(self) -> bool
        ensures { result ≡ driver_off self }
    {
        self.closed_loop() && self.registers[TARGET_HIGH] == DRIVER_OFF
    }

    // The drive that the fan is to have.
    #[tactic(auto, unfolding(crate::specs::Drive::goal))]
    pub fn goal(self) -> u8
        ensures { result ≡ goal self }
    {
        if self.closed_loop() {
            if self.driver_off() {
                0
            } else {
                self.wish.max(self.registers[MINIMUM_DRIVE])
            }
        } else {
            self.registers[SETTING]
        }
    }

    // Whether the drive goes to the goal by steps.
    #[tactic(auto, unfolding(crate::specs::Drive::under_ramp))]
    pub fn under_ramp(self) -> bool
        ensures { result ≡ under_ramp self }
    {
        if self.closed_loop() {
            !self.driver_off()
        } else {
            self.registers[CONFIGURATION_2] / RAMP % 2 == 1
        }
    }

    // The most that one ramp update moves the drive by.
    pub fn step(self) -> u8
        ensures { result ≡ step self }
    {
        self.registers[MAX_STEP] % 64
    }

    // The ticks from one ramp update to the next.
    pub fn period(self) -> u8
        ensures { result ≡ period self }
    {
        tables::period_of(self.registers[CONFIGURATION_1])
    }

    // A wish of the loop; outside closed loop it does nothing.
    #[tactic(auto, unfolding(crate::specs::Drive::wished))]
    pub fn wish(mut self, drive: u8) -> Fan
        ensures { result ≡ wished drive self }
    {
        let keeps = self.closed_loop();
        if keeps {
            self.wish = drive;
        }
        self
    }

    // One tick of 12.5 ms.
    #[tactic(auto, unfolding(crate::specs::Tick::ticked))]
    pub fn tick(self) -> Fan
        ensures { result ≡ ticked self }
    {
        if self.spin.running {
            self.spin_tick()
        } else if self.under_ramp() {
            self.clock_tick()
        } else {
            self
        }
    }

    // Where the ramp stands. This, `pace` and `with_ramp` are of each device's own struct: a trait that they shared would be longer.
    fn ramp(self) -> Ramp
        ensures { result ≡ ramp_of self }
    {
        Ramp {
            drive: self.drive,
            clock: self.clock,
        }
    }

    // Where it goes, and how fast.
    fn pace(self) -> Pace
        ensures { result ≡ pace_of self }
    {
        Pace {
            goal: self.goal(),
            step: self.step(),
            period: self.period(),
        }
    }

    // The fan with its ramp elsewhere.
    fn with_ramp(mut self, ramp: Ramp) -> Fan
        ensures { result ≡ with_ramp ramp self }
    {
        self.drive = ramp.drive;
        self.clock = ramp.clock;
        self
    }

    // A tick that the update clock counts.
    #[tactic(auto, using(crate::proofs::Steps::clock_ticked_is))]
    fn clock_tick(self) -> Fan
        ensures { result ≡ clock_ticked self }
    {
        self.with_ramp(self.ramp().tick(self.pace()))
    }

    // Whether a tick changes anything: a spin-up runs, or the update clock counts.
    pub fn is_busy(self) -> bool
        ensures { result ≡ busy self }
    {
        self.spin.running || self.under_ramp()
    }

    // So many ticks. A spin-up takes them one by one, the ramp all at once.
    #[tactic(auto, unfolding(laws::specs::Repeat::repeated), using(laws::proofs::Repeat::once_more, laws::proofs::Repeat::first_steps, crate::proofs::Steps::ticks_spin))]
    pub fn ticks(self, count: u16) -> Fan
        ensures { result ≡ repeated count ticked self }
    {
        let mut fan = self;
        for passed in 0..count {
            if !fan.spin.running {
                return fan.still_ticks(count - passed);
            }
            fan = fan.spin_tick();
        }
        fan
    }

    // So many ticks out of spin-up.
    #[tactic(auto, using(crate::proofs::Ticks::ramp_alone, crate::proofs::Ticks::still_ticks_lem))]
    fn still_ticks(self, count: u16) -> Fan
        requires { self.spin.running ≡ false }
        ensures { result ≡ repeated count ticked self }
    {
        if self.under_ramp() {
            self.with_ramp(self.ramp().ticks(self.pace(), count))
        } else {
            self
        }
    }
}
