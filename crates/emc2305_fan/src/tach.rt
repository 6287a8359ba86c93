// Tach samples, and what the watchdog does to a fan.
ghost use Rattle.std.specs.Prelude.{◌≡◌};
ghost use Rattle.emc2305_fan.specs.Tach.{with_reading, judged, stall, sampled, fired};

use crate::{CONFIGURATION_1, Fan, LOOP, READING_HIGH, READING_LOW, SETTING};

impl Fan {
    // A tach sample, told whether the power-up watch runs. Of a count past 8191 the low 13 bits are taken.
    #[tactic(auto, unfolding(crate::specs::Tach::sampled))]
    pub fn sample(self, count: u16, power_up_watch: bool) -> Fan
        ensures { result ≡ sampled count power_up_watch self }
    {
        let fan = self.with_reading(count);
        if fan.judged(power_up_watch) && fan.too_slow() {
            fan.stall()
        } else {
            fan
        }
    }

    // The reading registers are the count times 8.
    #[tactic(auto, unfolding(crate::specs::Tach::with_reading))]
    fn with_reading(mut self, count: u16) -> Fan
        ensures { result ≡ with_reading count self }
    {
        let [high, low] = count.wrapping_mul(8).to_be_bytes();
        self.registers[READING_HIGH] = high;
        self.registers[READING_LOW] = low;
        self
    }

    // Whether a sample is judged.
    fn judged(self, power_up_watch: bool) -> bool
        ensures { result ≡ judged power_up_watch self }
    {
        0 < self.drive && !self.spin.running && !power_up_watch
    }

    // A stall sets the 25h bit, and in closed loop starts a spin-up.
    #[tactic(auto, unfolding(crate::specs::Tach::stall))]
    fn stall(mut self) -> Fan
        ensures { result ≡ stall self }
    {
        self.stalled = true;
        if self.closed_loop() {
            self.start()
        } else {
            self
        }
    }

    // What the watchdog does to a fan when it fires. It is no stored write.
    #[tactic(auto, unfolding(crate::specs::Tach::fired))]
    pub fn fired(mut self) -> Fan
        ensures { result ≡ fired self }
    {
        let configuration = self.registers[CONFIGURATION_1];
        self.registers[SETTING] = 0xFF;
        self.registers[CONFIGURATION_1] = configuration % LOOP;
        self.end(255)
    }
}
