// What an event does to one fan.
ghost use Rattle.std.specs.Prelude.{◌≡◌};
ghost use Rattle.emc2305_fan.specs.declared.Fan.{Fan};
ghost use Rattle.emc2305_fan.specs.Drive.{wished};
ghost use Rattle.emc2305_fan.specs.Tach.{sampled};
ghost use Rattle.emc2305_watchdog.specs.Watch.{in_power_up};
ghost use Rattle.emc2305_chip.specs.Registers.{on_fan};

use crate::Chip;
use emc2305_fan::Fan;

impl Chip {
    // A tach sample of fan i + 1. There is place for five: past them it does nothing.
    pub fn sample(self, i: usize, count: u16) -> Chip
        ensures { result ≡ on_fan i (sampled count (in_power_up self.watch)) self }
    {
        let power_up_watch = self.watch.in_power_up();
        self.on_fan(i, |fan| fan.sample(count, power_up_watch))
    }

    // A loop wish for fan i + 1; past the five it does nothing.
    pub fn wish(self, i: usize, drive: u8) -> Chip
        ensures { result ≡ on_fan i (wished drive) self }
    {
        self.on_fan(i, |fan| fan.wish(drive))
    }

    // One fan changed, the others as they were.
    fn on_fan<F: Fn(Fan) -> Fan>(self, i: usize, change: F) -> Chip
        requires { F.IsAlwaysCallable change }
        ensures { (m : Fan → Fan) → ((x y : Fan) → F.post change x y → y ≡ m x) → result ≡ on_fan i m self }
    {
        // A copy of the fans, since reaching into those of the chip would keep the chip in memory (docs/PERFORMANCE.md).
        let mut fans = self.fans;
        match fans.get(i) {
            Some(fan) => {
                fans[i] = change(*fan);
                self.with_fans(fans)
            }
            None => self,
        }
    }
}
