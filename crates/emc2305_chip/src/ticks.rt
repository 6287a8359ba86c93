// Ticks of the chip. Their loop goes on by one tick, or by all that are quiet: a stride that no `for` has.
ghost use Rattle.std.specs.Prelude.{◌≡◌};
ghost use Rattle.laws.specs.Repeat.{repeated};
ghost use Rattle.emc2305_chip.specs.Ticks.{all_fired, chip_ticked, all_ticks};

use crate::{Chip, fans};

impl Chip {
    // So many ticks, one after the other. Those in which the watchdog does not fire are taken together.
    pub fn ticks(self, count: u16) -> Chip
        ensures { result ≡ repeated count chip_ticked self }
    {
        let mut chip = self;
        let mut left = count;
        while left > 0 {
            let watch = chip.watch;
            if watch.fires() {
                chip = chip.all_fired().with_watch(watch.tick());
                left -= 1;
            } else {
                let quiet = watch.quiet(left);
                let next = quiet.watch;
                chip.all_ticks(quiet.ticks);
                chip = chip.with_watch(next);
                left -= quiet.ticks;
            }
        }
        chip
    }

    // The watchdog fires.
    #[tactic(auto, unfolding(crate::specs::Ticks::all_fired))]
    fn all_fired(mut self) -> Chip
        ensures { result ≡ all_fired self }
    {
        self.expired = true;
        self.with_fans(fans::each(self.fans, self.part, |fan| fan.fired()))
    }

    // Each fan takes so many ticks of its own; where none has anything to do, nothing changes, and by reference nothing is copied.
    #[tactic(auto, using(crate::proofs::Together::all_idle))]
    fn all_ticks(&mut self, count: u16)
        ensures { self.new ≡ all_ticks count self.old }
    {
        if fans::any_busy(self.fans, self.part) {
            let fans = fans::each(self.fans, self.part, |fan| fan.ticks(count));
            self.fans = fans;
        }
    }
}
