// What touches the watch but ticks: a stored write to a fan or to 20h, and a transfer.
ghost use Rattle.std.specs.Prelude.{◌≡◌, true};
ghost use Rattle.emc2305_chip.specs.State.{with_watch};
ghost use Rattle.emc2305_chip.specs.Watching.{programmed_if, configured_by, fed_chip};

use crate::Chip;
use emc2305_watchdog::Watch;

// The weight of WD_EN in 20h.
const WD_EN: u8 = 0x20;

impl Chip {
    // A fan is programmed, which ends the power-up watch.
    pub fn programmed(self) -> Chip
        ensures { result ≡ programmed_if true self }
    {
        self.with_watch(self.watch.programmed())
    }

    // A stored write to 20h: WD_EN starts or ends the continuous watch.
    pub(crate) fn configured_by(self, byte: u8) -> Chip
        ensures { result ≡ configured_by byte self }
    {
        self.with_watch(self.watch.configured(byte / WD_EN % 2 == 1))
    }

    // A transfer taken feeds the continuous watch.
    pub fn fed(self) -> Chip
        ensures { result ≡ fed_chip self }
    {
        self.with_watch(self.watch.fed())
    }

    // The chip with another watch.
    pub(crate) fn with_watch(self, watch: Watch) -> Chip
        ensures { result ≡ with_watch watch self }
    {
        Chip { watch, ..self }
    }
}
