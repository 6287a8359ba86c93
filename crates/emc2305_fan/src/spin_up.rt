// Spin-up: its start, its ticks, its end.
ghost use Rattle.std.specs.Prelude.{◌≡◌};
ghost use Rattle.emc2305_fan.specs.Spin.{spin_new, spin_drive, started, ended, too_slow, spin_leaves, spin_failed, spin_over, spin_tick};

use crate::{Fan, NO_KICK, READING_HIGH, SPIN_UP, SpinUp, VALID_COUNT, tables};

impl SpinUp {
    // The first quarter at 255, unless there is no kick; the rest at the level.
    #[tactic(auto, unfolding(crate::specs::Spin::spin_drive))]
    fn drive(self) -> u8
        ensures { result ≡ spin_drive self }
    {
        if self.kick && self.ticks < self.length / 4 {
            255
        } else {
            self.level
        }
    }
}

impl Fan {
    // Whether a spin-up runs.
    pub fn in_spin_up(self) -> bool
        ensures { result ≡ self.spin.running }
    {
        self.spin.running
    }

    // The spin-up that the fan's Spin Up register asks for, at its start.
    fn spin_new(self) -> SpinUp
        ensures { result ≡ spin_new self }
    {
        let byte = self.registers[SPIN_UP];
        SpinUp {
            running: true,
            ticks: 0,
            length: tables::length_of(byte),
            kick: byte / NO_KICK % 2 != 1,
            level: tables::level_of(byte),
        }
    }

    // The start of a spin-up, which sets the drive.
    #[tactic(auto, unfolding(crate::specs::Spin::started))]
    pub(crate) fn start(mut self) -> Fan
        ensures { result ≡ started self }
    {
        let spin = self.spin_new();
        self.drive = spin.drive();
        self.spin = spin;
        self
    }

    // The end of a spin-up, at a drive.
    pub(crate) fn end(mut self, drive: u8) -> Fan
        ensures { result ≡ ended drive self }
    {
        self.drive = drive;
        self.clock = 0;
        self.spin = SpinUp::default();
        self
    }

    // Whether the reading's high byte is above Valid Count.
    #[tactic(auto, unfolding(crate::specs::Spin::too_slow))]
    pub(crate) fn too_slow(self) -> bool
        ensures { result ≡ too_slow self }
    {
        self.registers[VALID_COUNT] < self.registers[READING_HIGH]
    }

    // A tick in spin-up. A count past the length ends it too.
    #[tactic(auto, unfolding(crate::specs::Spin::spin_tick))]
    pub(crate) fn spin_tick(mut self) -> Fan
        ensures { result ≡ spin_tick self }
    {
        let mut spin = self.spin;
        if u16::from(spin.ticks) + 1 < u16::from(spin.length) {
            spin.ticks += 1;
            self.drive = spin.drive();
            self.spin = spin;
            self
        } else {
            self.spin_over()
        }
    }

    // After the last tick: the reading is judged.
    #[tactic(auto, unfolding(crate::specs::Spin::spin_over))]
    fn spin_over(mut self) -> Fan
        ensures { result ≡ spin_over self }
    {
        if self.too_slow() {
            self.failed = true;
            self.spin_failed()
        } else {
            self.spin_ended()
        }
    }

    // In closed loop a failed spin-up starts again, in direct mode it ends.
    #[tactic(auto, unfolding(crate::specs::Spin::spin_failed))]
    fn spin_failed(self) -> Fan
        ensures { result ≡ spin_failed self }
    {
        if self.closed_loop() {
            self.start()
        } else {
            self.spin_ended()
        }
    }

    // The end at the drive that a spin-up leaves.
    fn spin_ended(self) -> Fan
        ensures { result ≡ ended (spin_leaves self) self }
    {
        self.end(self.spin_leaves())
    }

    // The drive that a spin-up leaves.
    fn spin_leaves(self) -> u8
        ensures { result ≡ spin_leaves self }
    {
        if self.under_ramp() {
            self.spin.level
        } else {
            self.goal()
        }
    }
}
