// One zone: its temperature, its limits, and what it asks of an output.
ghost use Rattle.std.specs.Prelude.{◌≡◌};
ghost use Rattle.emc2300_duty.specs.Zones.{above_least, is_faulty, at_limit, range_of, rise, zone_asks};

use crate::Zone;

// Ranges in hundredths of a degree, by bits 7..4.
const RANGES: [u16; 16] = [
    200, 250, 333, 400, 500, 667, 800, 1000, 1333, 1600, 2000, 2667, 3200, 4000, 5333, 8000,
];

// -128 degrees: as a temperature a fault, as an absolute limit none. A byte and no Option, as the definitions have it.
const LEAST: u8 = 0x80;

impl Zone {
    // Whether the reading is a fault.
    pub fn is_faulty(self) -> bool
        ensures { result ≡ is_faulty self }
    {
        self.temperature == LEAST
    }

    // Whether the zone is at or above its absolute limit, where it has one.
    #[tactic(auto, unfolding(crate::specs::Zones::at_limit))]
    pub fn at_limit(self) -> bool
        ensures { result ≡ at_limit self }
    {
        self.absolute != LEAST && above_least(self.absolute) <= above_least(self.temperature)
    }

    // The duty that the zone asks of an output with this minimum.
    #[tactic(auto, unfolding(crate::specs::Zones::zone_asks))]
    pub fn asks(self, minimum: u8) -> u8
        ensures { result ≡ zone_asks minimum self }
    {
        let range = self.range() as u32;
        let rise = (self.rise() as u32).min(range);
        // 255 x 8000 needs more than 16 bits.
        minimum + ((255 - minimum) as u32 * rise / range) as u8
    }

    fn range(self) -> u16
        ensures { result ≡ range_of self }
    {
        RANGES[(self.configuration / 16) as usize]
    }

    // How far the zone is above its low limit, in hundredths of a degree; 0 where it is not.
    fn rise(self) -> u16
        ensures { result ≡ rise self }
    {
        let degrees = above_least(self.temperature).saturating_sub(above_least(self.low));
        100 * degrees as u16
    }
}

// How many degrees the temperature of a signed byte lies above -128.
#[tactic(auto, unfolding(crate::specs::Zones::above_least))]
fn above_least(byte: u8) -> u8
    ensures { result ≡ above_least byte }
{
    byte.wrapping_add(128)
}
