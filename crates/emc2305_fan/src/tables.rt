// The fixed tables of document 01.
ghost use Rattle.std.specs.Prelude.{◌≡◌, ◌/◌, ◌%◌, get_or};
ghost use Rattle.emc2305_fan.specs.Tables.{periods, lengths, levels};

// Update periods in ticks, by Configuration 1 bits 0..2.
const PERIODS: [u8; 8] = [8, 16, 24, 32, 40, 64, 96, 128];

// Spin-up lengths in ticks, by Spin Up bits 0..1.
const LENGTHS: [u8; 4] = [20, 40, 80, 160];

// Spin-up levels, by Spin Up bits 2..4.
const LEVELS: [u8; 8] = [76, 89, 102, 114, 127, 140, 153, 165];

// The update period that a Configuration 1 byte asks for.
pub(crate) fn period_of(byte: u8) -> u8
    ensures { result ≡ get_or periods (byte % 8) 0 }
{
    PERIODS[usize::from(byte % 8)]
}

// The length that a Spin Up byte asks for.
pub(crate) fn length_of(byte: u8) -> u8
    ensures { result ≡ get_or lengths (byte % 4) 0 }
{
    LENGTHS[usize::from(byte % 4)]
}

// The level that a Spin Up byte asks for.
pub(crate) fn level_of(byte: u8) -> u8
    ensures { result ≡ get_or levels (byte / 4 % 8) 0 }
{
    LEVELS[usize::from(byte / 4 % 8)]
}
