// The parts: how many fans each has, its reset bytes, its identity bytes (document 02, CR 5). Until a part's own datasheet is at hand all have the bytes of
// Table 5.1 of 002; what a datasheet says otherwise changes one line, in that part's constants.
#![tactic(auto)]

ghost use Rattle.std.specs.Prelude.{◌≡◌};
ghost use Rattle.emc2305_parts.specs.Parts.{part_with, fans_of, reset_of, identity_of};

// The parts that there are.
#[derive(Clone, Copy, Debug, PartialEq, Eq)]
pub enum Part {
    Emc2301,
    Emc2302,
    Emc2303,
    Emc2305,
}

// The bytes that power-on sets.
#[derive(Clone, Copy, Debug, PartialEq, Eq)]
pub struct Reset {
    // A fan's registers, by offset.
    pub fan: [u8; 16],
    // 20h.
    pub configuration: u8,
    // 29h.
    pub enable: u8,
    // 2Ah to 2Dh.
    pub outputs: [u8; 4],
    // EFh.
    pub lock: u8,
}

// Table 5.1's reset bytes.
const TABLE_RESET: Reset = Reset {
    fan: [
        0x00, 0x01, 0x2B, 0x28, 0x00, 0x2A, 0x19, 0x10, 0x66, 0xF5, 0x00, 0x00, 0xF8, 0xFF, 0xFF,
        0xF8,
    ],
    configuration: 0x40,
    enable: 0x00,
    outputs: [0x00, 0x00, 0x00, 0x00],
    lock: 0x00,
};

// Table 5.1's identity bytes, from FCh on: product features, product, manufacturer, revision.
const TABLE_IDENTITY: [u8; 4] = [0x00, 0x34, 0x5D, 0x80];

// Document 01 wants these three as constants of each part's own type. A trait over them would add its lines and take none away: no code is written for all parts
// by their types, and each match below would keep its four arms. Tried too as one constant of a trait, for one match:
// the proof did not close.

// The part with one fan.
#[derive(Clone, Copy)]
pub struct Emc2301 {}

impl Emc2301 {
    pub const FANS: usize = 1;

    pub const RESET: Reset = TABLE_RESET;

    pub const IDENTITY: [u8; 4] = TABLE_IDENTITY;
}

// The part with two.
#[derive(Clone, Copy)]
pub struct Emc2302 {}

impl Emc2302 {
    pub const FANS: usize = 2;

    pub const RESET: Reset = TABLE_RESET;

    pub const IDENTITY: [u8; 4] = TABLE_IDENTITY;
}

// The part with three.
#[derive(Clone, Copy)]
pub struct Emc2303 {}

impl Emc2303 {
    pub const FANS: usize = 3;

    pub const RESET: Reset = TABLE_RESET;

    pub const IDENTITY: [u8; 4] = TABLE_IDENTITY;
}

// The part with five.
#[derive(Clone, Copy)]
pub struct Emc2305 {}

impl Emc2305 {
    pub const FANS: usize = 5;

    pub const RESET: Reset = TABLE_RESET;

    pub const IDENTITY: [u8; 4] = TABLE_IDENTITY;
}

impl Part {
    // The part that a power-on with so many fans means: 1, 2 or 3, else the five-fan part. Any other number means that too, which a `From<u8>` would not say.
    pub fn with_fans(fans: u8) -> Part
        ensures { result ≡ part_with fans }
    {
        match fans {
            1 => Part::Emc2301,
            2 => Part::Emc2302,
            3 => Part::Emc2303,
            _ => Part::Emc2305,
        }
    }

    // How many fans it has.
    pub fn fans(self) -> usize
        ensures { result ≡ fans_of self }
    {
        match self {
            Part::Emc2301 => Emc2301::FANS,
            Part::Emc2302 => Emc2302::FANS,
            Part::Emc2303 => Emc2303::FANS,
            Part::Emc2305 => Emc2305::FANS,
        }
    }

    // Its reset bytes.
    pub fn reset(self) -> Reset
        ensures { result ≡ reset_of self }
    {
        match self {
            Part::Emc2301 => Emc2301::RESET,
            Part::Emc2302 => Emc2302::RESET,
            Part::Emc2303 => Emc2303::RESET,
            Part::Emc2305 => Emc2305::RESET,
        }
    }

    // Its identity bytes, from FCh on.
    pub fn identity(self) -> [u8; 4]
        ensures { result ≡ identity_of self }
    {
        match self {
            Part::Emc2301 => Emc2301::IDENTITY,
            Part::Emc2302 => Emc2302::IDENTITY,
            Part::Emc2303 => Emc2303::IDENTITY,
            Part::Emc2305 => Emc2305::IDENTITY,
        }
    }
}
