// What an output of the EMC2300 is asked for (docs/EMC2300.md, 'Duty').
#![tactic(auto)]

mod outputs;
mod zones;

// A zone: its latest temperature, and its registers 5Fh+ (range in bits 7..4), 67h+ and 6Ah+. Temperatures and limits are signed bytes,
// kept as they are stored, and no i8: the definitions and the examples say them so (`above_least`, `SignedBytes`).
#[derive(Clone, Copy, Debug, PartialEq, Eq)]
pub struct Zone {
    pub temperature: u8,
    pub configuration: u8,
    pub low: u8,
    pub absolute: u8,
}

// An output's registers: 30h+ as it was stored, 5Ch+, its half of 62h or 63h (bit 3 enable, 2..0 rate), 64h+, 94h+.
#[derive(Clone, Copy, Debug, PartialEq, Eq)]
pub struct Registers {
    pub setting: u8,
    pub configuration: u8,
    pub ramp: u8,
    pub minimum: u8,
    pub options: u8,
}

// What an output is asked for.
#[derive(Clone, Copy, Debug, PartialEq, Eq)]
pub enum Asked {
    Full,
    Off,
    Duty(u8),
}
