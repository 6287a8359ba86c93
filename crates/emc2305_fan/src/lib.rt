// One fan of the EMC2305 (document 01: 'Registers', 'Drive', 'Spin-up', 'Tach and watchdog').
#![tactic(auto)]

mod drive;
mod registers;
mod spin_up;
mod status;
mod stored;
mod tables;
mod tach;

pub use ramps::update as ramp_update;
pub use registers::is_locked;

// The offsets of a fan's registers that a rule names.
const SETTING: usize = 0x0;

const CONFIGURATION_1: usize = 0x2;

const CONFIGURATION_2: usize = 0x3;

const SPIN_UP: usize = 0x6;

const MAX_STEP: usize = 0x7;

const MINIMUM_DRIVE: usize = 0x8;

const VALID_COUNT: usize = 0x9;

const TARGET_HIGH: usize = 0xD;

const READING_HIGH: usize = 0xE;

const READING_LOW: usize = 0xF;

// How many offsets there are.
const OFFSETS: usize = 0x10;

// Weights of the bits that a rule names: Configuration 1 bit 7, Configuration 2 bit 6, Spin Up bit 5.
const LOOP: u8 = 0x80;

const RAMP: u8 = 0x40;

const NO_KICK: u8 = 0x20;

// The target high byte that turns the driver off.
const DRIVER_OFF: u8 = 0xFF;

// A spin-up. Power-on and the end of one leave all of it 0. Whether one runs is a flag, and no Option of the rest: the test program emc2305_fan_test sets and
// shows states in which none runs and the rest is not 0 (its command l).
#[derive(Clone, Copy, Debug, Default, PartialEq, Eq)]
pub struct SpinUp {
    pub running: bool,
    // Ticks so far.
    pub ticks: u8,
    // Length, kick and level are fixed at the start. Kick: the first quarter is at 255.
    pub length: u8,
    pub kick: bool,
    pub level: u8,
}

// The two status bits of a fan: that of 25h and that of 26h.
#[derive(Clone, Copy, Debug, PartialEq, Eq)]
pub enum Bit {
    Stall,
    Spin,
}

// The state of one fan.
#[derive(Clone, Copy, Debug, PartialEq, Eq)]
pub struct Fan {
    // By offset. Setting holds what was stored there; a read of it shows the drive.
    pub registers: [u8; 16],
    pub drive: u8,
    pub wish: u8,
    // Ticks that the update clock has counted.
    pub clock: u8,
    pub spin: SpinUp,
    // The fan's bit of 25h.
    pub stalled: bool,
    // The fan's bit of 26h.
    pub failed: bool,
}

// What data bytes leave of a fan.
#[derive(Clone, Copy, Debug, PartialEq, Eq)]
pub struct Written {
    pub fan: Fan,
    // Whether a byte programmed it, which ends the power-up watch.
    pub programmed: bool,
    // How many bytes were for this fan, stored or not: as many as it has registers from the first offset on.
    pub count: usize,
}
