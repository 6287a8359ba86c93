// One output of the EMC2300: ramp, settling, spin-up, tick (docs/EMC2300.md). Its registers and what they ask for are handed in.
#![tactic(auto)]

mod ramp;
mod settling;
mod ticks;

use emc2300_duty::{Asked, Registers};
pub use ramp::rate;
pub use settling::spin_length;

// What an output goes by: its registers, and what they and the zones ask for.
#[derive(Clone, Copy, Debug, PartialEq, Eq)]
pub struct Request {
    pub registers: Registers,
    pub asked: Asked,
}

// The state of one output. A struct and no enum of spin-up and not: the promises and the tests speak of every duty, clock and left
// together (`RampTicks`, `SpinTicks`).
#[derive(Clone, Copy, Debug, PartialEq, Eq)]
pub struct Output {
    // 0 in a spin-up.
    pub duty: u8,
    // Ticks that the ramp clock has counted.
    pub clock: u8,
    // Ticks left of a spin-up; 0 out of one.
    pub left: u16,
}
