// The EMC2305 on its bus: transfers, and the step that takes any event (document 01: 'Registers' and 'Numbers given back').
#![tactic(auto)]

mod steps;
mod transfers;

pub use steps::step;
