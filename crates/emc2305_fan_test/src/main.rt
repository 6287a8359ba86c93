// Runs the commands on standard input over one fan, and writes a line for each. The files stdin and stdout hold the
// commands and the lines, both made by host/expected with a model written from document 01 alone.
#![tactic(auto)]

mod commands;
mod show;

use std::io;
use test_commands::Commands;

// The most bytes of input that are read. They lie in fixed memory, and what comes behind them is left.
const SPACE: usize = 262144;

// Each command acts on the fan that the one before it left.
fn main(rt: HostRuntime) -> io::Result<()> {
    let mut space = [0u8; SPACE];
    let mut fan = commands::fresh();
    for command in Commands(streams::read_full(&mut rt.stdin(), &mut space)) {
        fan = commands::act(&rt, fan, command)?;
    }
    Ok(())
}
