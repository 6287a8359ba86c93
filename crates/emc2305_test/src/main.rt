// Runs the commands on standard input over one chip, and writes a line for each. The files stdin and stdout hold the
// commands and the lines, both made by host/expected with a model written from document 01 and the datasheet's register table alone.
#![tactic(auto)]

mod commands;
mod show;

use std::io;
use test_commands::Commands;

// The most bytes of input that are read. They lie in fixed memory, and what comes behind them is left.
const SPACE: usize = 262144;

// Each command acts on the bench that the one before it left.
fn main(rt: HostRuntime) -> io::Result<()> {
    let mut space = [0u8; SPACE];
    let mut bench = commands::start();
    for command in Commands(streams::read_full(&mut rt.stdin(), &mut space)) {
        bench = commands::act(&rt, bench, command)?;
    }
    Ok(())
}
