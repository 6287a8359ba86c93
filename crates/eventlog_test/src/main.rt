// Runs the cases on standard input over the event log's reader and writer, and writes a line for each. The files stdin
// and stdout hold the cases and the lines, both made by host/expected with a model written from document 01 alone.
#![tactic(auto)]

mod reading;
mod show;
mod writing;

use std::io;
use test_commands::{Command, Commands};

// The most bytes of input that are read. They lie in fixed memory, and what comes behind them is left.
const SPACE: usize = 262144;

fn main(rt: HostRuntime) -> io::Result<()> {
    let mut space = [0u8; SPACE];
    for case in Commands(streams::read_full(&mut rt.stdin(), &mut space)) {
        run_case(&rt, case)?;
    }
    Ok(())
}

fn run_case(rt: &impl Print, case: Command<'_>) -> io::Result<()> {
    match case.which {
        b'r' => reading::at_place(rt, case)?,
        b'c' => reading::cut(rt, case.bytes)?,
        b'v' => reading::vary(rt, case)?,
        b'a' => reading::again(rt, case.bytes)?,
        b'w' => writing::lay(rt, case)?,
        _ => print!(rt; "?")?,
    }
    println!(rt)
}
