// The commands: each takes the state and its bytes, writes what it did, and hands the state back.
use crate::fields::Bench;
use crate::show::State;
use crate::{fields, show};
use std::fmt::Display;
use std::io;
use test_commands::{Command, word_if};

// The ramp's field, a write to which clears the clock.
const RAMP: usize = 4;

// One command: its letter and its bytes.
pub fn act(rt: &impl Print, bench: Bench, command: Command<'_>) -> io::Result<Bench> {
    match command.which {
        b'r' => told(rt, "reset", fields::fresh()),
        b'l' => told(rt, "load", fields::loaded(command)),
        b'w' => write(rt, bench, command.byte(0), command.byte(1)),
        b's' => told(rt, "settle", settled(bench)),
        b'x' => told(rt, "spun", spun_up(bench)),
        b't' => ticks(rt, bench, command.word(0)),
        b'e' => each_tick(rt, bench, command.byte(0)),
        _ => tell(rt, bench, command),
    }
}

// The commands that leave the state as it is.
fn tell(rt: &impl Print, bench: Bench, command: Command<'_>) -> io::Result<Bench> {
    match command.which {
        b'#' => show::title(rt, command.bytes)?,
        b'z' => show::zones(rt, bench)?,
        _ => println!(rt; "?")?,
    }
    Ok(bench)
}

// A line: what was done, and the state after it.
fn told<D: Display + Drop>(rt: &impl Print, did: D, bench: Bench) -> io::Result<Bench> {
    println!(rt; "{did}{}", State(bench))?;
    Ok(bench)
}

fn settled(bench: Bench) -> Bench {
    let output = bench.output;
    bench.with_output(output.settle(bench.request()))
}

fn spun_up(bench: Bench) -> Bench {
    let output = bench.output;
    bench.with_output(output.spun_up(bench.asked()))
}

// A stored write to a field, or a kept temperature: the clock's rule, then the output settles.
fn write(rt: &impl Print, bench: Bench, field: u8, byte: u8) -> io::Result<Bench> {
    let next = settled(stored(bench, usize::from(field), byte));
    told(rt, format_args!("write {field} {byte:02X}"), next)
}

fn stored(mut bench: Bench, field: usize, byte: u8) -> Bench {
    if field < bench.fields.len() {
        bench.fields[field] = byte;
    }
    if field == RAMP {
        let output = bench.output;
        return bench.with_output(output.clock_cleared());
    }
    bench
}

// Some ticks at once, and whether a spin-up's last is among them.
fn ticks(rt: &impl Print, bench: Bench, count: u16) -> io::Result<Bench> {
    let output = bench.output;
    let last = word_if(output.last_within(count), " last");
    let next = bench.with_output(output.ticks(bench.request(), count));
    told(rt, format_args!("ticks {count}{last}"), next)
}

// Some ticks, and the state after each.
fn each_tick(rt: &impl Print, bench: Bench, count: u8) -> io::Result<Bench> {
    (0..count).try_fold(bench, |bench, _| tick(rt, bench))
}

fn tick(rt: &impl Print, bench: Bench) -> io::Result<Bench> {
    let output = bench.output;
    let last = word_if(output.last_within(1), " last");
    let next = bench.with_output(output.tick(bench.request()));
    told(rt, format_args!("tick{last}"), next)
}
