// The commands: each takes the fan and its bytes, writes what it did, and hands the fan back.
use crate::show;
use crate::show::State;
use emc2305_fan::{Bit, Fan, SpinUp};
use emc2305_parts::Part;
use std::fmt::Display;
use std::{array, io};
use test_commands::{Command, word_if};

// One command: its letter and its bytes.
pub fn act(rt: &impl Print, fan: Fan, command: Command<'_>) -> io::Result<Fan> {
    match command.which {
        b'r' => told(rt, "reset", fresh()),
        b'l' => told(rt, "load", loaded(command)),
        b'w' => write(rt, fan, command.place(0), command.byte(1)),
        b'b' => block(rt, fan, command),
        b't' => ticks(rt, fan, command.byte(0)),
        b'e' => each_tick(rt, fan, command.byte(0)),
        b's' => sample(rt, fan, command.word(0), command.byte(2) != 0),
        b'v' => wish(rt, fan, command.byte(0)),
        b'd' => told(rt, "watchdog", fan.fired()),
        b'c' => bit_read(rt, fan, command.byte(0) != 0),
        _ => tell(rt, fan, command),
    }
}

// The commands that leave the fan as it is.
fn tell(rt: &impl Print, fan: Fan, command: Command<'_>) -> io::Result<Fan> {
    match command.which {
        b'#' => show::title(rt, command.bytes)?,
        b'a' => show::registers(rt, fan)?,
        b'o' => show::offsets(rt, fan)?,
        b'm' => ramp(rt, command.byte(0), command.byte(1), command.byte(2))?,
        _ => println!(rt; "?")?,
    }
    Ok(fan)
}

// A fan of the five-fan part at power-on.
pub fn fresh() -> Fan {
    let reset = Part::Emc2305.reset();
    Fan::power_on(reset.fan)
}

// A line: what was done, and the state after it.
fn told<D: Display + Drop>(rt: &impl Print, did: D, fan: Fan) -> io::Result<Fan> {
    println!(rt; "{did}{}", State(fan))?;
    Ok(fan)
}

// A state set whole, also one that no run reaches: the registers, then the other fields in their order.
fn loaded(command: Command<'_>) -> Fan {
    let spin = SpinUp {
        running: command.byte(19) != 0,
        ticks: command.byte(20),
        length: command.byte(21),
        kick: command.byte(22) != 0,
        level: command.byte(23),
    };
    let registers = array::from_fn(|k| command.byte(k));
    Fan {
        registers,
        drive: command.byte(16),
        wish: command.byte(17),
        clock: command.byte(18),
        spin,
        stalled: command.byte(24) != 0,
        failed: command.byte(25) != 0,
    }
}

// A write, and whether the offset stores.
fn write(rt: &impl Print, fan: Fan, offset: usize, byte: u8) -> io::Result<Fan> {
    let next = fan.write(offset, &[byte], false).fan;
    let word = if fan.stores(offset) {
        "stored"
    } else {
        "not stored"
    };
    told(rt, format_args!("write {offset} {byte:02X} {word}"), next)
}

// Data bytes in turn: the first offset, whether the lock is on, then the bytes.
fn block(rt: &impl Print, fan: Fan, command: Command<'_>) -> io::Result<Fan> {
    let first = command.place(0);
    let locked = command.byte(1) != 0;
    let bytes = command.bytes.get(2..).unwrap_or(command.bytes);
    let written = fan.write(first, bytes, locked);
    let count = written.count;
    let lock = word_if(locked, " locked");
    let program = word_if(written.programmed, " programmed");
    let did = format_args!("block {first} takes {count}{lock}{program}");
    told(rt, did, written.fan)
}

// Some ticks, and the state after them.
fn ticks(rt: &impl Print, fan: Fan, count: u8) -> io::Result<Fan> {
    let next = (0..count).fold(fan, |fan, _| fan.tick());
    told(rt, format_args!("ticks {count}"), next)
}

// Some ticks, and the state after each.
fn each_tick(rt: &impl Print, fan: Fan, count: u8) -> io::Result<Fan> {
    (0..count).try_fold(fan, |fan, _| told(rt, "tick", fan.tick()))
}

fn sample(rt: &impl Print, fan: Fan, count: u16, power_up_watch: bool) -> io::Result<Fan> {
    let watch = word_if(power_up_watch, " watch");
    let next = fan.sample(count, power_up_watch);
    told(rt, format_args!("sample {count}{watch}"), next)
}

fn wish(rt: &impl Print, fan: Fan, drive: u8) -> io::Result<Fan> {
    told(rt, format_args!("wish {drive}"), fan.wish(drive))
}

// A read of 25h, or of 26h.
fn bit_read(rt: &impl Print, fan: Fan, of_spin: bool) -> io::Result<Fan> {
    if of_spin {
        told(rt, "read 26h", fan.bit_read(Bit::Spin))
    } else {
        told(rt, "read 25h", fan.bit_read(Bit::Stall))
    }
}

fn ramp(rt: &impl Print, drive: u8, goal: u8, step: u8) -> io::Result<()> {
    let update = emc2305_fan::ramp_update(drive, goal, step);
    println!(rt; "ramp {drive} to {goal} by {step}: {update}")
}
