// The commands: each takes the bench and its bytes, writes what it did, and hands the bench back.
use crate::show;
use crate::show::{Shown, State};
use emc2305_chip::Chip;
use emc2305_watchdog::Watch;
use eventlog::Event;
use std::io;
use test_commands::{Command, Hex};

// The most room that a reply is lent, and what stands there before each step.
const SPACE: usize = 64;

const FILL: u8 = 0xAA;

// How many bytes of a transfer's command stand before the log.
const HEAD: usize = 4;

// A chip, and how much room its replies are lent.
#[derive(Clone, Copy)]
pub struct Bench {
    pub chip: Chip,
    pub room: usize,
}

pub fn start() -> Bench {
    Bench {
        chip: Chip::unpowered(),
        room: 0,
    }
}

// One command: its letter and its bytes.
pub fn act(rt: &impl Print, bench: Bench, command: Command<'_>) -> io::Result<Bench> {
    match command.which {
        b'P' => happen(rt, bench, Event::PowerOn(command.byte(0)), command.bytes),
        b'K' => happen(rt, bench, Event::Ticks(command.word(0)), command.bytes),
        b'S' => happen(rt, bench, sample(command), command.bytes),
        b'W' => happen(rt, bench, wish(command), command.bytes),
        b'X' => transfer(rt, bench, command),
        b'Q' => happen(rt, bench, part(command), command.bytes),
        b'N' => fresh(rt, bench),
        b'B' => lend(rt, bench, command.byte(0)),
        b'V' => watch(rt, bench, command),
        _ => tell(rt, bench, command),
    }
}

// The commands that leave the bench as it is.
fn tell(rt: &impl Print, bench: Bench, command: Command<'_>) -> io::Result<Bench> {
    match command.which {
        b'T' => show::title(rt, command.bytes)?,
        b'D' => show::registers(rt, bench.chip)?,
        _ => println!(rt; "?")?,
    }
    Ok(bench)
}

fn sample(command: Command<'_>) -> Event {
    Event::Sample {
        fan: command.byte(0),
        count: command.word(1),
    }
}

fn wish(command: Command<'_>) -> Event {
    Event::Wish {
        fan: command.byte(0),
        drive: command.byte(1),
    }
}

fn part(command: Command<'_>) -> Event {
    Event::PowerOnPart {
        address: command.byte(0),
        fans: command.byte(1),
    }
}

// Direction, address, place, length, then the log that they point into.
fn transfer(rt: &impl Print, bench: Bench, command: Command<'_>) -> io::Result<Bench> {
    let Some((_, log)) = command.bytes.split_at_checked(HEAD) else {
        return Ok(bench);
    };
    let event = Event::Transfer {
        reads: command.byte(0) != 0,
        address: command.byte(1),
        place: command.place(2),
        len: command.place(3),
    };
    happen(rt, bench, event, log)
}

// One step over a freshly filled buffer, all of which is shown, after a refusal too.
fn happen(rt: &impl Print, bench: Bench, event: Event, log: &[u8]) -> io::Result<Bench> {
    let room = bench.room;
    if room > SPACE {
        return Ok(bench);
    }
    let mut space = [FILL; SPACE];
    let chip = step(rt, bench.chip, event, log, &mut space[..room])?;
    Ok(Bench { chip, room })
}

fn step(
    rt: &impl Print,
    chip: Chip,
    event: Event,
    log: &[u8],
    reply: &mut [u8],
) -> io::Result<Chip> {
    let (number, laid, chip) = match emc2305::step(chip, log, event, reply) {
        Ok(taken) => (0, taken.laid, taken.state),
        Err(refusal) => (u8::from(refusal), 0, chip),
    };
    let told = Shown { event, log };
    println!(rt; "{told}: {number} {laid} {}{}", Hex(reply), State(chip))?;
    Ok(chip)
}

fn fresh(rt: &impl Print, bench: Bench) -> io::Result<Bench> {
    println!(rt; "new")?;
    Ok(Bench {
        chip: Chip::unpowered(),
        ..bench
    })
}

fn lend(rt: &impl Print, bench: Bench, room: u8) -> io::Result<Bench> {
    println!(rt; "room {room}")?;
    Ok(Bench {
        room: usize::from(room),
        ..bench
    })
}

// Sets the watch alone, also to one that no run reaches, by a number of the cases' own.
fn watch(rt: &impl Print, bench: Bench, command: Command<'_>) -> io::Result<Bench> {
    let watch = match command.byte(0) {
        1 => Watch::PowerUp(command.word(1)),
        2 => Watch::Continuous(command.word(1)),
        _ => Watch::Off,
    };
    let chip = Chip {
        watch,
        ..bench.chip
    };
    println!(rt; "watch{}", State(chip))?;
    Ok(Bench { chip, ..bench })
}
