// What the lines show: events, the state of a chip, its registers.
use emc2305_chip::Chip;
use emc2305_watchdog::Watch;
use eventlog::Event;
use std::{fmt, io};
use test_commands::{Hex, word_if};

// The sum is a remainder by this prime; each byte counts one more power of the factor.
const PRIME: u64 = 65521;

const FACTOR: u64 = 257;

// A line of words, which need not be text: so no format prints them. Each program has its own, since a library that they share may not print.
pub fn title(rt: &impl Print, words: &[u8]) -> io::Result<()> {
    print!(rt; "# ")?;
    rt.write_all(words)?;
    println!(rt)
}

// An event, a transfer with the whole log that was lent: not as eventlog_test writes it, which shows the transfer's bytes.
#[derive(Clone, Copy)]
pub struct Shown<'a> {
    pub event: Event,
    pub log: &'a [u8],
}

impl fmt::Display for Shown<'_> {
    fn fmt<W: fmt::Write>(&self, f: &mut fmt::Formatter<W>) -> fmt::Result {
        match self.event {
            Event::PowerOn(address) => write!(f, "power-on {address}"),
            Event::Ticks(count) => write!(f, "ticks {count}"),
            Event::Sample { fan, count } => write!(f, "sample {fan} {count}"),
            Event::Wish { fan, drive } => write!(f, "wish {fan} {drive}"),
            Event::Transfer {
                reads,
                address,
                place,
                len,
            } => {
                let word = if reads { "clock" } else { "send" };
                write!(f, "{word} {address} {place} {len} {}", Hex(self.log))
            }
            Event::PowerOnPart { address, fans } => write!(f, "part-on {address} {fans}"),
        }
    }
}

// The rest of a line: pointer, watch, drives, the sum of all that is seen, the alert line.
#[derive(Clone, Copy)]
pub struct State(pub Chip);

impl fmt::Display for State {
    fn fmt<W: fmt::Write>(&self, f: &mut fmt::Formatter<W>) -> fmt::Result {
        let chip = self.0;
        if !chip.powered {
            return f.write_str(", unpowered");
        }
        write!(f, ", {:02x}{},", chip.pointer, Running(chip.watch))?;
        for fan in chip.fans {
            write!(f, " {}", fan.drive)?;
        }
        write!(f, ", {}{}", sum(chip), word_if(chip.alert(), " alert"))
    }
}

// The watch, behind a space.
#[derive(Clone, Copy)]
struct Running(Watch);

impl fmt::Display for Running {
    fn fmt<W: fmt::Write>(&self, f: &mut fmt::Formatter<W>) -> fmt::Result {
        match self.0 {
            Watch::Off => f.write_str(" off"),
            Watch::PowerUp(count) => write!(f, " power-up {count}"),
            Watch::Continuous(count) => write!(f, " continuous {count}"),
        }
    }
}

// The sum of every register, then of each fan's wish and update clock.
fn sum(chip: Chip) -> u64 {
    let registers = (0..=255u8).fold(0, |sum, address| add(sum, chip.register(address)));
    let fans = chip.fans;
    fans.iter()
        .fold(registers, |sum, fan| add(add(sum, fan.wish), fan.clock))
}

fn add(sum: u64, byte: u8) -> u64 {
    (sum % PRIME * FACTOR + u64::from(byte)) % PRIME
}

// Every register, sixteen to a line.
pub fn registers(rt: &impl Print, chip: Chip) -> io::Result<()> {
    for address in 0..=255u8 {
        let end = if address % 16 == 15 { "\n" } else { " " };
        print!(rt; "{:02x}{end}", chip.register(address))?;
    }
    Ok(())
}
