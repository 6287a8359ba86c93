// What the lines show: events, bytes of a log, what reading gives.
use eventlog::{Event, Fault, Record};
use std::fmt;
use test_commands::Hex;

// Some bytes of a log, or '?' where they are not wholly within it.
#[derive(Clone, Copy)]
pub struct Part<'a>(pub Option<&'a [u8]>);

impl fmt::Display for Part<'_> {
    fn fmt<W: fmt::Write>(&self, f: &mut fmt::Formatter<W>) -> fmt::Result {
        match self.0 {
            Some(bytes) => write!(f, "{}", Hex(bytes)),
            None => f.write_str("?"),
        }
    }
}

fn within(log: &[u8], place: usize, len: usize) -> Part<'_> {
    Part(log.get(place..).and_then(|rest| rest.get(..len)))
}

// An event, with the log that it points into.
#[derive(Clone, Copy)]
pub struct Shown<'a> {
    pub event: Event,
    pub log: &'a [u8],
}

impl fmt::Display for Shown<'_> {
    fn fmt<W: fmt::Write>(&self, f: &mut fmt::Formatter<W>) -> fmt::Result {
        match self.event {
            Event::PowerOn(address) => write!(f, "power-on {address}"),
            Event::Ticks(count) => write!(f, "ticks {count}"),
            Event::Sample { fan, count } => write!(f, "sample {fan} {count}"),
            Event::Wish { fan, drive } => write!(f, "wish {fan} {drive}"),
            Event::Transfer {
                reads,
                address,
                place,
                len,
            } => {
                let word = if reads { "clock" } else { "send" };
                let bytes = within(self.log, place, len);
                write!(f, "{word} {address} at {place} len {len} {bytes}")
            }
            Event::PowerOnPart { address, fans } => write!(f, "part-on {address} {fans}"),
        }
    }
}

// A refusal of reading: its number and the place of the first faulty byte.
#[derive(Clone, Copy)]
pub struct Refused(pub Fault);

impl fmt::Display for Refused {
    fn fmt<W: fmt::Write>(&self, f: &mut fmt::Formatter<W>) -> fmt::Result {
        let number = u8::from(self.0.refusal);
        let place = self.0.place;
        write!(f, "{number}@{place}")
    }
}

// What reading a log gave: 0 with the place after the record and its event, 'end', or the refusal.
#[derive(Clone, Copy)]
pub struct Given<'a> {
    pub reading: Result<Option<Record>, Fault>,
    pub log: &'a [u8],
}

impl fmt::Display for Given<'_> {
    fn fmt<W: fmt::Write>(&self, f: &mut fmt::Formatter<W>) -> fmt::Result {
        match self.reading {
            Ok(Some(Record { event, next })) => {
                let log = self.log;
                write!(f, "0 next {next} {}", Shown { event, log })
            }
            Ok(None) => f.write_str("end"),
            Err(fault) => write!(f, "{}", Refused(fault)),
        }
    }
}

// What reading gives at a place.
pub fn read_at(log: &[u8], place: usize) -> Given<'_> {
    Given {
        reading: eventlog::read(log, place),
        log,
    }
}
