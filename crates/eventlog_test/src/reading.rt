// Cases of reading: at a place, every prefix of a log, every value of one byte of it, and a record read and written again.
use crate::show::{Part, Refused, read_at};
use eventlog::Fault;
use std::io;
use test_commands::{Command, Hex};

// The most bytes that a log of `vary` has.
const SPACE: usize = 64;

// The place, then the log.
pub fn at_place(rt: &impl Print, case: Command<'_>) -> io::Result<()> {
    let [_, log @ ..] = case.bytes else {
        return Ok(());
    };
    let place = case.place(0);
    print!(rt; "read {} at {place}: {}", Hex(log), read_at(log, place))
}

// What is given of every prefix, the empty one first.
pub fn cut(rt: &impl Print, log: &[u8]) -> io::Result<()> {
    print!(rt; "cut {}:", Hex(log))?;
    for len in 0..=log.len() {
        print!(rt; " ")?;
        show_found(rt, found_at_start(&log[..len]))?;
    }
    Ok(())
}

// What reading gives but for the event: whether there is a record.
fn found_at_start(log: &[u8]) -> Result<bool, Fault> {
    eventlog::read(log, 0).map(|found| found.is_some())
}

fn show_found(rt: &impl Print, found: Result<bool, Fault>) -> io::Result<()> {
    match found {
        Ok(true) => print!(rt; "0"),
        Ok(false) => print!(rt; "end"),
        Err(fault) => print!(rt; "{}", Refused(fault)),
    }
}

// Which byte, then the log: 'value=number@place' where number or place are not those of the value before.
pub fn vary(rt: &impl Print, case: Command<'_>) -> io::Result<()> {
    let [_, log @ ..] = case.bytes else {
        return Ok(());
    };
    let at = case.place(0);
    print!(rt; "vary {} byte {at}:", Hex(log))?;
    if log.len() <= SPACE {
        let mut space = [0; SPACE];
        space[..log.len()].copy_from_slice(log);
        vary_byte(rt, &mut space[..log.len()], at)?;
    }
    Ok(())
}

fn vary_byte(rt: &impl Print, log: &mut [u8], at: usize) -> io::Result<()> {
    if log.len() <= at {
        return Ok(());
    }
    let mut last = Ok(false);
    for value in 0..=255u8 {
        log[at] = value;
        let found = found_at_start(log);
        if found != last {
            print!(rt; " {value}=")?;
            show_found(rt, found)?;
        }
        last = found;
    }
    Ok(())
}

// A good record is read, and the event is written: the same bytes.
pub fn again(rt: &impl Print, record: &[u8]) -> io::Result<()> {
    print!(rt; "again {}", read_at(record, 0))?;
    let Ok(Some(found)) = eventlog::read(record, 0) else {
        return Ok(());
    };
    let mut space = [0; 40];
    let Ok(len) = eventlog::write(found.event, record, &mut space) else {
        return Ok(());
    };
    print!(rt; " laid {len} {}", Part(space.get(..len)))
}
