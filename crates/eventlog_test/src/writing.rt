// Cases of writing: an event over a log into a buffer, and what was laid read back.
use crate::show::{Shown, read_at};
use eventlog::{Event, Kind};
use std::io;
use test_commands::{Command, Hex};

// What stands in the buffer before the writer is called, and how long it can be.
const FILL: u8 = 0xEE;

const SPACE: usize = 40;

// Stands for the kind of a transfer that reads; none of the kinds, and a byte of the cases.
const READS: u8 = 13;

// How many bytes of a case stand before the log: the room, then the event's six.
const HEAD: usize = 7;

// The room, the event, then the log that it points into. The whole buffer is shown, after a refusal too.
pub fn lay(rt: &impl Print, case: Command<'_>) -> io::Result<()> {
    let Some((_, log)) = case.bytes.split_at_checked(HEAD) else {
        return Ok(());
    };
    let room = case.place(0);
    let event = event_of(case);
    let range = eventlog::check_range(event, log).err().map_or(0, u8::from);
    print!(rt; "write {} room {room}: range {range}", Shown { event, log })?;
    if room <= SPACE {
        let mut space = [FILL; SPACE];
        lay_over(rt, event, log, &mut space[..room])?;
    }
    Ok(())
}

// Kind (READS: a transfer that reads), a small field, a count in two bytes, a place, a length.
fn event_of(case: Command<'_>) -> Event {
    let kind = case.byte(1);
    let small = case.byte(2);
    match Kind::try_from(kind) {
        Ok(Kind::PowerOn) => Event::PowerOn(small),
        Ok(Kind::Ticks) => Event::Ticks(case.word(3)),
        Ok(Kind::Sample) => Event::Sample {
            fan: small,
            count: case.word(3),
        },
        Ok(Kind::Wish) => Event::Wish {
            fan: small,
            drive: case.byte(3),
        },
        Ok(Kind::PowerOnPart) => Event::PowerOnPart {
            address: small,
            fans: case.byte(3),
        },
        Ok(Kind::Transfer) | Err(_) => Event::Transfer {
            reads: kind == READS,
            address: small,
            place: case.place(5),
            len: case.place(6),
        },
    }
}

fn lay_over(rt: &impl Print, event: Event, log: &[u8], out: &mut [u8]) -> io::Result<()> {
    match eventlog::write(event, log, out) {
        Ok(len) => print!(rt; " laid {len} {} back {}", Hex(out), read_at(out, 0)),
        Err(refusal) => print!(rt; " refused {} {}", u8::from(refusal), Hex(out)),
    }
}
