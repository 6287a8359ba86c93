// Lists the log on standard input, or in the file that the one argument names: a line for each record, and a last one (document 01, 'Numbers given back').
#![tactic(auto)]

ghost use Rattle.windows.specs.Teller.{tells_of};
ghost use Rattle.emc2305_listing.specs.Lines.{lines};

use emc2305_chip::Chip;
use std::io::{Read, Write};
use std::{fs, io, str};
use streams::{Asks, Failure, Named, Teller};
use windows::Told;

// The system's numbers of two errors: a name is too long, or is no text, and std opens a file by a text alone.
const NAME_TOO_LONG: i32 = 36;

const NAME_IS_NO_TEXT: i32 = 84;

fn main(rt: HostRuntime) {
    // Fixed memory: the system takes no longer name.
    let mut name = [0u8; 4096];
    if let Err(failure) = run(&rt, &mut name) {
        let _ = failure.say(&mut rt.stderr());
    }
}

// Does what the arguments ask for. A file's name stands in the buffer.
fn run<'a>(rt: &HostRuntime, name: &'a mut [u8]) -> Result<(), Failure<'a>> {
    match streams::read_arguments(rt, name) {
        Asks::Nothing => list(rt, rt.stdin(), b"emc2305_replay: standard input"),
        Asks::Help => usage(&mut rt.stdout(), b"emc2305_replay: standard output"),
        Asks::One(len) => list_file(rt, &name[..len]),
        // The message has the name's first bytes.
        Asks::Long => Err(refused(name, NAME_TOO_LONG)),
        Asks::Many => usage(&mut rt.stderr(), b"emc2305_replay: standard error"),
    }
}

// Says how the program is called and what it does, on an output that messages call so. Each program has its own text.
fn usage<'a, W: Write>(output: &mut W, what: &'a [u8]) -> Result<(), Failure<'a>> {
    let text = b"usage: emc2305_replay        lists the log on standard input
       emc2305_replay FILE   lists the log in a file
A line for each record: its place, its number and the bytes that the EMC2305 answers; then `end PLACE` or `stop PLACE`.
docs/LOG.md describes the log and the lines.
";
    streams::write_out(output, text).map_err(|error| Failure { what, error })
}

// Why a file is not listed, by the system's number.
fn refused(what: &[u8], number: i32) -> Failure<'_> {
    Failure {
        what,
        error: io::Error::from_raw_os_error(number),
    }
}

// Lists the log in a file. What goes wrong with it is said with its name.
fn list_file<'a>(rt: &HostRuntime, name: &'a [u8]) -> Result<(), Failure<'a>> {
    let path = str::from_utf8(name).map_err(|_| refused(name, NAME_IS_NO_TEXT))?;
    let input = fs::open(rt, path).map_err(|error| Failure { what: name, error })?;
    list(rt, input, name)
}

// Lists the log that comes from an open file, which messages call so.
fn list<'a, R: Read + Drop>(
    rt: &HostRuntime,
    stream: R,
    what: &'a [u8],
) -> Result<(), Failure<'a>> {
    let mut output = Named {
        stream: rt.stdout(),
        what: b"emc2305_replay: standard output",
    };
    // Fixed memory: DECISIONS 72.
    let mut window = [0u8; 65536];
    let mut out = [0u8; 65536];
    streams::tell_all(
        &Listing,
        Chip::unpowered(),
        &mut Named { stream, what },
        &mut output,
        &mut window,
        &mut out,
    )
}

// The teller of a listing. What it keeps is the chip.
#[derive(Clone, Copy)]
struct Listing;

impl Teller for Listing {
    type State = Chip;

    ghost tells = { λ _. tells_of lines };

    fn tell(
        &self,
        chip: Chip,
        place: u64,
        window: &[u8],
        ended: bool,
        out: &mut [u8],
    ) -> Told<Chip> {
        emc2305_listing::list(chip, place, window, ended, out)
    }
}
