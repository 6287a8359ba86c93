// Reports the speeds of the fans over the log on standard input: a line for each fan, and a last one (document 02, CR 2). The poles are its one argument.
#![tactic(auto)]

ghost use Rattle.std.specs.Prelude.{◌≡◌};
ghost use Rattle.windows.specs.Teller.{tells_of};
ghost use Rattle.reports.specs.Adding.{report};
ghost use Rattle.emc2305_report.specs.Speeds.{gauge};
ghost use Rattle.emc2305_speeds.specs.Arguments.{poles_of, poles_in};

use emc2305_chip::Chip;
use emc2305_report::no_fans;
use eventlog::Refusal;
use reports::Reported;
use std::io::Write;
use streams::{Asks, Failure, Named, Teller};
use windows::Told;

// What messages call the output.
const OUTPUT: &[u8] = b"emc2305_speeds: standard output";

fn main(rt: HostRuntime) {
    let mut word = [0u8; 4096];
    if let Err(failure) = run(&rt, &mut word) {
        let _ = failure.say(&mut rt.stderr());
    }
}

// Does what the arguments ask for. The word for the poles stands in the buffer.
fn run(rt: &HostRuntime, word: &mut [u8]) -> Result<(), Failure<'static>> {
    match streams::read_arguments(rt, word) {
        Asks::Help => usage(&mut rt.stdout(), OUTPUT),
        Asks::One(len) => match poles_of(&word[..len]) {
            Some(poles) => report(rt, poles),
            None => refused(rt),
        },
        Asks::Nothing | Asks::Long | Asks::Many => refused(rt),
    }
}

// Says how the program is called and what it does, on an output that messages call so. Each program has its own text.
fn usage<'a, W: Write>(output: &mut W, what: &'a [u8]) -> Result<(), Failure<'a>> {
    let text =
        b"usage: emc2305_speeds POLES   reports speeds over the log on standard input; POLES is 1, 2, 3 or 4
A line for each fan: its number, its samples, their lowest, highest and total RPM, and its samples with count 0; then
`end PLACE` or `stop PLACE NUMBER`.
docs/LOG.md describes the log and the report.
";
    streams::write_out(output, text).map_err(|error| Failure { what, error })
}

// The poles that an argument says: one of the texts 1, 2, 3 and 4. Any other text says none. No parse, which would take 01 too.
fn poles_of(argument: &[u8]) -> Option<u64>
    ensures { poles_in result ≡ poles_of argument.now }
{
    let [digit] = argument else {
        return None;
    };
    match digit {
        b'1' => Some(1),
        b'2' => Some(2),
        b'3' => Some(3),
        b'4' => Some(4),
        _ => None,
    }
}

// The report where the arguments say no poles, five lines of zeros and `stop 0 13`, and the usage on standard error. Nothing is read.
fn refused(rt: &HostRuntime) -> Result<(), Failure<'static>> {
    let mut out = [0u8; 4096];
    let number = u8::from(Refusal::WrongPoles);
    let len = reports::lay(no_fans(), 0, number, &mut out).unwrap_or(0);
    if let Err(error) = streams::write_out(&mut rt.stdout(), &out[..len]) {
        let _ = Failure {
            what: OUTPUT,
            error,
        }
        .say(&mut rt.stderr());
    }
    usage(&mut rt.stderr(), b"emc2305_speeds: standard error")
}

// Reports the log on standard input.
fn report(rt: &HostRuntime, poles: u64) -> Result<(), Failure<'static>> {
    let mut input = Named {
        stream: rt.stdin(),
        what: b"emc2305_speeds: standard input",
    };
    let mut output = Named {
        stream: rt.stdout(),
        what: OUTPUT,
    };
    // Fixed memory: DECISIONS 72.
    let mut window = [0u8; 65536];
    let mut out = [0u8; 4096];
    let begun = Reported {
        state: Chip::unpowered(),
        fans: no_fans(),
    };
    streams::tell_all(
        &Speeds { poles },
        begun,
        &mut input,
        &mut output,
        &mut window,
        &mut out,
    )
}

// The teller of a report, with the fans' poles. What it keeps is the chip and the figures.
#[derive(Clone, Copy)]
struct Speeds {
    poles: u64,
}

impl Teller for Speeds {
    type State = Reported<Chip>;

    ghost tells = { λ speeds. tells_of (report (gauge speeds.poles)) };

    fn tell(
        &self,
        reported: Reported<Chip>,
        place: u64,
        window: &[u8],
        ended: bool,
        out: &mut [u8],
    ) -> Told<Reported<Chip>> {
        emc2305_report::tell(self.poles, reported, place, window, ended, out)
    }
}
