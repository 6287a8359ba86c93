// What programs share that read their input as it comes: what a window holds of it, reading on, writing a text whole, and what the arguments ask for.
// What the system gives and takes comes through std's traits, which a clause knows little of: so only programs use it.
#![tactic(auto)]

ghost use Rattle.std.specs.Prelude.{◌≡◌, true, ◌+◌, ◌-◌, ◌≤◌, length, take, IsOk, IsSome, IfOk, OnOk, OnErr};
ghost use Rattle.std.specs.Io.KnownBytes.{Appends, Consumes};
ghost use Rattle.windows.specs.declared.Wants.TheVariants.{Input};
ghost use Rattle.laws.specs.Buffer.{bytes_at};
ghost use Rattle.streams.specs.Served.{begun, going_on, held_of, read_of, Fits, ReadOn, Served};
ghost use Rattle.streams.specs.Said.{Began, SaysOf};
ghost use Rattle.streams.specs.Arguments.{help_word, asks_of, len_of, Asked, IsPrefixLen};

use std::env::{Env, FillError};
use std::io;
use std::io::{ErrorKind, Read, Write};
use windows::Wants;

mod telling;

pub use telling::{Named, Teller, tell_all};

// What a window holds between two calls: window[from..held] is read and not yet used. Then whether the input has ended. Places and no slice, since the
// next read writes to the window.
#[derive(Clone, Copy, Debug, PartialEq, Eq)]
pub struct Held {
    pub from: usize,
    pub held: usize,
    pub ended: bool,
}

// What a program's arguments are: none, `--help` alone, another one alone, with its length in the buffer, one that is longer than that, or several.
// A length and no slice: a buffer that is lent on into the answer has no value after the call, and `IsPrefixLen` and `Asked` say what it holds then.
#[derive(Clone, Copy, Debug, PartialEq, Eq)]
pub enum Asks {
    Nothing,
    Help,
    One(usize),
    Long,
    Many,
}

// What a program could not do: what a message about it begins with, and the error.
#[derive(Drop)]
pub struct Failure<'a> {
    pub what: &'a [u8],
    pub error: io::Error,
}

impl Held {
    // Nothing is held yet.
    pub fn begun() -> Self
        ensures { going_on result true ≡ begun }
    {
        Self {
            from: 0,
            held: 0,
            ended: false,
        }
    }

    // What is held after a call that used so many bytes, or none where it is over: the call wants nothing, or what was held does not fit the window, or
    // was less. It reads on where the call wants input, and goes on where it wants room.
    pub fn served<R: Read>(
        self,
        used: usize,
        wants: Wants,
        input: &mut R,
        window: &mut [u8],
    ) -> io::Result<Option<Self>>
        ensures served { Served (going_on self true) used wants window.old (held_of result (going_on self true) used window.old) window.new }
        ensures failed { OnErr result ((wants ≡ Input) × Fits (going_on self true) used window.old) }
        ensures reads { IfOk result (λ next. wants ≡ Input → Fits (going_on self true) used window.old → IsSome next) }
    {
        let held = self.held;
        if window.len() < held || held < self.from || held - self.from < used {
            return Ok(None);
        }
        let from = self.from + used;
        match wants {
            Wants::Input => Ok(Some(read_on(from, held, input, window)?)),
            Wants::Room => Ok(Some(Self { from, ..self })),
            Wants::Nothing => Ok(None),
        }
    }
}

// Moves what is held to the front of the window and reads once behind it. A read that a signal interrupts gives nothing: the next call asks for it again.
fn read_on<R: Read>(from: usize, held: usize, input: &mut R, window: &mut [u8]) -> io::Result<Held>
    requires { (from ≤ held) × (held ≤ length window.old) }
    ensures { ReadOn (bytes_at window.old from (held - from)) (read_of result (held - from)) window.new }
{
    let rest = held - from;
    window.copy_within(from..held, 0);
    match input.read(&mut window[rest..]) {
        Ok(got) => Ok(Held {
            from: 0,
            held: rest + got,
            ended: got == 0,
        }),
        Err(error) if error.kind() == ErrorKind::Interrupted => Ok(Held {
            from: 0,
            held: rest,
            ended: false,
        }),
        Err(error) => Err(error),
    }
}

// Writes a text whole, or a front of it where a write fails. A write that a signal interrupts is tried again. A proved loop ends, and nothing says that
// signals do: it has more turns than they use up.
pub fn write_out<W: Write>(output: &mut W, text: &[u8]) -> io::Result<()>
    ensures empty { length text.now ≡ 0 → IsOk result }
    ensures whole { OnOk result (Appends (W.contents output.old) (W.contents output.new) text.now) }
    ensures failed { OnErr result (Began (W.contents output.old) (W.contents output.new) text.now) }
{
    let mut done = 0;
    for _ in 0..u64::MAX {
        if done >= text.len() {
            return Ok(());
        }
        match output.write(&text[done..]) {
            Ok(0) => return Err(io::Error::from(ErrorKind::WriteZero)),
            Ok(put) => done += put,
            Err(error) if error.kind() == ErrorKind::Interrupted => {}
            Err(error) => return Err(error),
        }
    }
    Err(io::Error::from(ErrorKind::TimedOut))
}

impl Failure<'_> {
    // Writes a line to the errors: what failed, a colon and the error's text. A part that is not taken keeps no other from being written.
    pub fn say<E: Write>(&self, errors: &mut E) -> io::Result<()>
        ensures { OnOk result (SaysOf (E.contents errors.old) (E.contents errors.new) self.now.what.now) }
    {
        let mut text = [0u8; 256];
        let mut rest = &mut text[..];
        write!(rest, "{}", self.error)?;
        let name = errors.write_all(self.what);
        let colon = errors.write_all(b": ");
        let words = errors.write_all(&text[..words_len(&text)]);
        let end = errors.write_all(b"\n");
        name?;
        colon?;
        words?;
        end?;
        Ok(())
    }
}

// How many bytes of an error's text are the system's words, which its number follows in brackets or zeros.
fn words_len(text: &[u8]) -> usize
    ensures { result ≤ length text.now }
{
    (0..text.len())
        .find(|&k| text[k] == 0 || text[k..].starts_with(b" (os error "))
        .unwrap_or(text.len())
}

// Reads until the space is full, the input ends or a read fails.
pub fn read_full<'a, R: Read>(input: &mut R, space: &'a mut [u8]) -> &'a [u8]
    ensures within { length result.now ≤ length space.old }
    ensures bytes { Consumes (R.remaining input.old) (R.remaining input.new) result.now }
{
    let mut len = 0;
    while len < space.len()
        && let Ok(got @ 1..) = input.read(&mut space[len..])
    {
        len += got;
    }
    &space[..len]
}

// What the program's arguments are. One that stands alone is put at the front of the buffer, or as much of it as fits.
pub fn read_arguments<E: Env>(env: &E, buffer: &mut [u8]) -> Asks
    ensures { IsPrefixLen (len_of result) buffer.new × Asked (asks_of result) (take (len_of result) buffer.new) }
{
    if !matches!(env.arg(2, &mut []), Err(FillError::NotPresent)) {
        return Asks::Many;
    }
    match env.arg(1, buffer) {
        Ok(len) if is_help(&buffer[..len]) => Asks::Help,
        Ok(len) => Asks::One(len),
        Err(FillError::NotPresent) => Asks::Nothing,
        Err(FillError::TooLong) => Asks::Long,
    }
}

// Whether an argument is `--help`.
pub fn is_help(argument: &[u8]) -> bool
    ensures { (result ≡ true → argument.now ≡ help_word) × (argument.now ≡ help_word → result ≡ true) }
{
    argument == b"--help".as_slice()
}
