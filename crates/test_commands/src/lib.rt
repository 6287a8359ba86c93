// What the test programs share: the commands of an input, what stands in one, and bytes as the programs write them.
#![tactic(auto)]

ghost use Rattle.std.specs.Prelude.{◌≡◌};
ghost use Rattle.test_commands.specs.Fields.{byte_at, word_at, place_of};

mod shown;

pub use shown::{Hex, word_if};

// One command: a byte that says which, and its bytes.
#[derive(Clone, Copy)]
pub struct Command<'a> {
    pub which: u8,
    pub bytes: &'a [u8],
}

// The commands of what is left of an input: each is a byte that says which, a byte n, and n bytes. They end where one is cut short.
#[derive(Drop)]
pub struct Commands<'a>(pub &'a [u8]);

impl<'a> Iterator for Commands<'a> {
    ghost use Rattle.test_commands.specs.Commands.{GivesCommand, bytes_left};

    type Item = Command<'a>;

    ghost next_gives = { GivesCommand };

    ghost remaining = { bytes_left };

    fn next(&mut self) -> Option<Command<'a>> {
        let (&[which, n], rest) = self.0.split_first_chunk::<2>()?;
        let (bytes, rest) = rest.split_at_checked(usize::from(n))?;
        self.0 = rest;
        Some(Command { which, bytes })
    }
}

impl Command<'_> {
    // A byte of the command, 0 where it has fewer.
    pub fn byte(self, k: usize) -> u8
        ensures { result ≡ byte_at self.entry.bytes.now k }
    {
        self.bytes.get(k).copied().unwrap_or(0)
    }

    // Two bytes, the low one first.
    pub fn word(self, k: usize) -> u16
        ensures { result ≡ word_at self.entry.bytes.now k }
    {
        u16::from_le_bytes([self.byte(k), self.byte(k.saturating_add(1))])
    }

    // A place or a length.
    pub fn place(self, k: usize) -> usize
        ensures { result ≡ place_of (byte_at self.entry.bytes.now k) }
    {
        place(self.byte(k))
    }
}

// A place or a length in one byte: up to 127 itself, from 128 on counted down from the largest that there is.
fn place(code: u8) -> usize
    ensures { result ≡ place_of code }
{
    let n = usize::from(code);
    if n < 128 { n } else { usize::MAX - (255 - n) }
}
