// Bytes and words as the programs write them.
ghost use Rattle.std.specs.Prelude.{◌≡◌, true, false, length, Some};
ghost use Rattle.test_commands.specs.Shown.{hex_text};

use std::fmt;

// Two hexadecimal digits a byte, or '-' where there is none.
#[derive(Clone, Copy)]
pub struct Hex<'a>(pub &'a [u8]);

impl fmt::Display for Hex<'_> {
    ghost output = { λ hex. Some (hex_text hex.0.now) };

    fn fmt<W: fmt::Write>(&self, f: &mut fmt::Formatter<W>) -> fmt::Result {
        if self.0.is_empty() {
            return f.write_str("-");
        }
        for &byte in self.0 {
            write!(f, "{byte:02x}")?;
        }
        Ok(())
    }
}

// A word where something holds, else none.
pub fn word_if(holds: bool, word: &str) -> &str
    ensures held { holds ≡ true → result.now ≡ word.now }
    ensures not_held { holds ≡ false → length result.now ≡ 0 }
{
    if holds { word } else { "" }
}
