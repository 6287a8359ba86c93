// The text of a report: a line a fan, and the last line.
ghost use Rattle.std.specs.Prelude.{◌≡◌, length};
ghost use Rattle.laws.specs.Buffer.{laid_over};
ghost use Rattle.text.specs.Whole.{piece_of, laid_whole};
ghost use Rattle.reports.specs.Lines.{fan_lines, report_text};

use crate::Figures;

// No report is longer: a number has 20 digits at most, a fan's line six of them, the last line two and a word.
const LONGEST: usize = 677;

// Lays the text of a report at the front of a buffer where it fits, or nothing: whole lines are laid apart, in fixed memory, and copied once all fit.
// The number is any u8, as those of `text` are.
pub fn lay(fans: [Figures; 5], place: u64, number: u8, out: &mut [u8]) -> Option<usize>
    ensures { (result ≡ piece_of (report_text fans place number) (length out.old)) × (out.new ≡ laid_whole (report_text fans place number) out.old) }
{
    let mut lines = [0u8; LONGEST];
    let len = lay_all(fans, place, number, &mut lines)?;
    if out.len() < len {
        return None;
    }
    out[..len].copy_from_slice(&lines[..len]);
    Some(len)
}

// Lays all of it where there is room for the longest.
fn lay_all(fans: [Figures; 5], place: u64, number: u8, out: &mut [u8]) -> Option<usize>
    requires { length out.old ≡ 677 }
    ensures { (result ≡ Some (length (report_text fans place number))) × (out.new ≡ laid_over (report_text fans place number) out.old) }
{
    let at = lay_fans(fans, out)?;
    let last = text::report_end(place, number, &mut out[at..])?;
    Some(at + last)
}

// The lines of the fans.
fn lay_fans(fans: [Figures; 5], out: &mut [u8]) -> Option<usize>
    requires { length out.old ≡ 677 }
    ensures { (result ≡ Some (length (fan_lines 5 fans))) × (out.new ≡ laid_over (fan_lines 5 fans) out.old) }
{
    let mut at = 0;
    for (i, figures) in fans.iter().enumerate() {
        let row = figures.row();
        let line = text::row(i as u64 + 1, &row, &mut out[at..])?;
        at += line;
    }
    Some(at)
}
