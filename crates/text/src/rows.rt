// What follows the first number of a row: numbers, each behind a space, and the line's end.
ghost use Rattle.std.specs.Prelude.{◌≡◌, ◌∷◌, ◌≤◌, leb, length};
ghost use Rattle.laws.specs.Buffer.{laid_over};
ghost use Rattle.text.specs.Text.{decimal, row_rest};

use crate::numbers;

// Whether it fits so much room. What is left of the room is counted down: a sum of the widths could overflow.
pub(crate) fn fits(rest: &[u64], room: usize) -> bool
    ensures { result ≡ leb (length (row_rest rest.now)) room }
{
    let mut left = room;
    for n in rest {
        let width = numbers::digits(*n);
        if left <= width {
            return false;
        }
        left -= width + 1;
    }
    0 < left
}

// Lays it. Answers how many bytes were laid.
pub(crate) fn lay(rest: &[u64], out: &mut [u8]) -> usize
    requires { length (row_rest rest.now) ≤ length out.old }
    ensures { (result ≡ length (row_rest rest.now)) × (out.new ≡ laid_over (row_rest rest.now) out.old) }
{
    let mut at = 0;
    for n in rest {
        at += lay_next(*n, &mut out[at..]);
    }
    out[at] = b'\n';
    at + 1
}

// Lays a space and a number. Answers how many bytes were laid.
fn lay_next(n: u64, out: &mut [u8]) -> usize
    requires { length (0x20 ∷ decimal n) ≤ length out.old }
    ensures { (result ≡ length (0x20 ∷ decimal n)) × (out.new ≡ laid_over (0x20 ∷ decimal n) out.old) }
{
    let width = numbers::digits(n);
    out[0] = b' ';
    numbers::lay_digits(n, width, &mut out[1..]);
    width + 1
}
