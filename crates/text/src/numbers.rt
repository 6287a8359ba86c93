// Numbers in decimal. By hand and not by Display: the contracts give each byte that is laid, at its place in a lent buffer, with no heap.
ghost use Rattle.std.specs.Prelude.{◌≡◌, ◌≤◌, length};
ghost use Rattle.laws.specs.Buffer.{laid_over};
ghost use Rattle.text.specs.Text.{decimal};

// How many digits a number has: one more than its logarithm; 0, which has none, has one digit.
pub(crate) fn digits(n: u64) -> usize
    ensures counts { result ≡ length (decimal n) }
    ensures few { result ≤ 20 }
{
    n.checked_ilog10().unwrap_or(0) as usize + 1
}

// A number of so many digits, laid from the last one to the first.
pub(crate) fn lay_digits(n: u64, len: usize, out: &mut [u8])
    requires { (len ≡ length (decimal n)) × (len ≤ length out.old) }
    ensures { out.new ≡ laid_over (decimal n) out.old }
{
    let mut rest = n;
    for at in (0..len).rev() {
        out[at] = b'0' + (rest % 10) as u8;
        rest /= 10;
    }
}
