// Bytes in hex, by hand as numbers are (numbers.rt).
ghost use Rattle.std.specs.Prelude.{◌≡◌, ◌*◌, ◌≤◌, length};
ghost use Rattle.laws.specs.Buffer.{laid_over};
ghost use Rattle.text.specs.Text.{hex_digit, hex_byte, hex_bytes};

// Each byte as a space and two capital hex digits. Answers how many bytes were laid.
pub(crate) fn lay_bytes(bytes: &[u8], out: &mut [u8]) -> usize
    requires { 3 * length bytes.now ≤ length out.old }
    ensures { (result ≡ length (hex_bytes bytes.now)) × (out.new ≡ laid_over (hex_bytes bytes.now) out.old) }
{
    for (i, byte) in bytes.iter().enumerate() {
        lay_byte(*byte, &mut out[3 * i..]);
    }
    3 * bytes.len()
}

// A space and two capital hex digits.
fn lay_byte(byte: u8, out: &mut [u8])
    requires { 3 ≤ length out.old }
    ensures { out.new ≡ laid_over (hex_byte byte) out.old }
{
    out[0] = b' ';
    out[1] = digit(byte / 16);
    out[2] = digit(byte % 16);
}

// A capital hex digit.
fn digit(d: u8) -> u8
    requires { d ≤ 15 }
    ensures { result ≡ hex_digit d }
{
    if d < 10 { b'0' + d } else { b'A' - 10 + d }
}
