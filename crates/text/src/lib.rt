// The text of a listing and of a report, in ASCII (document 01, 'Numbers given back'). Each function lays a text whole at the front of a buffer where it fits, or
// nothing: a text's length is known before its first byte is laid. It answers how many bytes were laid, None where the text did not fit. A number that a line
// prints is any u8, as it was: a type with fewer values would ask more of callers.
#![tactic(auto)]

mod hex;
mod numbers;
mod rows;

ghost use Rattle.std.specs.Prelude.{◌≡◌, ◌++◌, ◌≤◌, length};
ghost use Rattle.text.specs.Text.{decimal, line_of, closing, row_rest, row_of, report_end};
ghost use Rattle.text.specs.Whole.{piece_of, laid_whole};

// A number in decimal.
pub fn decimal(n: u64, out: &mut [u8]) -> Option<usize>
    ensures { (result ≡ piece_of (decimal n) (length out.old)) × (out.new ≡ laid_whole (decimal n) out.old) }
{
    let len = numbers::digits(n);
    if out.len() < len {
        return None;
    }
    numbers::lay_digits(n, len, out);
    Some(len)
}

// A record's line: place, space, number, then each reply byte as a space and two capital hex digits, and the line's end.
pub fn line(place: u64, number: u8, reply: &[u8], out: &mut [u8]) -> Option<usize>
    ensures { (result ≡ piece_of (line_of place number reply.now) (length out.old)) × (out.new ≡ laid_whole (line_of place number reply.now) out.old) }
{
    let space = numbers::digits(place);
    let number = u64::from(number);
    let width = numbers::digits(number);
    let at = space + 1;
    let end = at + width;
    // Three bytes for each reply byte, and the line's end: a product could overflow, a quotient cannot.
    if out.len() <= end || (out.len() - end - 1) / 3 < reply.len() {
        return None;
    }
    numbers::lay_digits(place, space, out);
    out[space] = b' ';
    numbers::lay_digits(number, width, &mut out[at..]);
    let last = end + hex::lay_bytes(reply, &mut out[end..]);
    out[last] = b'\n';
    Some(last + 1)
}

// What follows the records of a log: `end PLACE` where the number is 0, else the line of the record that stopped it and `stop PLACE`.
pub fn closing(place: u64, number: u8, out: &mut [u8]) -> Option<usize>
    ensures { (result ≡ piece_of (closing place number) (length out.old)) × (out.new ≡ laid_whole (closing place number) out.old) }
{
    if number == 0 {
        return worded_row(b"end ", place, &[], out);
    }
    // Both lines or none: two places, a number, `stop`, two spaces and two line ends.
    if out.len() < 2 * numbers::digits(place) + numbers::digits(u64::from(number)) + 8 {
        return None;
    }
    let first = line(place, number, b"", out)?;
    let last = worded_row(b"stop ", place, &[], &mut out[first..])?;
    Some(first + last)
}

// A row of numbers in decimal, with a space between.
pub fn row(first: u64, rest: &[u64], out: &mut [u8]) -> Option<usize>
    ensures { (result ≡ piece_of (row_of first rest.now) (length out.old)) × (out.new ≡ laid_whole (row_of first rest.now) out.old) }
{
    worded_row(b"", first, rest, out)
}

// The last line of a report: `end PLACE` where the number is 0, else `stop PLACE NUMBER`.
pub fn report_end(place: u64, number: u8, out: &mut [u8]) -> Option<usize>
    ensures { (result ≡ piece_of (report_end place number) (length out.old)) × (out.new ≡ laid_whole (report_end place number) out.old) }
{
    if number == 0 {
        worded_row(b"end ", place, &[], out)
    } else {
        let number = u64::from(number);
        worded_row(b"stop ", place, &[number], out)
    }
}

// A short word, with the space behind it, and a row.
fn worded_row(word: &[u8], first: u64, rest: &[u64], out: &mut [u8]) -> Option<usize>
    requires { length word.now ≤ 8 }
    ensures { (result ≡ piece_of (word.now ++ decimal first ++ row_rest rest.now) (length out.old)) × (out.new ≡ laid_whole (word.now ++ decimal first ++ row_rest rest.now) out.old) }
{
    let width = numbers::digits(first);
    let at = word.len();
    let end = at + width;
    if out.len() < end || !rows::fits(rest, out.len() - end) {
        return None;
    }
    out[..at].copy_from_slice(word);
    numbers::lay_digits(first, width, &mut out[at..]);
    Some(end + rows::lay(rest, &mut out[end..]))
}
