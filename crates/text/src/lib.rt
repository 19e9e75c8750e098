// Text put together in a lent buffer. A piece is written if the buffer holds it, and in any case the offset behind it comes
// back: the same calls on an empty buffer tell how long a text is before its first byte is written.
#![tactic(auto)]

ghost use Rattle.std.specs.Prelude.{◌≡◌, ◌++◌, ◌+◌, ◌≤◌, length};
ghost use Rattle.text.specs.Decimal.{decimal};
ghost use Rattle.text.specs.Buffer.{printed, print_in, short_of, done_of, Wrote, most_text};

use model::Answer;

// What printing gives: its answer, and the text's length.
// Kept: `Buffer.print_in` promises a length beside the answer, 0 where the buffer is too short, and C is given both.
#[derive(Clone, Copy)]
pub struct Printed {
    pub answer: Answer,
    pub length: usize,
}

// Bytes added to a text that ends at an offset.
pub fn add(text: &mut [u8], at: usize, bytes: &[u8]) -> usize
    requires { (at ≤ most_text) × (length bytes.now ≤ most_text) }
    ensures { Wrote bytes.now text.old at text.new result }
{
    let end = at + bytes.len();
    if end > text.len() {
        return end;
    }
    for i in 0..bytes.len() {
        text[at + i] = bytes[i];
    }
    end
}

// How many digits a number has.
// Kept: `n.checked_ilog10().map_or(1, |k| k + 1)` tells 0 apart, which the digits counted do not, and is no plainer.
pub fn digit_count(n: u32) -> usize
    ensures { (result ≡ length (decimal n)) × (result ≤ 10) }
{
    let mut count = 1;
    let mut rest = n;
    while rest > 9 {
        rest /= 10;
        count += 1;
    }
    count
}

// A number added to a text, in decimal.
pub fn add_number(text: &mut [u8], at: usize, n: u32) -> usize
    requires { at ≤ most_text }
    ensures { Wrote (decimal n) text.old at text.new result × (result ≤ at + 10) }
{
    let end = at + digit_count(n);
    if end > text.len() {
        return end;
    }
    let mut rest = n;
    for i in (at..end).rev() {
        text[i] = b'0' + (rest % 10) as u8;
        rest /= 10;
    }
    end
}

// A number behind its label.
pub fn add_labelled(text: &mut [u8], at: usize, label: &[u8], n: u32) -> usize
    requires { at + length label.now ≤ most_text }
    ensures { Wrote (label.now ++ decimal n) text.old at text.new result × (result ≤ at + length label.now + 10) }
{
    let behind = add(text, at, label);
    add_number(text, behind, n)
}

// A text that is at hand, printed by itself.
pub fn print(text: &mut [u8], bytes: &[u8]) -> Printed
    requires { length bytes.now ≤ most_text }
    ensures { (printed result text.new ≡ print_in bytes.now text.old) × (result.length ≤ length bytes.now) }
{
    if bytes.len() > text.len() {
        return short();
    }
    done(add(text, 0, bytes))
}

// The buffer is too short.
pub fn short() -> Printed
    ensures { result ≡ short_of }
{
    Printed {
        answer: Answer::ShortBuffer,
        length: 0,
    }
}

// A text of so many bytes is there.
pub fn done(length: usize) -> Printed
    ensures { result ≡ done_of length }
{
    Printed {
        answer: Answer::Done,
        length,
    }
}
