// Lines of text, put together.
#![tactic(auto)]

ghost use Rattle.std.specs.Prelude.{◌≡◌, [], ◌++◌, ◌+◌, ◌≤◌, length};
ghost use Rattle.qbx_lines.specs.Lines.{most_line, said, Added};
ghost use Rattle.text.specs.Decimal.{decimal};

// The most bytes of a line; `most_line` in specs/.
pub const MOST_LINE: usize = 240;

// A line that is being put together.
// Kept: an array and its length, and no `Vec`, `String` or `Display`: a project rule (no heap, fixed memory) needs it.
#[derive(Drop)]
pub struct Line {
    pub bytes: [u8; MOST_LINE],
    pub count: usize,
}

// A line that says nothing yet.
pub fn empty() -> Line
    ensures { (said result ≡ []) × (result.count ≡ 0) }
{
    Line {
        bytes: [0u8; MOST_LINE],
        count: 0,
    }
}

// More bytes at the end of a line.
pub fn add(line: Line, text: &[u8]) -> Line
    requires { line.count + length text.now ≤ most_line }
    ensures { Added line text.now result }
{
    let mut bytes = line.bytes;
    let end = line.count + text.len();
    bytes[line.count..end].copy_from_slice(text);
    Line { bytes, count: end }
}

// A number at the end of a line.
#[tactic(auto, unfolding(text::specs::Decimal::decimal))]
pub fn add_number(line: Line, n: u64) -> Line
    requires { line.count + 20 ≤ most_line }
    ensures { Added line (decimal n) result × (length (decimal n) ≤ 20) }
{
    let mut digits = [0u8; 20];
    let count = io::decimal(n, &mut digits);
    add(line, &digits[..count])
}

// A number behind its label.
pub fn add_count(line: Line, label: &[u8], n: u64) -> Line
    requires { line.count + length label.now + 20 ≤ most_line }
    ensures { Added line (label.now ++ decimal n) result × (result.count ≤ line.count + length label.now + 20) }
{
    add_number(add(line, label), n)
}
