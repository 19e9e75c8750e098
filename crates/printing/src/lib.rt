// The lines of an account, but for those of blocks, added to a text.
#![tactic(auto)]

ghost use Rattle.std.specs.Prelude.{◌≡◌, ◌++◌, ◌+◌, ◌*◌, ◌≤◌, length, take};
ghost use Rattle.model.specs.Chip.{most_segments};
ghost use Rattle.text.specs.Text.{text as ascii};
ghost use Rattle.text.specs.Decimal.{decimal};
ghost use Rattle.text.specs.Buffer.{labelled, printed, print_in, Wrote, most_text};
ghost use Rattle.account_text.specs.Account.{wrong_size};
ghost use Rattle.index.specs.Shows.{counts_line, shown_line, shown_lines};

use index::{Counts, Shown};
use judge::SegmentState;
use model::MOST_SEGMENTS;
use text::Printed;

// A number behind its label, and the end of the line.
fn add_ended(text: &mut [u8], at: usize, label: &[u8], n: u32) -> usize
    requires { at + length label.now + 11 ≤ most_text }
    ensures { Wrote ((label.now ++ decimal n) ++ ascii "\n") text.old at text.new result × (result ≤ at + length label.now + 11) }
{
    let behind = text::add_labelled(text, at, label, n);
    text::add(text, behind, b"\n")
}

// ---- segments

// The counts of a segment in use, and the end of its line.
fn counts_line(text: &mut [u8], at: usize, counts: Counts) -> usize
    requires { at + 66 ≤ most_text }
    ensures { Wrote (counts_line counts ++ ascii "\n") text.old at text.new result × (result ≤ at + 66) }
{
    let lives = text::add_labelled(text, at, b" live ", u32::from(counts.live));
    let deads = text::add_labelled(text, lives, b" dead ", u32::from(counts.dead));
    let cuts = text::add_labelled(text, deads, b" cut ", u32::from(counts.cut));
    add_ended(text, cuts, b" empty ", u32::from(counts.empty))
}

// Of a segment in use, what stands behind its index: the label of its state with the number, and the counts.
fn used_line(text: &mut [u8], at: usize, label: &[u8], shown: Shown) -> usize
    requires { (at + 90 ≤ most_text) × (length label.now ≤ 12) }
    ensures { Wrote ((label.now ++ decimal shown.number.0) ++ (counts_line shown.counts ++ ascii "\n")) text.old at text.new result × (result ≤ at + 90) }
{
    let numbers = text::add_labelled(text, at, label, shown.number.0);
    counts_line(text, numbers, shown.counts)
}

// One line.
fn segment_line(text: &mut [u8], at: usize, index: u32, shown: Shown) -> usize
    requires { at + 110 ≤ most_text }
    ensures { Wrote (shown_line index shown) text.old at text.new result × (result ≤ at + 110) }
{
    let behind = text::add_labelled(text, at, b"seg ", index);
    match shown.state {
        SegmentState::Blank => text::add(text, behind, b" blank\n"),
        SegmentState::Invalid => text::add(text, behind, b" torn\n"),
        SegmentState::InUse => used_line(text, behind, b" used num ", shown),
        SegmentState::Owing => used_line(text, behind, b" owing num ", shown),
    }
}

// One for each segment of a table, by index.
pub fn segment_lines(
    text: &mut [u8],
    at: usize,
    table: [Shown; MOST_SEGMENTS],
    segments: usize,
) -> usize
    requires { (segments ≤ most_segments) × (at + 110 * 256 ≤ most_text) }
    ensures { Wrote (shown_lines 0 (take segments table)) text.old at text.new result × (result ≤ at + 110 * segments) }
{
    let mut end = at;
    for i in 0..segments {
        end = segment_line(text, end, i as u32, table[i]);
    }
    end
}

// ---- the last line

// Recovery's answer 0 and its step count.
pub fn recover_line(text: &mut [u8], at: usize, steps: u32) -> usize
    requires { at + 80 ≤ most_text }
    ensures { Wrote (labelled "recover " 0 ++ (labelled " steps " steps ++ ascii "\n")) text.old at text.new result × (result ≤ at + 80) }
{
    let answered = text::add_labelled(text, at, b"recover ", 0);
    add_ended(text, answered, b" steps ", steps)
}

// The place of the first condition of Clean that fails.
pub fn fails_line(text: &mut [u8], at: usize, place: u32) -> usize
    requires { at + 80 ≤ most_text }
    ensures { Wrote (labelled "fails " place ++ ascii "\n") text.old at text.new result × (result ≤ at + 80) }
{
    add_ended(text, at, b"fails ", place)
}

// An image of another size.
pub fn wrong_size(text: &mut [u8]) -> Printed
    ensures { (printed result text.new ≡ print_in wrong_size text.old) × (result.length ≤ 8) }
{
    text::print(text, b"fails 0\n")
}
