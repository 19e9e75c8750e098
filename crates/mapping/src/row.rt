// One row, put together piece by piece. The bounds on offsets are far above any row's end: they keep sums from wrapping.
ghost use Rattle.std.specs.Prelude.{false, cond, ◌++◌, ◌+◌, ◌*◌, ◌<◌, ◌≤◌, length};
ghost use Rattle.flash.specs.Pages.{Sized};
ghost use Rattle.judge.specs.Rows.{slots_at};
ghost use Rattle.judge.specs.Parts.{slots_offset};
ghost use Rattle.text.specs.Text.{text as words};
ghost use Rattle.text.specs.Buffer.{Wrote};
ghost use Rattle.account_text.specs.Map.{marks_from, padded, row_start, map_row};
ghost use Rattle.mapping.specs.Marks.{segment_by};

use index::Shown;
use judge::SegmentState;
use model::Geometry;

// ---- what stands before its slots

// A number with spaces before it.
fn add_padded(text: &mut [u8], at: usize, n: u32, width: usize) -> usize
    requires { (at ≤ 3000000) × (width ≤ 9) }
    ensures { Wrote (padded width n) text.old at text.new result × (result ≤ at + 20) }
{
    let digits = text::digit_count(n);
    if digits >= width {
        return text::add_number(text, at, n);
    }
    let missing = width - digits;
    let spaces = [b' '; 9];
    let behind = text::add(text, at, &spaces[0..missing]);
    text::add_number(text, behind, n)
}

// The active segment's mark, or a space.
fn add_active(text: &mut [u8], at: usize, active: bool) -> usize
    requires { at ≤ 3000000 }
    ensures { Wrote (cond active (words ">") (words " ")) text.old at text.new result × (result ≤ at + 1) }
{
    if active {
        return text::add(text, at, b">");
    }
    text::add(text, at, b" ")
}

// That mark and the index.
fn start_row(text: &mut [u8], at: usize, active: bool, index: u32) -> usize
    requires { at ≤ 2000000 }
    ensures { Wrote (row_start active index) text.old at text.new result × (result ≤ at + 21) }
{
    let behind = add_active(text, at, active);
    add_padded(text, behind, index, 3)
}

// The state of a segment in use, as a word, and its number.
fn add_state(text: &mut [u8], at: usize, word: &[u8], number: u32) -> usize
    requires { (at ≤ 2000000) × (length word.now ≤ 10) }
    ensures { Wrote (word.now ++ (padded 9 number ++ words " ")) text.old at text.new result × (result ≤ at + 31) }
{
    let behind = text::add(text, at, word);
    let last = add_padded(text, behind, number, 9);
    text::add(text, last, b" ")
}

// ---- the row

// A segment that is not in use.
fn unused_row(text: &mut [u8], at: usize, index: u32, word: &[u8]) -> usize
    requires { (at ≤ 2000000) × (length word.now ≤ 10) }
    ensures { Wrote (row_start false index ++ word.now) text.old at text.new result × (result ≤ at + 31) }
{
    let behind = start_row(text, at, false, index);
    text::add(text, behind, word)
}

// One in use. Its slots are read from the image: a table of segments has none.
fn used_row(
    image: &[u8],
    slots: usize,
    index: usize,
    active: bool,
    word: &[u8],
    number: u32,
    text: &mut [u8],
    at: usize,
) -> usize
    requires { (slots_offset slots index + slots * 256 ≤ length image.now) × (slots ≤ 255) × (index ≤ 255) × (at ≤ 1900000) × (length word.now ≤ 10) }
    ensures { Wrote (row_start active index ++ (word.now ++ (padded 9 number ++ (words " " ++ (marks_from 0 (slots_at image.now (slots_offset slots index) slots) ++ words "\n"))))) text.old at text.new result × (result ≤ at + 6000) }
{
    let first = (index * (slots + 1) + 1) * 256;
    let start = start_row(text, at, active, index as u32);
    let state = add_state(text, start, word, number);
    let marks = marking::add_marks(image, first, slots, text, state);
    text::add(text, marks, b"\n")
}

// The row of the segment at an index, by its state.
pub fn map_row(
    image: &[u8],
    geometry: Geometry,
    index: usize,
    next: usize,
    shown: Shown,
    text: &mut [u8],
    at: usize,
) -> usize
    requires { Sized geometry.segments geometry.slots (length image.now) × (index < geometry.segments) × (at ≤ 1900000) }
    ensures { Wrote (map_row next index (segment_by shown.state shown.number.0 (slots_at image.now (slots_offset geometry.slots index) geometry.slots))) text.old at text.new result × (result ≤ at + 6000) }
{
    let state = shown.state;
    let number = shown.number;
    let active = number.0 as usize + 1 == next;
    match state {
        SegmentState::Blank => unused_row(text, at, index as u32, b" blank\n"),
        SegmentState::Invalid => unused_row(text, at, index as u32, b" torn\n"),
        SegmentState::InUse => used_row(
            image,
            geometry.slots,
            index,
            active,
            b" used ",
            number.0,
            text,
            at,
        ),
        SegmentState::Owing => used_row(
            image,
            geometry.slots,
            index,
            active,
            b" owing",
            number.0,
            text,
            at,
        ),
    }
}
