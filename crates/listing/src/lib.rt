// The segments of an image as an account shows them, and its live slots by block number, found in one walk over the
// segments in use, from the top down.
#![tactic(auto)]

ghost use Rattle.std.specs.Prelude.{◌≡◌, true, map, ◌+◌, ◌%◌, ◌<◌, ◌≤◌, length, take, replicate};
ghost use Rattle.model.specs.Chip.{most_segments, right_size};
ghost use Rattle.model.specs.State.{segments_of};
ghost use Rattle.flash.specs.Pages.{Sized};
ghost use Rattle.judge.specs.Heads.{bare};
ghost use Rattle.scan.specs.Surveys.{survey_of};
ghost use Rattle.account_text.specs.Account.{shown};
ghost use Rattle.descent.specs.Descent.{largest};
ghost use Rattle.index.specs.Shows.{no_counts, shown_as, shown_of, uncounted, counted, after_shown};
ghost use Rattle.index.specs.Tables.{linked, list_of, Indexed};
ghost use Rattle.listing.specs.Walk.{hidden};

use index::{Counts, Shown, Tables};
use judge::{SegmentState, Summary};
use model::{Geometry, MOST_SEGMENTS, SegmentNumber};
use scan::Surveyed;

// A segment before its slots are counted.
fn plain(state: SegmentState, number: SegmentNumber) -> Shown
    ensures { result ≡ shown_as state number.0 no_counts }
{
    Shown {
        number,
        counts: Counts::default(),
        state,
    }
}

// The same, of its summary.
#[tactic(auto, unfolding(judge::specs::Heads::bare, judge::specs::Heads::bare_of, judge::specs::Heads::state_seen, index::specs::Shows::uncounted))]
fn begin(s: Summary) -> Shown
    ensures { result ≡ uncounted (bare s) }
{
    match s.state {
        SegmentState::Blank => plain(SegmentState::Blank, SegmentNumber(0)),
        SegmentState::Invalid => plain(SegmentState::Invalid, SegmentNumber(0)),
        SegmentState::InUse => plain(SegmentState::InUse, s.number),
        SegmentState::Owing => plain(SegmentState::Owing, s.number),
    }
}

// The segments by index.
fn see_all(image: &[u8], geometry: Geometry) -> [Shown; MOST_SEGMENTS]
    requires { Sized geometry.segments geometry.slots (length image.now) }
    ensures { take geometry.segments result ≡ map uncounted (segments_of geometry.segments geometry.slots image.now) }
{
    let none = plain(SegmentState::Blank, SegmentNumber(0));
    let mut table = [none; MOST_SEGMENTS];
    for i in 0..geometry.segments {
        table[i] = begin(summary::see_segment(image, geometry, i));
    }
    table
}

// Shows a table as an account does. In an image unfinished by (b) the segment after the top is not looked at: it is torn,
// unless it is blank.
#[tactic(auto, unfolding(crate::specs::Walk::hidden))]
fn hide(table: [Shown; MOST_SEGMENTS], segments: usize, survey: Surveyed) -> [Shown; MOST_SEGMENTS]
    requires { (0 < segments) × (segments ≤ most_segments) }
    ensures { result ≡ hidden survey segments table }
{
    let Surveyed::ErasePending { top, blank } = survey else {
        return table;
    };
    if blank {
        return table;
    }
    let mut shown = table;
    let after = (top.0 as usize + 1) % segments;
    shown[after] = plain(SegmentState::Invalid, SegmentNumber(0));
    shown
}

// One more than the number of a segment in use, or 0.
#[tactic(auto, unfolding(index::specs::Shows::after_shown, index::specs::Shows::after_by))]
fn number_after(x: Shown) -> usize
    ensures { result ≡ after_shown x }
{
    match x.state {
        SegmentState::Blank => 0,
        SegmentState::Invalid => 0,
        SegmentState::InUse => x.number.0 as usize + 1,
        SegmentState::Owing => x.number.0 as usize + 1,
    }
}

// The numbers of the segments in use, one more each; 0 for the others.
fn numbers(table: [Shown; MOST_SEGMENTS], segments: usize) -> [usize; MOST_SEGMENTS]
    requires { segments ≤ most_segments }
    ensures { (take segments result ≡ map after_shown (take segments table)) × (length result ≡ most_segments) }
{
    let mut left = [0usize; MOST_SEGMENTS];
    for i in 0..segments {
        left[i] = number_after(table[i]);
    }
    left
}

#[tactic(auto, unfolding(index::specs::Shows::counted))]
fn count(x: Shown, counts: Counts) -> Shown
    ensures { result ≡ counted counts x }
{
    Shown { counts, ..x }
}

// The segments in use, from the top down: counted, and their live slots put into the tables.
fn list_segments(
    image: &[u8],
    geometry: Geometry,
    table: [Shown; MOST_SEGMENTS],
    tables: &mut Tables,
) -> [Shown; MOST_SEGMENTS]
    requires { Sized geometry.segments geometry.slots (length image.now) × (take geometry.segments table ≡ map uncounted (shown geometry.segments geometry.slots (segments_of geometry.segments geometry.slots image.now))) }
    ensures { (take geometry.segments result ≡ map shown_of (shown geometry.segments geometry.slots (segments_of geometry.segments geometry.slots image.now))) × (tables.new ≡ linked geometry.slots (list_of geometry.segments geometry.slots image.now) tables.old) }
{
    let mut shown = table;
    let mut left = numbers(table, geometry.segments);
    let mut top = descent::largest(&left, geometry.segments);
    while top > 0 {
        let index = (top - 1) % geometry.segments;
        let counts = linking::list_row(image, index * (geometry.slots + 1), geometry.slots, tables);
        shown[index] = count(shown[index], counts);
        left[index] = 0;
        top = descent::largest(&left, geometry.segments);
    }
    shown
}

// The segments of an image as they are shown, before their slots are counted.
pub fn see(image: &[u8], geometry: Geometry, survey: Surveyed) -> [Shown; MOST_SEGMENTS]
    requires { (right_size geometry.segments geometry.slots image.now ≡ true) × (survey ≡ survey_of geometry.segments geometry.slots (segments_of geometry.segments geometry.slots image.now)) }
    ensures { take geometry.segments result ≡ map uncounted (shown geometry.segments geometry.slots (segments_of geometry.segments geometry.slots image.now)) }
{
    hide(see_all(image, geometry), geometry.segments, survey)
}

// The number after the top's, or 0 if no segment of a table is in use.
pub fn next_number(table: [Shown; MOST_SEGMENTS], segments: usize) -> usize
    requires { segments ≤ most_segments }
    ensures { result ≡ largest (map after_shown (take segments table)) }
{
    let left = numbers(table, segments);
    descent::largest(&left, segments)
}

// The segments as they are shown, and the live slots put into tables that hold none yet. A frame of its own: its copies of the
// table are gone before the caller, whose three large tables are on the stack already, goes on.
#[inline(never)]
pub fn list(
    image: &[u8],
    geometry: Geometry,
    survey: Surveyed,
    tables: &mut Tables,
) -> [Shown; MOST_SEGMENTS]
    requires { (right_size geometry.segments geometry.slots image.now ≡ true) × (survey ≡ survey_of geometry.segments geometry.slots (segments_of geometry.segments geometry.slots image.now)) × (tables.old.firsts ≡ replicate 65536 0) × (tables.old.nexts ≡ replicate 65536 0) × (tables.old.lengths ≡ replicate 65536 0) }
    ensures { (take geometry.segments result ≡ map shown_of (shown geometry.segments geometry.slots (segments_of geometry.segments geometry.slots image.now))) × Indexed geometry.segments geometry.slots image.now tables.new }
{
    let table = see(image, geometry, survey);
    list_segments(image, geometry, table, tables)
}
