// All segments by their headers, and the tests that need no more.
#![tactic(auto)]

ghost use Rattle.std.specs.Prelude.{◌≡◌, cond, ◌||◌, ◌+◌, ◌<◌, ◌≤◌, length};
ghost use Rattle.model.specs.Chip.{most_segments};
ghost use Rattle.model.specs.State.{blank, is_invalid, is_owing, segments_of, settled};
ghost use Rattle.flash.specs.Pages.{Sized};
ghost use Rattle.judge.specs.Heads.{bare, heads, no_counts, count_one, may_be_fine, frame_of, headers_by, headers_of};
ghost use Rattle.judge.specs.Tally.{Ranged};

use judge::{Frame, HeaderCounts, Headers, SegmentState, Summary};
use model::{Geometry, MOST_SEGMENTS, SegmentNumber};

// Before the first segment.
pub fn none_counted() -> HeaderCounts
    ensures { result ≡ no_counts }
{
    HeaderCounts {
        next: 0,
        used: 0,
        settled: true,
        all_version_1: true,
        all_version_2: true,
    }
}

// One segment more.
#[tactic(auto, unfolding(judge::specs::Heads::count_one))]
pub fn count_one(counts: HeaderCounts, s: Summary) -> HeaderCounts
    requires { (counts.used < most_segments) × (counts.next ≤ 4294967296) }
    ensures { (result ≡ count_one counts (bare s)) × (result.used ≤ counts.used + 1) × (result.next ≤ 4294967296) }
{
    let next = counts.next.max(summary::number_after(s));
    let settled = counts.settled && summary::is_settled(s);
    let all_version_1 = counts.all_version_1 && summary::of_version(s, true);
    let all_version_2 = counts.all_version_2 && summary::of_version(s, false);
    if summary::is_in_use(s) {
        return HeaderCounts {
            next,
            used: counts.used + 1,
            settled,
            all_version_1,
            all_version_2,
        };
    }
    HeaderCounts {
        next,
        used: counts.used,
        settled,
        all_version_1,
        all_version_2,
    }
}

// Whether the frame may be fine by what was counted: some are in use, not all, of one version, and none needs mending.
fn may_be_fine(counts: HeaderCounts, segments: usize) -> bool
    ensures { result ≡ may_be_fine segments counts }
{
    if counts.used == 0 {
        return false;
    }
    if counts.used >= segments {
        return false;
    }
    if counts.all_version_1 {
        return counts.settled;
    }
    if counts.all_version_2 {
        return counts.settled;
    }
    false
}

// The frame of the segments that a table shows.
fn see_frame(table: [Summary; MOST_SEGMENTS], segments: usize) -> Frame
    requires { (0 < segments) × (segments ≤ most_segments) }
    ensures { (result ≡ frame_of segments (heads segments table)) × Ranged result }
{
    let mut counts = none_counted();
    for i in 0..segments {
        counts = count_one(counts, table[i]);
    }
    let used = counts.used;
    let first = counts.next.saturating_sub(used);
    if !may_be_fine(counts, segments) {
        return Frame {
            first,
            used,
            fine: false,
        };
    }
    for k in 0..used {
        let number = first + k;
        let index = number % segments;
        if summary::number_after(table[index]) != number + 1 {
            return Frame {
                first,
                used,
                fine: false,
            };
        }
    }
    Frame {
        first,
        used,
        fine: true,
    }
}

// ---- what is unfinished in the headers, taken as mended

// The segment after the top: blank where the top is owing, whatever it holds, and where it is neither in use nor blank.
fn next_mended(s: Summary, top: Summary) -> Summary
    ensures { bare result ≡ cond (is_owing (bare top) || is_invalid (bare s)) blank (bare s) }
{
    if summary::is_owing(top) {
        return summary::head(SegmentState::Blank, false, SegmentNumber(0));
    }
    if summary::is_invalid(s) {
        return summary::head(SegmentState::Blank, false, SegmentNumber(0));
    }
    s
}

// The top: its old segment is erased.
fn settled(s: Summary) -> Summary
    ensures { bare result ≡ settled (bare s) }
{
    let number = s.number;
    if summary::is_owing(s) {
        return summary::head(SegmentState::InUse, s.former, number);
    }
    s
}

// What the top, the segment after it and the frame tell.
fn tell(next: usize, top: Summary, after: Summary, frame: Frame) -> Headers
    ensures { result ≡ headers_by next (bare top) (bare after) frame }
{
    let owing = summary::is_owing(top);
    let torn = summary::is_invalid(after);
    let blank = summary::shows_blank(after);
    Headers {
        next,
        owing,
        torn,
        blank,
        frame,
    }
}

// What the headers of an image tell. The table is filled, counted and mended here, since a hand-over would copy it.
pub fn see_headers(image: &[u8], geometry: Geometry) -> Headers
    requires { Sized geometry.segments geometry.slots (length image.now) × (2 ≤ geometry.segments) }
    ensures { (result ≡ headers_of geometry.segments (segments_of geometry.segments geometry.slots image.now)) × (result.next ≤ 4294967296) × Ranged result.frame }
{
    let none = summary::head(SegmentState::Blank, false, SegmentNumber(0));
    let mut table = [none; MOST_SEGMENTS];
    let mut counts = none_counted();
    for i in 0..geometry.segments {
        let s = summary::see_segment(image, geometry, i);
        table[i] = s;
        counts = count_one(counts, s);
    }
    let next = counts.next;
    let top_index = next.saturating_sub(1) % geometry.segments;
    let after_index = next % geometry.segments;
    let top = table[top_index];
    let after = table[after_index];
    table[top_index] = settled(top);
    table[after_index] = next_mended(after, top);
    let frame = see_frame(table, geometry.segments);
    tell(next, top, after, frame)
}
