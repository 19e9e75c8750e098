// One segment by its header: its summary, before its slots are looked at, and what that tells.
#![tactic(auto)]

ghost use Rattle.std.specs.Prelude.{◌≡◌, cond, not, ◌&&◌, ◌||◌, ◌-◌, ◌<◌, ◌≤◌, length, get_or};
ghost use Rattle.model.specs.State.{blank, is_in_use, is_invalid, is_owing, number_after, of_version, segments_of};
ghost use Rattle.flash.specs.Pages.{Sized};
ghost use Rattle.judge.specs.Heads.{bare_of, bare, outline, state_seen};

use judge::{Ending, Row, SegmentState, Summary};
use model::{BlockNumber, Geometry, SegmentNumber};

// A segment before its slots are looked at.
pub fn head(state: SegmentState, former: bool, number: SegmentNumber) -> Summary
    ensures { bare result ≡ bare_of state former number.0 }
{
    let row = Row {
        live: 0,
        dead: 0,
        cut: 0,
        ending: Ending::Full,
        block: BlockNumber(0),
    };
    Summary {
        number,
        row,
        state,
        former,
    }
}

fn state_seen(status: u8) -> SegmentState
    ensures { result ≡ state_seen status }
{
    if status == 0x9F {
        SegmentState::Owing
    } else {
        SegmentState::InUse
    }
}

// The segment at an index, by its header; one that is not in use is tested for blank as a whole.
pub fn see_segment(image: &[u8], geometry: Geometry, index: usize) -> Summary
    requires { Sized geometry.segments geometry.slots (length image.now) × (index < geometry.segments) }
    ensures { bare result ≡ outline (get_or (segments_of geometry.segments geometry.slots image.now) index blank) }
{
    let at = index * (geometry.slots + 1) * 256;
    let first = at + 256;
    let Some(seen) = header_seen::see_header(&image[at..first], geometry, index) else {
        let end = at + (geometry.slots + 1) * 256;
        let whole = blank::blank_test(&image[at..end]);
        if whole.blank {
            return head(SegmentState::Blank, false, SegmentNumber(0));
        }
        return head(SegmentState::Invalid, false, SegmentNumber(0));
    };
    head(state_seen(seen.status), seen.former, seen.number)
}

// One more than the number of a segment in use, or 0.
#[tactic(auto, unfolding(model::specs::State::number_after, judge::specs::Heads::bare, judge::specs::Heads::bare_of))]
pub fn number_after(s: Summary) -> usize
    ensures { (result ≡ number_after (bare s)) × (result ≤ 4294967296) }
{
    match s.state {
        SegmentState::Blank | SegmentState::Invalid => 0,
        SegmentState::InUse | SegmentState::Owing => s.number.0 as usize + 1,
    }
}

#[tactic(auto, unfolding(model::specs::State::is_in_use, judge::specs::Heads::bare, judge::specs::Heads::bare_of))]
pub fn is_in_use(s: Summary) -> bool
    ensures { result ≡ is_in_use (bare s) }
{
    matches!(s.state, SegmentState::InUse | SegmentState::Owing)
}

#[tactic(auto, unfolding(model::specs::State::is_invalid, judge::specs::Heads::bare, judge::specs::Heads::bare_of))]
pub fn is_invalid(s: Summary) -> bool
    ensures { result ≡ is_invalid (bare s) }
{
    matches!(s.state, SegmentState::Invalid)
}

#[tactic(auto, unfolding(model::specs::State::is_owing, judge::specs::Heads::bare, judge::specs::Heads::bare_of))]
pub fn is_owing(s: Summary) -> bool
    ensures { result ≡ is_owing (bare s) }
{
    matches!(s.state, SegmentState::Owing)
}

// Whether a segment is not in use, or of this version: 1 if `former`, else 2.
pub fn of_version(s: Summary, former: bool) -> bool
    ensures { result ≡ of_version (cond former 1 2) (bare s) }
{
    !is_in_use(s) || s.former == former
}

// Whether a summary shows a blank segment.
pub fn shows_blank(s: Summary) -> bool
    ensures { result ≡ not (is_in_use (bare s) || is_invalid (bare s)) }
{
    !is_in_use(s) && !is_invalid(s)
}

// Whether a segment needs no mending: it is in use and not owing, or blank.
pub fn is_settled(s: Summary) -> bool
    ensures { result ≡ (not (is_owing (bare s)) && not (is_invalid (bare s))) }
{
    !is_owing(s) && !is_invalid(s)
}
