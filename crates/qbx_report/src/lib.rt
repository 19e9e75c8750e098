// What `qbx check` tells of an image: its state, what is in it, counted, and the top's version and tally.
#![tactic(auto)]

ghost use Rattle.std.specs.Prelude.{◌≡◌, true};
ghost use Rattle.model.specs.Chip.{right_size};
ghost use Rattle.model.specs.State.{segments_of, state_of};
ghost use Rattle.qbx_report.specs.Report.{condition_of, aside_in, top_told, report_of};

use model::{Geometry, SegmentNumber};
use qbx_census::take_census;
use qbx_state::{Condition, Report, TopSeen};
use scan::Surveyed;

// The state, as the survey finds it.
fn condition_of(image: &[u8], geometry: Geometry) -> Condition
    requires { right_size geometry.segments geometry.slots image.now ≡ true }
    ensures { result ≡ condition_of (state_of geometry.segments geometry.slots (segments_of geometry.segments geometry.slots image.now)) }
{
    let surveyed = scan::survey(image, geometry);
    match surveyed {
        Surveyed::Clean { .. } => Condition::Clean,
        Surveyed::TornSegment { .. } => Condition::UnfinishedA,
        Surveyed::ErasePending { .. } => Condition::UnfinishedB,
        Surveyed::TornSlot { .. } => Condition::UnfinishedC,
        Surveyed::OldSlot { .. } => Condition::UnfinishedD,
        Surveyed::Damaged => Condition::Damaged,
    }
}

// The index of the segment after the top, whose erase is owed in an image unfinished by (b) and which is left aside; in others
// none is, which is the index behind the last.
fn left_aside(image: &[u8], geometry: Geometry, condition: Condition) -> usize
    requires { right_size geometry.segments geometry.slots image.now ≡ true }
    ensures { result ≡ aside_in geometry.segments (segments_of geometry.segments geometry.slots image.now) condition }
{
    let Condition::UnfinishedB = condition else {
        return geometry.segments;
    };
    let seen = segments::see_headers(image, geometry);
    seen.next % geometry.segments
}

// The header of the top, whose number is the one before the next.
fn see_top(image: &[u8], geometry: Geometry) -> TopSeen
    requires { right_size geometry.segments geometry.slots image.now ≡ true }
    ensures { result ≡ top_told geometry.segments (segments_of geometry.segments geometry.slots image.now) }
{
    let seen = segments::see_headers(image, geometry);
    if seen.next == 0 {
        return TopSeen::Missing;
    }
    let top = SegmentNumber((seen.next - 1) as u32);
    let told = tally::tally_in(image, geometry, top);
    if told.former {
        return TopSeen::Version1;
    }
    TopSeen::Version2 {
        tally: told.count as u64,
        no_bit_left: told.no_bit_left,
    }
}

// What a check tells of an image of a right size.
pub fn report_on(image: &[u8], geometry: Geometry) -> Report
    requires { right_size geometry.segments geometry.slots image.now ≡ true }
    ensures { result ≡ report_of geometry.segments geometry.slots (segments_of geometry.segments geometry.slots image.now) }
{
    let condition = condition_of(image, geometry);
    let aside = left_aside(image, geometry, condition);
    let census = take_census(image, geometry, aside);
    let top = see_top(image, geometry);
    Report {
        condition,
        segments: census.segments,
        live: census.live,
        dead: census.dead,
        cut: census.cut,
        empty: census.empty,
        top,
    }
}
