// What recovery would answer, told from the survey of an image without a step (request #101: the account's last line).
#![tactic(auto)]

ghost use Rattle.std.specs.Prelude.{◌≡◌, true, cond, ◌+◌, ◌≤◌, length};
ghost use Rattle.model.specs.Chip.{right_size};
ghost use Rattle.model.specs.State.{segments_of};
ghost use Rattle.flash.specs.Pages.{Sized};
ghost use Rattle.scan.specs.Surveys.{survey_of};
ghost use Rattle.mend.specs.Erasing.{erasing};
ghost use Rattle.prognosis.specs.Foretold.{prognosis_of, Small};

use model::{Geometry, SegmentNumber};
use scan::Surveyed;

// The first condition of Clean that fails, by its place.
#[derive(Clone, Copy)]
pub struct FailedCondition(pub u32);

// How many steps it takes to erase the segment after the top: one more where the top's header counts it.
fn erase_steps(image: &[u8], geometry: Geometry, top: SegmentNumber) -> u32
    requires { Sized geometry.segments geometry.slots (length image.now) }
    ensures { (result ≡ length (erasing geometry.segments geometry.slots top.0 image.now)) × (result ≤ 2) }
{
    let told = tally::tally_in(image, geometry, top);
    if told.former {
        return 1;
    }
    if told.no_bit_left {
        return 1;
    }
    2
}

// How many it takes to erase that segment, unless it is blank, and to settle the top's status.
fn settle_steps(image: &[u8], geometry: Geometry, top: SegmentNumber, blank: bool) -> u32
    requires { Sized geometry.segments geometry.slots (length image.now) }
    ensures { (result ≡ cond blank 0 (length (erasing geometry.segments geometry.slots top.0 image.now)) + 1) × (result ≤ 3) }
{
    if blank {
        return 1;
    }
    erase_steps(image, geometry, top) + 1
}

// What recovery would answer on an image, by its survey: 0 after so many steps, or 4. A frame of its
// own: the set of block numbers that a damaged image takes is none of an account's, which has large tables.
#[inline(never)]
pub fn foretell(image: &[u8], geometry: Geometry, survey: Surveyed) -> Result<u32, FailedCondition>
    requires { (right_size geometry.segments geometry.slots image.now ≡ true) × (survey ≡ survey_of geometry.segments geometry.slots (segments_of geometry.segments geometry.slots image.now)) }
    ensures { (result ≡ prognosis_of geometry.segments geometry.slots (segments_of geometry.segments geometry.slots image.now)) × Small result }
{
    match survey {
        Surveyed::Clean { .. } => Ok(0),
        Surveyed::TornSegment { top } => Ok(erase_steps(image, geometry, top)),
        Surveyed::ErasePending { top, blank } => Ok(settle_steps(image, geometry, top, blank)),
        Surveyed::TornSlot { .. } => Ok(1),
        Surveyed::OldSlot { .. } => Ok(1),
        Surveyed::Damaged => {
            let place = faults::first_failing(image, geometry.segments, geometry.slots) as u32;
            Err(FailedCondition(place))
        }
    }
}
