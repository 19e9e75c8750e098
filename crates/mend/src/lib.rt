// The steps of a recovery; a delete has one of them too.
#![tactic(auto)]

ghost use Rattle.std.specs.Prelude.{◌≡◌, true, cond, [], ◌∷◌, ◌+◌, ◌%◌, length};
ghost use Rattle.model.specs.Chip.{erase, right_size};
ghost use Rattle.model.specs.State.{segments_of};
ghost use Rattle.model.specs.Steps.{settle};
ghost use Rattle.model.specs.Answers.{performed, outcome_of, recover};
ghost use Rattle.flash.specs.Ran.{Ran};
ghost use Rattle.flash.specs.Pages.{Sized};
ghost use Rattle.scan.specs.Surveys.{survey_of};
ghost use Rattle.request.specs.Request.{Carried};
ghost use Rattle.mend.specs.Marks.{PageAt, MarkedAt};
ghost use Rattle.mend.specs.Erasing.{counting, erasing};

use model::{Answer, Geometry, Performed, SegmentNumber, SlotPlace};
use scan::Surveyed;

// Marks a slot: a torn one in (c), the older of two live ones in (d).
pub fn mark_slot(image: &mut [u8], place: SlotPlace, budget: u64) -> Performed
    requires { PageAt place.0 (length image.old) }
    ensures { MarkedAt place.0 budget result image.old image.new }
{
    let left = slot::mark_dead(image, place, budget);
    request::finished(budget, left, budget, 1)
}

// Erases the segment after the top.
fn erase_after(image: &mut [u8], geometry: Geometry, top: SegmentNumber, budget: u64) -> u64
    requires { Sized geometry.segments geometry.slots (length image.old) }
    ensures { Ran (erase ((top.0 + 1) % geometry.segments) ∷ []) geometry.slots budget result image.old image.new }
{
    let index = (top.0 as usize + 1) % geometry.segments;
    flash::erase_segment(image, index, geometry.slots, budget)
}

// Counts an erase in the top's header, and then makes it: that of the segment after the top.
#[tactic(auto, unfolding(crate::specs::Erasing::counting))]
fn erase_torn(image: &mut [u8], geometry: Geometry, top: SegmentNumber, budget: u64) -> Performed
    requires { Sized geometry.segments geometry.slots (length image.old) }
    ensures { Carried (counting geometry.segments geometry.slots top.0 image.old) (erase ((top.0 + 1) % geometry.segments) ∷ []) geometry.slots budget result image.old image.new }
{
    let counted = tally::count_erase(image, geometry, top, budget);
    let left = erase_after(image, geometry, top, counted);
    request::finished(budget, left, counted, 1)
}

// Counts and makes the same erase, unless that segment is blank; what is left of the budget.
#[tactic(auto, unfolding(crate::specs::Erasing::erasing, crate::specs::Erasing::counting))]
fn erase_old(
    image: &mut [u8],
    geometry: Geometry,
    top: SegmentNumber,
    blank: bool,
    budget: u64,
) -> u64
    requires { Sized geometry.segments geometry.slots (length image.old) }
    ensures { Ran (cond blank [] (erasing geometry.segments geometry.slots top.0 image.old)) geometry.slots budget result image.old image.new }
{
    if blank {
        return budget;
    }
    let counted = tally::count_erase(image, geometry, top, budget);
    erase_after(image, geometry, top, counted)
}

// Counts an erase in the top's header and erases the segment after the top, unless that is blank; then settles the top's
// status.
fn erase_pending(
    image: &mut [u8],
    geometry: Geometry,
    top: SegmentNumber,
    blank: bool,
    budget: u64,
) -> Performed
    requires { Sized geometry.segments geometry.slots (length image.old) }
    ensures { Carried (cond blank [] (erasing geometry.segments geometry.slots top.0 image.old)) (settle geometry.segments geometry.slots top.0) geometry.slots budget result image.old image.new }
{
    let erased = erase_old(image, geometry, top, blank, budget);
    let left = header_steps::settle(image, geometry, top, erased);
    request::finished(budget, left, erased, 1)
}

// Mends an image as its survey says.
pub fn mend(image: &mut [u8], geometry: Geometry, survey: Surveyed, budget: u64) -> Performed
    requires { (right_size geometry.segments geometry.slots image.old ≡ true) × (survey ≡ survey_of geometry.segments geometry.slots (segments_of geometry.segments geometry.slots image.old)) }
    ensures { performed result image.new ≡ outcome_of geometry.segments geometry.slots image.old budget recover }
{
    match survey {
        Surveyed::Clean { .. } => request::refused(Answer::Done),
        Surveyed::TornSegment { top } => erase_torn(image, geometry, top, budget),
        Surveyed::ErasePending { top, blank } => erase_pending(image, geometry, top, blank, budget),
        Surveyed::TornSlot { place } => mark_slot(image, place, budget),
        Surveyed::OldSlot { place } => mark_slot(image, place, budget),
        Surveyed::Damaged => request::refused(Answer::Damaged),
    }
}
