// What a put on a clean image is answered, before its first step: from a plan, the top's tally, the count of live slots and a
// search.
#![tactic(auto)]

ghost use Rattle.std.specs.Prelude.{◌≡◌, ◌+◌, ◌-◌, ◌≤◌, ◌<◌, length};
ghost use Rattle.model.specs.Chip.{most_segments, most_slots};
ghost use Rattle.flash.specs.Pages.{Sized};
ghost use Rattle.put_answers.specs.Answering.{Ranged, new_numbers_by, worn_by, full_by, answer_for, found_before};

use find::FoundSlot;
use model::{Answer, BlockNumber, ERASE_LIMIT, Geometry, SegmentNumber};
use room::Plan;
use tally::Tally;

// The number of the top.
pub fn top_number(plan: Plan) -> SegmentNumber
    requires { (1 ≤ plan.used) × (plan.used ≤ most_segments) × (plan.first.0 + plan.used ≤ 4294967296) }
    ensures { result.0 ≡ plan.first.0 + plan.used - 1 }
{
    SegmentNumber((plan.first.0 as usize + plan.used - 1) as u32)
}

// How many new numbers a put without room gives.
fn new_numbers(segments: usize, plan: Plan) -> usize
    requires { (plan.used ≤ most_segments) × (plan.compactions ≤ most_segments) }
    ensures { (result ≡ new_numbers_by segments plan) × (result ≤ most_segments) }
{
    if plan.used + 1 < segments {
        return 1;
    }
    plan.compactions
}

// Whether room for a put would wear the chip: a new header is needed, and the top's has no bit left, or the erases by number
// and by the tally reach the limit. It is found out before the first step.
pub fn is_worn(geometry: Geometry, plan: Plan, tally: Tally) -> bool
    requires { Ranged geometry.segments geometry.slots plan × (plan.first.0 + plan.used ≤ 4294967296) × (tally.count < 4294969344) }
    ensures { result ≡ worn_by geometry.segments geometry.slots plan tally }
{
    if plan.slot < geometry.slots {
        return false;
    }
    if tally.no_bit_left {
        return true;
    }
    let top = top_number(plan);
    let number = top.0 as usize + new_numbers(geometry.segments, plan);
    ERASE_LIMIT <= number / geometry.segments + tally.count
}

// Whether a put of a block that is not stored finds as many slots live as may be.
#[tactic(auto, unfolding(crate::specs::Answering::full_by))]
fn is_full(geometry: Geometry, live: usize, found: Option<FoundSlot>) -> bool
    requires { (2 ≤ geometry.segments) × (geometry.segments ≤ most_segments) × (2 ≤ geometry.slots) × (geometry.slots ≤ most_slots) }
    ensures { result ≡ full_by geometry.segments geometry.slots live found }
{
    found.is_none() && request::capacity(geometry.segments, geometry.slots) <= live
}

// Where a block's slot is, if it has to be known before room is made: where nothing will move, or where the answer turns on
// it. Else a pass over all slots is saved. `None` is harmless there: below capacity the answer does not turn on
// it, and `put::old_slot` searches once room was made.
#[tactic(auto, unfolding(crate::specs::Answering::found_before))]
pub fn slot_before(
    image: &[u8],
    geometry: Geometry,
    plan: Plan,
    live: usize,
    block: BlockNumber,
) -> Option<FoundSlot>
    requires { Ranged geometry.segments geometry.slots plan × Sized geometry.segments geometry.slots (length image.now) × (plan.first.0 + plan.used ≤ 4294967296) }
    ensures { result ≡ found_before geometry.segments geometry.slots plan live image.now block.0 }
{
    if geometry.slots <= plan.slot && live < request::capacity(geometry.segments, geometry.slots) {
        return None;
    }
    find::find(image, geometry, plan.first, plan.used, block)
}

// The answer of a put on a clean image of version 2, but for a cut.
pub fn put_answer(
    geometry: Geometry,
    plan: Plan,
    live: usize,
    tally: Tally,
    found: Option<FoundSlot>,
) -> Answer
    requires { Ranged geometry.segments geometry.slots plan × (plan.first.0 + plan.used ≤ 4294967296) × (tally.count < 4294969344) }
    ensures { result ≡ answer_for geometry.segments geometry.slots plan live tally found }
{
    if is_full(geometry, live, found) {
        return Answer::Full;
    }
    if is_worn(geometry, plan, tally) {
        return Answer::Worn;
    }
    Answer::Done
}
