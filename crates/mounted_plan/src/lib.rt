// A put decided before its first step, on any image of a right size, from as few bytes as can be (request #102): whether it
// is refused, and otherwise how room is made.
#![tactic(auto)]

ghost use Rattle.std.specs.Prelude.{◌≡◌, true, ◌+◌, ◌-◌, ◌≤◌, length};
ghost use Rattle.model.specs.Chip.{most_segments, right_size};
ghost use Rattle.model.specs.Header.{is_former, header_version};
ghost use Rattle.flash.specs.Pages.{Sized};
ghost use Rattle.tally.specs.Seen.{header_in};
ghost use Rattle.room.specs.Room.{Plannable};
ghost use Rattle.mounted_plan.specs.Decided.{full_seen, plan_seen, header_decision, Decides};

use model::{Answer, Geometry, SegmentNumber};
use ring::Ring;
use room::Plan;

// How a put that is not refused is performed: by a plan, and with the total that a new header carries on.
#[derive(Clone, Copy)]
pub struct PutPlan {
    pub plan: Plan,
    pub total: usize,
}

// The number of the top.
fn top_number(first: SegmentNumber, used: usize) -> SegmentNumber
    requires { (1 ≤ used) × (used ≤ most_segments) × (first.0 + used ≤ 4294967296) }
    ensures { result.0 ≡ first.0 + used - 1 }
{
    SegmentNumber((first.0 as usize + used - 1) as u32)
}

// Whether the header of the segment with a number has version 1: one byte tells, and the tally is not counted.
fn is_former_in(image: &[u8], geometry: Geometry, number: SegmentNumber) -> bool
    requires { Sized geometry.segments geometry.slots (length image.now) }
    ensures { result ≡ is_former (header_version (header_in geometry.segments geometry.slots number.0 image.now)) }
{
    let at = header::header_place(geometry, number);
    let end = at + 256;
    header::is_former(&image[at..end])
}

// Whether a put finds as many slots live as may be; it matters only for a block that has none. With fewer segments in use
// than may be, or with two empty slots in the top, that cannot be, and no status is looked at.
fn is_full(image: &[u8], geometry: Geometry, plan: Plan, absent: bool) -> bool
    requires { Plannable geometry.segments geometry.slots plan (length image.now) × (plan.slot ≤ geometry.slots) }
    ensures { result ≡ full_seen geometry.segments geometry.slots absent plan image.now }
{
    if !absent {
        return false;
    }
    if plan.used + 1 < geometry.segments {
        return false;
    }
    if plan.slot + 1 < geometry.slots {
        return false;
    }
    plan::is_crowded(image, geometry, plan.first, plan.used)
}

// ---- the top is full

// A plan with its compactions counted, where there will be some.
fn count_compactions(image: &[u8], geometry: Geometry, plan: Plan) -> Plan
    requires { Plannable geometry.segments geometry.slots plan (length image.now) }
    ensures { result ≡ plan_seen geometry.segments geometry.slots plan image.now }
{
    let first = plan.first;
    let used = plan.used;
    let slot = plan.slot;
    if used + 1 < geometry.segments {
        return plan;
    }
    let compactions = plan::compactions(image, geometry, first, used);
    Plan {
        first,
        used,
        slot,
        compactions,
    }
}

// A put that needs a new header: only now the top's tally is counted.
fn decide_header(image: &[u8], geometry: Geometry, plan: Plan) -> Result<PutPlan, Answer>
    requires { (right_size geometry.segments geometry.slots image.now ≡ true) × Plannable geometry.segments geometry.slots plan (length image.now) }
    ensures { result ≡ header_decision geometry.segments geometry.slots plan image.now }
{
    let counted = count_compactions(image, geometry, plan);
    let top = top_number(plan.first, plan.used);
    let tally = tally::tally_in(image, geometry, top);
    if put_answers::is_worn(geometry, counted, tally) {
        return Err(Answer::Worn);
    }
    Ok(PutPlan {
        plan: counted,
        total: tally.count,
    })
}

// ---- a put

// Decides a put of a block that has no slot yet (absent), or has one.
pub fn decide(image: &[u8], geometry: Geometry, absent: bool) -> Result<PutPlan, Answer>
    requires { right_size geometry.segments geometry.slots image.now ≡ true }
    ensures { Decides geometry.segments geometry.slots absent image.now result }
{
    let ring = ring::see_ring(image, geometry);
    let Some(Ring { first, used }) = ring else {
        return Err(Answer::Damaged);
    };
    let top = top_number(first, used);
    if is_former_in(image, geometry, top) {
        return Err(Answer::FormerVersion);
    }
    let slot = plan::first_free(image, geometry, top);
    let plan = Plan {
        first,
        used,
        slot,
        compactions: 0,
    };
    if is_full(image, geometry, plan, absent) {
        return Err(Answer::Full);
    }
    if slot < geometry.slots {
        return Ok(PutPlan { plan, total: 0 });
    }
    decide_header(image, geometry, plan)
}
