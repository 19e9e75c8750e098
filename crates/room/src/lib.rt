// Room for a put.
#![tactic(auto)]

ghost use Rattle.std.specs.Prelude.{◌≡◌, ◌+◌, ◌-◌, ◌≤◌, ◌<◌, length};
ghost use Rattle.room.specs.Room.{Plannable, Full, Worked};

use model::{Geometry, SegmentNumber};

// The segments in use: the smallest number, their count, the first empty slot of the top (or the count of slots, if there
// is none), and how many compactions would make room.
#[derive(Clone, Copy)]
pub struct Plan {
    pub first: SegmentNumber,
    pub used: usize,
    pub slot: usize,
    pub compactions: usize,
}

// What is left of the budget once room was made; and, if anything is left, the segments in use and the first empty slot of the top.
#[derive(Clone, Copy)]
pub struct Room {
    pub left: u64,
    pub first: SegmentNumber,
    pub used: usize,
    pub slot: usize,
}

// The number that comes so many after another.
fn after(number: SegmentNumber, count: usize) -> SegmentNumber
    requires { number.0 + count ≤ 4294967295 }
    ensures { result.0 ≡ number.0 + count }
{
    SegmentNumber(number.0 + count as u32)
}

// Compacts the oldest segment, as often as it takes.
fn compact_oldest(
    image: &mut [u8],
    geometry: Geometry,
    plan: Plan,
    total: usize,
    budget: u64,
) -> Room
    requires { Plannable geometry.segments geometry.slots plan (length image.old) × Full geometry.segments geometry.slots plan }
    ensures { Worked geometry.segments geometry.slots plan total budget result image.old image.new }
{
    let mut left = budget;
    let mut slot = 0;
    for i in 0..plan.compactions {
        let old = after(plan.first, i);
        let number = after(plan.first, plan.used + i);
        let done = compact::compact_segment(image, geometry, total, old, number, left);
        left = done.left;
        slot = done.copied;
    }
    let first = after(plan.first, plan.compactions);
    let used = plan.used;
    Room {
        left,
        first,
        used,
        slot,
    }
}

// Makes room: nothing, if the top has an empty slot; else one more segment is opened, if two are left; else the oldest are
// compacted. Each new header carries this total of recoveries' erases on. It goes by the plan: the image may be any of its size.
pub fn make_room(
    image: &mut [u8],
    geometry: Geometry,
    plan: Plan,
    total: usize,
    budget: u64,
) -> Room
    requires { Plannable geometry.segments geometry.slots plan (length image.old) }
    ensures { Worked geometry.segments geometry.slots plan total budget result image.old image.new }
{
    let first = plan.first;
    let used = plan.used;
    if plan.slot < geometry.slots {
        return Room {
            left: budget,
            first,
            used,
            slot: plan.slot,
        };
    }
    if used + 1 < geometry.segments {
        let left = header_steps::open_header(image, geometry, total, after(first, used), budget);
        return Room {
            left,
            first,
            used: used + 1,
            slot: 0,
        };
    }
    compact_oldest(image, geometry, plan, total, budget)
}
