// A put on a clean image. Its last parts hold on any.
#![tactic(auto)]

ghost use Rattle.std.specs.Prelude.{◌≡◌, false, ◌+◌, ◌-◌, ◌*◌, ◌≤◌, ◌<◌, length};
ghost use Rattle.model.specs.State.{entries_in, view};
ghost use Rattle.model.specs.Steps.{slot_at};
ghost use Rattle.model.specs.Answers.{performed, outcome_of, put};
ghost use Rattle.find.specs.Search.{rows_at, found_in};
ghost use Rattle.flash.specs.Pages.{Sized};
ghost use Rattle.put.specs.Writing.{Puttable, Accepted, Placed, Wrote};

use find::FoundSlot;
use model::{Answer, BlockNumber, Geometry, Performed, SlotPlace};
use room::{Plan, Room};

// The steps that write a slot, besides one for each byte of contents.
const SLOT_STEPS: u64 = 5;

// Where the old slot of a block is once room was made: compaction may have moved it.
fn old_slot(
    image: &[u8],
    geometry: Geometry,
    room: Room,
    moved: bool,
    before: Option<FoundSlot>,
    block: BlockNumber,
) -> Option<FoundSlot>
    requires { Sized geometry.segments geometry.slots (length image.now) × (room.first.0 + room.used ≤ 4294967296) × (moved ≡ false → before ≡ found_in geometry.segments geometry.slots room.first.0 (rows_at geometry.segments geometry.slots image.now room.used room.first.0) block.0) }
    ensures { result ≡ found_in geometry.segments geometry.slots room.first.0 (rows_at geometry.segments geometry.slots image.now room.used room.first.0) block.0 }
{
    if moved {
        return find::find(image, geometry, room.first, room.used, block);
    }
    before
}

// The place of the first empty slot of the top.
pub fn free_place(geometry: Geometry, room: Room) -> SlotPlace
    requires { (0 < geometry.segments) × (geometry.segments ≤ 255) × (geometry.slots ≤ 255) × (room.slot < geometry.slots) × (1 ≤ room.used) × (room.used ≤ 255) }
    ensures { result.0 ≡ slot_at geometry.segments geometry.slots (room.first.0 + room.used - 1) room.slot * 256 }
{
    let top = room.first.0 as usize + room.used - 1;
    SlotPlace((top % geometry.segments * (geometry.slots + 1) + 1 + room.slot) * 256)
}

// Writes the slot, and only then marks the old one.
pub fn write_block(
    image: &mut [u8],
    geometry: Geometry,
    room: Room,
    old: Option<FoundSlot>,
    block: BlockNumber,
    contents: &[u8],
    budget: u64,
) -> Performed
    requires { Placed geometry.segments geometry.slots room old contents.now budget (length image.old) }
    ensures { Wrote geometry.segments geometry.slots room old block.0 contents.now budget result image.old image.new }
{
    let before = room.left;
    let steps = SLOT_STEPS + contents.len() as u64;
    let place = free_place(geometry, room);
    let written = slot::write_slot(image, place, block, contents, before);
    let Some(dead) = old else {
        return request::finished(budget, written, before, steps);
    };
    let left = slot::mark_dead(image, dead.place, written);
    request::finished(budget, left, before, steps + 1)
}

// Makes room and writes the slot.
fn put_accepted(
    image: &mut [u8],
    geometry: Geometry,
    plan: Plan,
    total: usize,
    found: Option<FoundSlot>,
    block: BlockNumber,
    contents: &[u8],
    budget: u64,
) -> Performed
    requires { Accepted geometry.segments geometry.slots plan total found block.0 contents.now image.old × (plan.compactions ≤ plan.used) }
    ensures { performed result image.new ≡ outcome_of geometry.segments geometry.slots image.old budget (put block.0 contents.now) }
{
    let room = room::make_room(image, geometry, plan, total, budget);
    if room.left == 0 {
        return request::finished(budget, 0, 0, 1);
    }
    let moved = geometry.slots <= plan.slot;
    let old = old_slot(&image[..], geometry, room, moved, found, block);
    write_block(image, geometry, room, old, block, contents, budget)
}

// A put on a clean image, of which so many slots are live. One of version 1 takes none.
pub fn put_clean(
    image: &mut [u8],
    geometry: Geometry,
    plan: Plan,
    live: usize,
    block: BlockNumber,
    contents: &[u8],
    budget: u64,
) -> Performed
    requires { Puttable geometry.segments geometry.slots plan block.0 contents.now image.old × (live ≡ length (entries_in (view geometry.segments geometry.slots image.old))) × (plan.compactions ≤ plan.used) }
    ensures { performed result image.new ≡ outcome_of geometry.segments geometry.slots image.old budget (put block.0 contents.now) }
{
    let tally = tally::tally_in(&image[..], geometry, put_answers::top_number(plan));
    if tally.former {
        return request::refused(Answer::FormerVersion);
    }
    let found = put_answers::slot_before(&image[..], geometry, plan, live, block);
    let answer = put_answers::put_answer(geometry, plan, live, tally, found);
    let Answer::Done = answer else {
        return request::refused(answer);
    };
    put_accepted(
        image,
        geometry,
        plan,
        tally.count,
        found,
        block,
        contents,
        budget,
    )
}
