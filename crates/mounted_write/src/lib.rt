// The parts of a mounted put (request #102) once room was made: the table mended, the slot written, and its place noted. They
// hold on any image of the plan's length, with any table of places that is long enough.
#![tactic(auto)]

ghost use Rattle.std.specs.Prelude.{◌≡◌, ◌+◌, ◌-◌, ◌*◌, ◌≤◌, length};
ghost use Rattle.model.specs.Steps.{slot_at};
ghost use Rattle.model.specs.Answers.{code_of};
ghost use Rattle.model.specs.Mounted.{least_places, unusable};
ghost use Rattle.flash.specs.Pages.{Sized};
ghost use Rattle.request.specs.Request.{Finished};
ghost use Rattle.places.specs.Places.{entered_from, noted};
ghost use Rattle.put.specs.Writing.{Placed, Wrote};
ghost use Rattle.mounted_write.specs.Continuing.{RoomMade, Continued};

use find::FoundSlot;
use model::{BlockNumber, Geometry, Performed, SegmentNumber};
use room::{Plan, Room};

// Steps were taken, and no more are: the table is not usable, and the answer is 9.
pub fn stop(places: &mut [u32], budget: u64, left: u64) -> Performed
    requires { (least_places ≤ length places.old) × (left ≤ budget) }
    ensures { Finished budget left 0 1 result × (places.new ≡ unusable places.old) }
{
    places[0] = 0;
    request::finished(budget, left, 0, 1)
}

// Enters the segments that room-making took into use: their numbers come after those of the plan. There are none if there
// was room, and an opened one is empty.
pub fn enter_new(image: &[u8], geometry: Geometry, places: &mut [u32], plan: Plan, room: Room)
    requires { Sized geometry.segments geometry.slots (length image.now) × (least_places ≤ length places.old) × (plan.first.0 + plan.used ≤ room.first.0 + room.used) × (room.first.0 + room.used ≤ 4294967295) }
    ensures { places.new ≡ entered_from geometry.segments geometry.slots image.now (room.first.0 + room.used - (plan.first.0 + plan.used)) (plan.first.0 + plan.used) places.old }
{
    let next = plan.first.0 as usize + plan.used;
    let count = room.first.0 as usize + room.used - next;
    places::enter(image, geometry, SegmentNumber(next as u32), count, places);
}

// Writes the slot, marks the old one, and notes the place of the new one.
pub fn write_noted(
    image: &mut [u8],
    geometry: Geometry,
    places: &mut [u32],
    room: Room,
    old: Option<FoundSlot>,
    block: BlockNumber,
    contents: &[u8],
    budget: u64,
) -> Performed
    requires { Placed geometry.segments geometry.slots room old contents.now budget (length image.old) × (least_places ≤ length places.old) }
    ensures { Wrote geometry.segments geometry.slots room old block.0 contents.now budget result image.old image.new × (places.new ≡ noted places.old block.0 (slot_at geometry.segments geometry.slots (room.first.0 + room.used - 1) room.slot * 256) (code_of result.answer)) }
{
    let done = put::write_block(image, geometry, room, old, block, contents, budget);
    let place = put::free_place(geometry, room);
    let answer = done.answer;
    let steps = done.steps;
    places::note(places, block, place.0, answer);
    Performed { answer, steps }
}

// Writes the slot once room was made and the table mended. The block is looked up only now, as it may have moved. In step
// there is a free slot and the table is believed; out of step steps were taken by now, so that nothing is left but to stop.
pub fn write_found(
    image: &mut [u8],
    geometry: Geometry,
    places: &mut [u32],
    room: Room,
    block: BlockNumber,
    contents: &[u8],
    budget: u64,
) -> Performed
    requires { RoomMade geometry.segments geometry.slots room contents.now budget (length image.old) × (least_places ≤ length places.old) }
    ensures { Continued geometry.segments geometry.slots room block.0 contents.now budget result image.old image.new places.old places.new }
{
    let left = room.left;
    if room.slot >= geometry.slots {
        return stop(places, budget, left);
    }
    let Ok(old) = places::look_up(&image[..], geometry.slots, &places[..], block) else {
        return stop(places, budget, left);
    };
    write_noted(image, geometry, places, room, old, block, contents, budget)
}
