// A mounted put performed (request #102): room made by a plan, the table mended where compaction has moved blocks, and the
// slot written. It holds on any image of the plan's length, with any table of places that is long enough.
#![tactic(auto)]

ghost use Rattle.std.specs.Prelude.{◌≡◌, ◌≤◌, length, get_or, Ok};
ghost use Rattle.model.specs.Mounted.{least_places};
ghost use Rattle.places.specs.Places.{entry_seen};
ghost use Rattle.room.specs.Room.{Plannable};
ghost use Rattle.mounted_put.specs.Performing.{Performs};

use find::FoundSlot;
use model::{BlockNumber, Geometry, Performed};
use room::{Plan, Room};

// Makes room, mends the table where compaction has moved blocks, and writes the slot.
fn perform_moving(
    image: &mut [u8],
    geometry: Geometry,
    places: &mut [u32],
    plan: Plan,
    total: usize,
    block: BlockNumber,
    contents: &[u8],
    budget: u64,
) -> Performed
    requires { Plannable geometry.segments geometry.slots plan (length image.old) × (least_places ≤ length places.old) × (length contents.now ≤ 248) }
    ensures { Performs geometry.segments geometry.slots plan total block.0 contents.now budget result image.old image.new places.old places.new }
{
    let room = room::make_room(image, geometry, plan, total, budget);
    if room.left == 0 {
        return mounted_write::stop(places, budget, 0);
    }
    mounted_write::enter_new(&image[..], geometry, places, plan, room);
    mounted_write::write_found(image, geometry, places, room, block, contents, budget)
}

// Makes room, writes the slot, and only then marks the old one where it is now. The block's entry becomes the new slot; a cut
// makes the table unusable. Where there is room nothing moves, and what the table said before still holds.
pub fn perform(
    image: &mut [u8],
    geometry: Geometry,
    places: &mut [u32],
    plan: Plan,
    total: usize,
    old: Option<FoundSlot>,
    block: BlockNumber,
    contents: &[u8],
    budget: u64,
) -> Performed
    requires { Plannable geometry.segments geometry.slots plan (length image.old) × (least_places ≤ length places.old) × (length contents.now ≤ 248) × (entry_seen geometry.slots image.old (get_or places.old block.0 0) ≡ Ok old) }
    ensures { Performs geometry.segments geometry.slots plan total block.0 contents.now budget result image.old image.new places.old places.new }
{
    let first = plan.first;
    let slot = plan.slot;
    if slot < geometry.slots {
        if budget > 0 {
            let room = Room {
                first,
                used: plan.used,
                slot,
                left: budget,
            };
            return mounted_write::write_noted(
                image, geometry, places, room, old, block, contents, budget,
            );
        }
    }
    perform_moving(
        image, geometry, places, plan, total, block, contents, budget,
    )
}
