// A block looked for, by delete and by both forms of reading.
#![tactic(auto)]

pub mod check;

ghost use Rattle.std.specs.Prelude.{◌≡◌, true};
ghost use Rattle.model.specs.Slot.{number_ok};
ghost use Rattle.room.specs.Room.{Planned};
ghost use Rattle.looking.specs.Look.{Looks};

use find::FoundSlot;
use model::{Answer, BlockNumber, Geometry};
use room::Plan;
use scan::Surveyed;

// Looks for a block in a clean image: its live slot, or why there is none.
fn look_clean(
    image: &[u8],
    geometry: Geometry,
    plan: Plan,
    block: BlockNumber,
) -> Result<FoundSlot, Answer>
    requires { Planned geometry.segments geometry.slots plan image.now × (number_ok block.0 ≡ true) }
    ensures { Looks geometry.segments geometry.slots image.now block.0 result }
{
    let found = find::find(image, geometry, plan.first, plan.used, block);
    found.ok_or(Answer::Absent)
}

// Looks for a block: its live slot, or why there is none.
pub fn look(
    image: &[u8],
    segments: usize,
    slots: usize,
    block: BlockNumber,
) -> Result<FoundSlot, Answer>
    ensures { Looks segments slots image.now block.0 result }
{
    let geometry = Geometry { segments, slots };
    if !request::right_size(image.len(), segments, slots) {
        return Err(Answer::Size);
    }
    if !request::number_ok(block) {
        return Err(Answer::Number);
    }
    let surveyed = scan::survey(image, geometry);
    let Surveyed::Clean {
        first,
        used,
        live: _,
        free,
        compactions,
    } = surveyed
    else {
        return Err(check::state_answer(surveyed));
    };
    let plan = Plan {
        first,
        used,
        slot: free,
        compactions,
    };
    look_clean(image, geometry, plan, block)
}
