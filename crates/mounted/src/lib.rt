// The mounted form of put and delete (request #102): a table of places, lent by the caller and filled once from a clean image,
// takes the place of the pass over the image. Nothing is required of a caller: what a call may do with a table that is not
// the image's stands in its contract.
//
// The form that document 01 names for it: a `&mut [u32]` kept equal to the scan's answers by put and delete.
#![tactic(auto)]

ghost use Rattle.std.specs.Prelude.{◌≡◌, length};
ghost use Rattle.model.specs.Answers.{performed};
ghost use Rattle.model.specs.Mounted.{MountedPut, MountedDelete};
ghost use Rattle.mounted.specs.Puts.{Puts};
ghost use Rattle.mounted.specs.Marks.{EntryInside, MarkedEntry};

use find::FoundSlot;
use model::{Answer, BlockNumber, Geometry, Performed};
use mounted_plan::PutPlan;
use places::Stale;

// Puts a block, where nothing has refused it yet: decided from the image's status bytes, then performed.
fn put_block(
    image: &mut [u8],
    segments: usize,
    slots: usize,
    places: &mut [u32],
    old: Option<FoundSlot>,
    block: BlockNumber,
    contents: &[u8],
    budget: u64,
) -> Performed
    requires { Puts segments slots old block.0 contents.now image.old places.old }
    ensures { MountedPut segments slots block.0 contents.now budget (performed result image.new) image.old places.old places.new }
{
    let geometry = Geometry { segments, slots };
    let decision = mounted_plan::decide(&image[..], geometry, old.is_none());
    match decision {
        Err(answer) => request::refused(answer),
        Ok(PutPlan { plan, total }) => mounted_put::perform(
            image, geometry, places, plan, total, old, block, contents, budget,
        ),
    }
}

// Stores contents under a block number. The image's status bytes say where there is room, and the table where the block's old
// slot is; the entries of blocks that a compaction moves are mended.
pub fn put(
    image: &mut [u8],
    segments: usize,
    slots: usize,
    places: &mut [u32],
    block: BlockNumber,
    contents: &[u8],
    budget: u64,
) -> Performed
    ensures { MountedPut segments slots block.0 contents.now budget (performed result image.new) image.old places.old places.new }
{
    let taken = request::length_ok(contents.len());
    let refused = mounted_read::refusal(&image[..], segments, slots, &places[..], block, taken);
    let Answer::Done = refused else {
        return request::refused(refused);
    };
    let Ok(old) = places::look_up(&image[..], slots, &places[..], block) else {
        return request::refused(Answer::Damaged);
    };
    put_block(image, segments, slots, places, old, block, contents, budget)
}

// Marks the slot that an entry tells of.
fn mark_entry(image: &mut [u8], entry: Result<Option<FoundSlot>, Stale>, budget: u64) -> Performed
    requires { EntryInside entry (length image.old) }
    ensures { MarkedEntry entry budget result image.old image.new }
{
    match entry {
        Ok(Some(old)) => mend::mark_slot(image, old.place, budget),
        Ok(None) => request::refused(Answer::Absent),
        Err(Stale) => request::refused(Answer::Damaged),
    }
}

// Deletes a block: its slot is marked dead where the table says it is, and its entry is 0.
pub fn delete(
    image: &mut [u8],
    segments: usize,
    slots: usize,
    places: &mut [u32],
    block: BlockNumber,
    budget: u64,
) -> Performed
    ensures { MountedDelete segments slots block.0 budget (performed result image.new) image.old places.old places.new }
{
    let refused = mounted_read::refusal(&image[..], segments, slots, &places[..], block, true);
    let Answer::Done = refused else {
        return request::refused(refused);
    };
    let entry = places::look_up(&image[..], slots, &places[..], block);
    let done = mark_entry(image, entry, budget);
    let answer = done.answer;
    let steps = done.steps;
    places::note(places, block, 0, answer);
    Performed { answer, steps }
}
