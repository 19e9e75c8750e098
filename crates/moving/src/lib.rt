// Moving to another chip (request #106): from a clean image a fresh one of another geometry with the same table of blocks is built
// in a second buffer. The source is only read. Nothing is required of a caller.
#![tactic(auto)]

ghost use Rattle.std.specs.Prelude.{◌≡◌};
ghost use Rattle.model.specs.Answers.{performed};
ghost use Rattle.moves.specs.Moves.{move_outcome};
ghost use Rattle.moving.specs.Moving.{Carriable};

use model::{Answer, Geometry, Performed, SegmentNumber};
use places::LEAST_PLACES;
use scan::Surveyed;

// Builds the target, which holds as many blocks as the source has. The table of places is 256 KiB of stack: with it each slot of
// the source is met once, and each block number once, whatever their order.
fn carry(
    source: &[u8],
    geometry: Geometry,
    first: SegmentNumber,
    used: usize,
    target: &mut [u8],
    target_geometry: Geometry,
    budget: u64,
) -> Performed
    requires { Carriable geometry.segments geometry.slots source.now first.0 used target_geometry.segments target_geometry.slots target.old }
    ensures { performed result target.new ≡ move_outcome geometry.segments geometry.slots source.now target_geometry.segments target_geometry.slots target.old budget }
{
    let mut places = [0u32; LEAST_PLACES];
    places::fill(source, geometry, first, used, &mut places);
    fresh::build(source, &places, target, target_geometry, budget)
}

// Moves the blocks of a clean image to another chip. All that can be refused is refused before the first erase; an image of
// version 1 is taken as well as one of version 2.
pub fn move_to(
    source: &[u8],
    segments: usize,
    slots: usize,
    target: &mut [u8],
    target_segments: usize,
    target_slots: usize,
    budget: u64,
) -> Performed
    ensures { performed result target.new ≡ move_outcome segments slots source.now target_segments target_slots target.old budget }
{
    let geometry = Geometry { segments, slots };
    let target_geometry = Geometry {
        segments: target_segments,
        slots: target_slots,
    };
    if !request::right_size(source.len(), segments, slots) {
        return request::refused(Answer::Size);
    }
    if !request::right_size(target.len(), target_segments, target_slots) {
        return request::refused(Answer::Size);
    }
    let surveyed = scan::survey(source, geometry);
    let Surveyed::Clean {
        first,
        used,
        live,
        ..
    } = surveyed
    else {
        return request::refused(looking::check::state_answer(surveyed));
    };
    if request::capacity(target_segments, target_slots) < live {
        return request::refused(Answer::Full);
    }
    carry(
        source,
        geometry,
        first,
        used,
        target,
        target_geometry,
        budget,
    )
}
