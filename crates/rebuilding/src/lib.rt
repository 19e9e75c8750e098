// The second part of salvage (request #113): a fresh image of any geometry built from the candidates given of an image, whatever
// its damage. The source is only read. Nothing is required of a caller.
#![tactic(auto)]

ghost use Rattle.std.specs.Prelude.{◌≡◌, true, length, ltb};
ghost use Rattle.model.specs.Lists.{count};
ghost use Rattle.model.specs.Chip.{right_size};
ghost use Rattle.model.specs.Answers.{performed};
ghost use Rattle.index.specs.Tables.{most_pages};
ghost use Rattle.salvage.specs.Salvage.{rebuild_outcome};

use meeting::Sheet;
use model::{Answer, Geometry, Performed};

// How many block numbers a table tells a place of.
fn given_count(places: &[u32]) -> usize
    requires { length places.now ≡ most_pages }
    ensures { result ≡ count (λ p. ltb 0 p) places.now }
{
    // Kept: counted in 32 bits, four entries at a time where `filter(..).count()` takes two (docs/PROVING.md, "Speed").
    let mut given: u32 = 0;
    for &place in places {
        if place != 0 {
            given += 1;
        }
    }
    given as usize
}

// The same where both images have a right size. Whether the target holds all block numbers is asked before its first erase;
// how many candidates there are does not matter.
fn restore(
    source: &[u8],
    geometry: Geometry,
    target: &mut [u8],
    target_geometry: Geometry,
    budget: u64,
) -> Performed
    requires { (right_size geometry.segments geometry.slots source.now ≡ true) × (right_size target_geometry.segments target_geometry.slots target.old ≡ true) }
    ensures { performed result target.new ≡ rebuild_outcome geometry.segments geometry.slots source.now target_geometry.segments target_geometry.slots target.old budget }
{
    let mut sheet = Sheet {
        places: [0; 65536],
        lengths: [0; 65536],
        differs: [false; 65536],
    };
    candidates::gather(source, geometry, &mut sheet);
    if request::capacity(target_geometry.segments, target_geometry.slots)
        < given_count(&sheet.places)
    {
        return request::refused(Answer::Full);
    }
    fresh::build(source, &sheet.places, target, target_geometry, budget)
}

// Builds a fresh image from the candidates given of another: formatted, then each block put by rising number.
pub fn rebuild(
    source: &[u8],
    segments: usize,
    slots: usize,
    target: &mut [u8],
    target_segments: usize,
    target_slots: usize,
    budget: u64,
) -> Performed
    ensures { performed result target.new ≡ rebuild_outcome segments slots source.now target_segments target_slots target.old budget }
{
    let geometry = Geometry { segments, slots };
    let target_geometry = Geometry {
        segments: target_segments,
        slots: target_slots,
    };
    if !request::right_size(source.len(), segments, slots) {
        return request::refused(Answer::Size);
    }
    if !request::right_size(target.len(), target_segments, target_slots) {
        return request::refused(Answer::Size);
    }
    restore(source, geometry, target, target_geometry, budget)
}
