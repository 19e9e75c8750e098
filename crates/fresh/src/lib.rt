// A fresh image built from the live slots that a table of places tells (request #106).
#![tactic(auto)]

ghost use Rattle.std.specs.Prelude.{◌≡◌, true, ◌++◌};
ghost use Rattle.model.specs.Chip.{right_size};
ghost use Rattle.model.specs.Steps.{format_steps};
ghost use Rattle.model.specs.Answers.{performed, worked};
ghost use Rattle.moves.specs.Placed.{placed};
ghost use Rattle.fresh.specs.Fresh.{listed, Pointing};

use adding::{OPENING, Progress};
use model::{Geometry, Performed, SegmentNumber};
use places::LEAST_PLACES;

// Builds a fresh image from the live slots of another that a table of places tells: formatted, then each written by rising
// block number. Once the budget is used up the rest does nothing.
pub fn build(
    source: &[u8],
    places: &[u32],
    target: &mut [u8],
    geometry: Geometry,
    budget: u64,
) -> Performed
    requires { (right_size geometry.segments geometry.slots target.old ≡ true) × Pointing source.now places.now }
    ensures { performed result target.new ≡ worked geometry.slots (record { code = 0; steps = format_steps geometry.segments geometry.slots ++ placed geometry.segments geometry.slots 0 0 (listed source.now places.now 1 65535) }) target.old budget }
{
    let formatted = store::format(target, geometry.segments, geometry.slots, budget);
    let mut at = Progress {
        top: SegmentNumber(0),
        free: geometry.slots,
        left: budget - formatted.steps,
        steps: geometry.segments as u64 + OPENING,
    };
    // Kept: the number jumps over the entries that are empty, and a `for` over all of them is slower (docs/PROVING.md, "Speed").
    let mut block: usize = 1;
    while block < LEAST_PLACES {
        let place = places[block] as usize;
        block += 1;
        if place == 0 {
            block = skipping::pass_empty(places, block);
            continue;
        }
        let end = place + 256;
        at = adding::add(target, geometry, &source[place..end], at);
    }
    request::finished(budget, at.left, budget, at.steps)
}
