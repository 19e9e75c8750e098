// The mount (request #102): a table of places, lent by the caller, filled from a clean image. Nothing is required of a caller.
#![tactic(auto)]

ghost use Rattle.std.specs.Prelude.{◌≡◌};
ghost use Rattle.model.specs.Mounted.{mounted_as, mount_outcome};

use model::{Answer, Geometry};
use places::LEAST_PLACES;
use scan::Surveyed;

// Fills a table of places from a clean image.
pub fn mount(image: &[u8], segments: usize, slots: usize, places: &mut [u32]) -> Answer
    ensures { mounted_as result places.new ≡ mount_outcome segments slots image.now places.old }
{
    let geometry = Geometry { segments, slots };
    if !request::right_size(image.len(), segments, slots) {
        return Answer::Size;
    }
    if places.len() < LEAST_PLACES {
        return Answer::ShortTable;
    }
    let surveyed = scan::survey(image, geometry);
    let Surveyed::Clean { first, used, .. } = surveyed else {
        places[0] = 0;
        return looking::check::state_answer(surveyed);
    };
    places::fill(image, geometry, first, used, places);
    Answer::Done
}
