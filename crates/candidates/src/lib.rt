// The candidates of an image by block number (request #113), gathered in one walk over the segments that are looked at, from
// the highest number down and in each from the last slot up.
#![tactic(auto)]

ghost use Rattle.std.specs.Prelude.{◌≡◌, true, false, length, replicate};
ghost use Rattle.model.specs.Chip.{right_size};
ghost use Rattle.model.specs.State.{segments_of};
ghost use Rattle.flash.specs.Pages.{Sized};
ghost use Rattle.salvage.specs.Salvage.{candidates};
ghost use Rattle.meeting.specs.Sheet.{Within};
ghost use Rattle.candidates.specs.Gathered.{met_all, Gathered};

use meeting::Sheet;
use model::Geometry;

// The candidates met, from the last one on.
// Kept: the next is the largest number that is left, which no range tells.
fn walk(image: &[u8], geometry: Geometry, sheet: &mut Sheet)
    requires { Sized geometry.segments geometry.slots (length image.now) × Within sheet.old.places (length image.now) }
    ensures { sheet.new ≡ met_all image.now geometry.slots (candidates geometry.segments (segments_of geometry.segments geometry.slots image.now)) sheet.old }
{
    let mut left = regard::regarded(image, geometry);
    let mut top = descent::largest(&left, geometry.segments);
    while top > 0 {
        let index = (top - 1) % geometry.segments;
        meeting::meet_row(image, index * (geometry.slots + 1), geometry.slots, sheet);
        left[index] = 0;
        top = descent::largest(&left, geometry.segments);
    }
}

// The candidates of an image, whatever its damage, in tables that hold none yet.
pub fn gather(image: &[u8], geometry: Geometry, sheet: &mut Sheet)
    requires { (right_size geometry.segments geometry.slots image.now ≡ true) × (sheet.old.places ≡ replicate 65536 0) × (sheet.old.lengths ≡ replicate 65536 0) × (sheet.old.differs ≡ replicate 65536 false) }
    ensures { Gathered geometry.segments geometry.slots image.now sheet.new }
{
    walk(image, geometry, sheet);
}
