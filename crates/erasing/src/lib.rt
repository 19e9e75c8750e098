// Segments erased one after the other.
#![tactic(auto)]

ghost use Rattle.std.specs.Prelude.{length};
ghost use Rattle.model.specs.Steps.{erase_first};
ghost use Rattle.flash.specs.Ran.{Ran};
ghost use Rattle.flash.specs.Pages.{Sized};

use model::Geometry;

// Erases every segment, in order.
pub fn erase_all(image: &mut [u8], geometry: Geometry, budget: u64) -> u64
    requires { Sized geometry.segments geometry.slots (length image.old) }
    ensures { Ran (erase_first geometry.segments) geometry.slots budget result image.old image.new }
{
    let mut left = budget;
    for i in 0..geometry.segments {
        left = flash::erase_segment(image, i, geometry.slots, left);
    }
    left
}
