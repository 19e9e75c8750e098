// The segments that salvage looks at (request #113), by their numbers: those in use, and where the top is owing, the one after
// it is left aside.
#![tactic(auto)]

ghost use Rattle.std.specs.Prelude.{◌≡◌, map, ◌<◌, length, get_or, take};
ghost use Rattle.model.specs.Chip.{most_segments};
ghost use Rattle.model.specs.State.{blank, number_after, segments_of};
ghost use Rattle.flash.specs.Pages.{Sized};
ghost use Rattle.salvage.specs.Salvage.{regarded};

use model::{Geometry, MOST_SEGMENTS};

// One more than the number of the segment at an index, or 0 if its header is not one in use.
fn number_at(image: &[u8], geometry: Geometry, index: usize) -> usize
    requires { Sized geometry.segments geometry.slots (length image.now) × (index < geometry.segments) }
    ensures { result ≡ number_after (get_or (segments_of geometry.segments geometry.slots image.now) index blank) }
{
    let at = index * (geometry.slots + 1) * 256;
    let end = at + 256;
    let Some(seen) = header_seen::see_header(&image[at..end], geometry, index) else {
        return 0;
    };
    seen.number.0 as usize + 1
}

// The same of each segment, by index.
fn numbers(image: &[u8], geometry: Geometry) -> [usize; MOST_SEGMENTS]
    requires { Sized geometry.segments geometry.slots (length image.now) }
    ensures { (take geometry.segments result ≡ map number_after (segments_of geometry.segments geometry.slots image.now)) × (length result ≡ most_segments) }
{
    let mut left = [0usize; MOST_SEGMENTS];
    for i in 0..geometry.segments {
        left[i] = number_at(image, geometry, i);
    }
    left
}

// The same of those that are looked at. The top is the one with the largest number of all that are in use.
pub fn regarded(image: &[u8], geometry: Geometry) -> [usize; MOST_SEGMENTS]
    requires { Sized geometry.segments geometry.slots (length image.now) }
    ensures { (take geometry.segments result ≡ map number_after (regarded geometry.segments (segments_of geometry.segments geometry.slots image.now))) × (length result ≡ most_segments) }
{
    let mut left = numbers(image, geometry);
    let next = descent::largest(&left, geometry.segments);
    if next == 0 {
        return left;
    }
    let top = (next - 1) % geometry.segments;
    if image[top * (geometry.slots + 1) * 256 + 5] == header::ERASE_PENDING {
        left[next % geometry.segments] = 0;
    }
    left
}
