// The walk over the segments in use, from the top down. The numbers of those that are left lie in a table by index, one more
// each, and 0 for a segment that is not in use or was walked over; the next is the largest, whatever the others are.
#![tactic(auto)]

ghost use Rattle.std.specs.Prelude.{◌≡◌, ◌≤◌, length, take};
ghost use Rattle.model.specs.Chip.{most_segments};
ghost use Rattle.descent.specs.Descent.{largest};

use model::MOST_SEGMENTS;

pub fn largest(left: &[usize; MOST_SEGMENTS], segments: usize) -> usize
    requires { (segments ≤ most_segments) × (length left.now ≡ most_segments) }
    ensures { result ≡ largest (take segments left.now) }
{
    let mut most: usize = 0;
    for i in 0..segments {
        most = most.max(left[i]);
    }
    most
}
