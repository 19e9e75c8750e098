// Compaction of one segment under a budget (document 01: tidying).
#![tactic(auto)]

ghost use Rattle.std.specs.Prelude.{length};
ghost use Rattle.flash.specs.Pages.{Sized};
ghost use Rattle.live_slots.specs.Live.{Apart};
ghost use Rattle.compact.specs.Compaction.{Compaction};

use copying::Compacted;
use model::{Geometry, SegmentNumber};

// Compacts an old segment into the one that a number belongs to: the target is begun, the live slots are copied, the
// target is in use, with this total of recoveries' erases, and only then is the old segment erased.
pub fn compact_segment(
    image: &mut [u8],
    geometry: Geometry,
    total: usize,
    old: SegmentNumber,
    number: SegmentNumber,
    budget: u64,
) -> Compacted
    requires { Sized geometry.segments geometry.slots (length image.old) × Apart geometry.segments old.0 number.0 }
    ensures { Compaction geometry.segments geometry.slots total old.0 number.0 budget result.left result.copied image.old image.new }
{
    let begun = header_steps::begin_compaction(image, geometry, total, old, number, budget);
    let copy = copying::copy_live(image, geometry, old, number, begun);
    let pending = header_steps::finish_copy(image, geometry, total, old, number, copy.left);
    let erased = flash::erase_segment(
        image,
        live_slots::index_of(geometry.segments, old),
        geometry.slots,
        pending,
    );
    let left = header_steps::settle(image, geometry, number, erased);
    Compacted {
        left,
        copied: copy.copied,
    }
}
