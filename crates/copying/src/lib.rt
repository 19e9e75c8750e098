// The live slots of one segment copied to another under a budget.
#![tactic(auto)]

ghost use Rattle.std.specs.Prelude.{length};
ghost use Rattle.flash.specs.Pages.{Sized};
ghost use Rattle.live_slots.specs.Live.{Apart, Copied};

use model::{Geometry, SegmentNumber, SlotKind, SlotPlace};

// What is left of the budget, and how many live slots the old segment has, copied or not for want of budget.
#[derive(Clone, Copy)]
pub struct Compacted {
    pub left: u64,
    pub copied: usize,
}

// Writes each live slot of an old segment, in slot order, to the next slot of the one that a number belongs to.
pub fn copy_live(
    image: &mut [u8],
    geometry: Geometry,
    old: SegmentNumber,
    number: SegmentNumber,
    budget: u64,
) -> Compacted
    requires { Sized geometry.segments geometry.slots (length image.old) × Apart geometry.segments old.0 number.0 }
    ensures { Copied geometry.segments geometry.slots old.0 number.0 budget result.left result.copied image.old image.new }
{
    let source = live_slots::index_of(geometry.segments, old);
    let target = live_slots::index_of(geometry.segments, number);
    let from = live_slots::slots_place(source, geometry.slots);
    let start = live_slots::slots_place(target, geometry.slots);
    let end = start + geometry.slots * 256;
    let mut left = budget;
    let mut copied = 0;
    for slot in 0..geometry.slots {
        let at = from + slot * 256;
        let next = at + 256;
        // Most slots that are not live are told by their status: their kind is not asked for.
        if image[at] != slot::WRITTEN {
            continue;
        }
        let SlotKind::Live { length, block: _ } = slot::slot_kind(&image[at..next]) else {
            continue;
        };
        let page = live_slots::page_of(&image[at..next]);
        let place = SlotPlace(copied * 256);
        left = slot::write_page(&mut image[start..end], place, &page, length, left);
        copied += 1;
    }
    Compacted { left, copied }
}
