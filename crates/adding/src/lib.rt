// The pages of live slots added to a fresh image one after the other (request #106).
#![tactic(auto)]

ghost use Rattle.std.specs.Prelude.{◌≡◌, length};
ghost use Rattle.model.specs.Slot.{slot_of, entry_of};
ghost use Rattle.adding.specs.Adding.{Going, LivePage, Opened, Added};

use model::{Geometry, SegmentNumber, SlotPlace};

// How many steps open a segment, and how many write a slot besides one for each byte of contents.
pub const OPENING: u64 = 21;

const SLOT_STEPS: u64 = 5;

// How far the writing has come: the top, how many of its slots are still empty, what is left of the budget, and how many steps
// the list has so far. Those are counted though the budget covers none of them: only so is it known at the end that it was cut.
#[derive(Clone, Copy)]
pub struct Progress {
    pub top: SegmentNumber,
    pub free: usize,
    pub left: u64,
    pub steps: u64,
}

// A top with an empty slot. The next segment is opened only here, where an entry needs it: no empty one is left at the end.
// A fresh image has no recovery's erase to tell, so that the total is 0 whatever the source's is.
fn next_slot(target: &mut [u8], geometry: Geometry, at: Progress) -> Progress
    requires { Going geometry.segments geometry.slots at (length target.old) }
    ensures { Opened geometry.segments geometry.slots at result target.old target.new }
{
    if at.free > 0 {
        return at;
    }
    let top = SegmentNumber(at.top.0 + 1);
    let left = header_steps::open_header(target, geometry, 0, top, at.left);
    Progress {
        top,
        free: geometry.slots,
        left,
        steps: at.steps + OPENING,
    }
}

// Writes the page of a live slot to the next slot. It is programmed as it lies in the source: a live slot's bytes are those
// that its block and contents would make up again. Whether all fit is asked before; were there too many, segments would be
// taken in turn again, and the place lies inside the image all the same.
pub fn add(target: &mut [u8], geometry: Geometry, page: &[u8], from: Progress) -> Progress
    requires { Going geometry.segments geometry.slots from (length target.old) × LivePage page.now }
    ensures { Added geometry.segments geometry.slots (entry_of (slot_of page.now)) from result target.old target.new }
{
    let at = next_slot(target, geometry, from);
    let top = at.top;
    let first = find::first_slot(geometry, top);
    let place = SlotPlace(first.0 + (geometry.slots - at.free) * 256);
    let length = usize::from(page[1]);
    let left = slot::write_page(target, place, page, length, at.left);
    Progress {
        top,
        free: at.free - 1,
        left,
        steps: at.steps + SLOT_STEPS + length as u64,
    }
}
