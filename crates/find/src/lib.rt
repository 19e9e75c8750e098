// The search for a block: segment by segment, oldest first, and slot by slot, up to the first live slot that holds it.
#![tactic(auto)]

ghost use Rattle.std.specs.Prelude.{◌≡◌, ◌+◌, ◌*◌, ◌<◌, ◌≤◌, length};
ghost use Rattle.model.specs.Steps.{slot_at};
ghost use Rattle.flash.specs.Pages.{Sized};
ghost use Rattle.find.specs.Search.{may_hold, rows_at, found_in};

use model::{BlockNumber, Geometry, SegmentNumber, SlotKind, SlotPlace};
use slot::WRITTEN;

// A live slot: where it is, and the length of its contents.
#[derive(Clone, Copy)]
pub struct FoundSlot {
    pub place: SlotPlace,
    pub length: usize,
}

// The place of the first slot of the segment with a number.
pub fn first_slot(geometry: Geometry, number: SegmentNumber) -> SlotPlace
    requires { (0 < geometry.segments) × (geometry.segments ≤ 255) × (geometry.slots ≤ 255) }
    ensures { result.0 ≡ slot_at geometry.segments geometry.slots number.0 0 * 256 }
{
    let index = number.0 as usize % geometry.segments;
    let at = (index * (geometry.slots + 1) + 1) * 256;
    SlotPlace(at)
}

// Whether the status and the number in a slot are those of a live slot of a block. Three bytes pass over most slots; the
// others of a slot that passes may still not fit.
fn may_hold(page: &[u8], block: BlockNumber) -> bool
    requires { length page.now ≡ 256 }
    ensures { result ≡ may_hold page.now block.0 }
{
    if page[0] != WRITTEN {
        return false;
    }
    if page[2] != (block.0 % 256) as u8 {
        return false;
    }
    page[3] == (block.0 / 256) as u8
}

// The first live slot of a block in the segments with some numbers, from the first of them on. It goes by the slots as
// they stand, whatever the headers say.
pub fn find(
    image: &[u8],
    geometry: Geometry,
    first: SegmentNumber,
    used: usize,
    block: BlockNumber,
) -> Option<FoundSlot>
    requires { Sized geometry.segments geometry.slots (length image.now) × (first.0 + used ≤ 4294967296) }
    ensures { result ≡ found_in geometry.segments geometry.slots first.0 (rows_at geometry.segments geometry.slots image.now used first.0) block.0 }
{
    let mut found = None;
    'segments: for turn in 0..used {
        let number = first.0 + turn as u32;
        let from = first_slot(geometry, SegmentNumber(number));
        for slot in 0..geometry.slots {
            let at = from.0 + slot * 256;
            let next = at + 256;
            let page = &image[at..next];
            if !may_hold(page, block) {
                continue;
            }
            let kind = slot::slot_kind(page);
            let SlotKind::Live {
                length,
                block: held,
            } = kind
            else {
                continue;
            };
            if held.0 == block.0 {
                found = Some(FoundSlot {
                    place: SlotPlace(at),
                    length,
                });
                break 'segments;
            }
        }
    }
    found
}
