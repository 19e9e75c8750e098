// What a put must know of the slots of an image, found by looking at their status bytes alone (request #102): of any image it
// is in bounds, and of a clean one it is what the definitions say.
#![tactic(auto)]

ghost use Rattle.std.specs.Prelude.{◌≡◌, ◌+◌, ◌*◌, ◌<◌, ◌≤◌, min, length, leb};
ghost use mathlib.Core.List.{flatten};
ghost use Rattle.model.specs.Lists.{count};
ghost use Rattle.model.specs.Steps.{slot_at};
ghost use Rattle.flash.specs.Pages.{Sized};
ghost use Rattle.plan.specs.Statuses.{status_row, status_rows, is_marked, none_marked, first_marked, not_live, FreeFrom};

use model::{Geometry, SegmentNumber};
use slot::{CUT, DEAD, WRITTEN};

// What an erase leaves.
const ERASED: u8 = 255;

// ---- the slots of one segment

// The offset of the first slot of the segment with a number.
fn first_slot(geometry: Geometry, number: SegmentNumber) -> usize
    requires { (0 < geometry.segments) × (geometry.segments ≤ 255) × (geometry.slots ≤ 255) }
    ensures { result ≡ slot_at geometry.segments geometry.slots number.0 0 * 256 }
{
    find::first_slot(geometry, number).0
}

// The first slot of the segment with a number whose status is erased, by halving; the count of slots, if none is.
pub fn first_free(image: &[u8], geometry: Geometry, number: SegmentNumber) -> usize
    requires { Sized geometry.segments geometry.slots (length image.now) }
    ensures { FreeFrom geometry.segments geometry.slots number.0 image.now result }
{
    let from = first_slot(geometry, number);
    // Kept: halving; the statuses lie 256 bytes apart, in no slice for `partition_point`.
    let mut low = 0;
    let mut high = geometry.slots;
    while low < high {
        let middle = (low + high) / 2;
        if image[from + middle * 256] == ERASED {
            high = middle;
            continue;
        }
        low = middle + 1;
    }
    low
}

#[tactic(auto, unfolding(crate::specs::Statuses::is_marked))]
fn is_marked(status: u8) -> bool
    ensures { result ≡ is_marked status }
{
    status == DEAD || status == CUT
}

// Whether no slot of the segment with a number has the status of a dead one.
fn none_marked(image: &[u8], geometry: Geometry, number: SegmentNumber) -> bool
    requires { Sized geometry.segments geometry.slots (length image.now) }
    ensures { result ≡ none_marked (status_row geometry.segments geometry.slots image.now number.0) }
{
    let from = first_slot(geometry, number);
    for slot in 0..geometry.slots {
        if is_marked(image[from + slot * 256]) {
            return false;
        }
    }
    true
}

// How many slots of the segment with a number are not live by their status, counted on from those of earlier segments, and
// no further than to 2.
fn count_not_live(image: &[u8], geometry: Geometry, number: SegmentNumber, earlier: usize) -> usize
    requires { Sized geometry.segments geometry.slots (length image.now) × (earlier ≤ 1) }
    ensures { result ≡ min 2 (earlier + count not_live (status_row geometry.segments geometry.slots image.now number.0)) }
{
    let from = first_slot(geometry, number);
    let mut found = earlier;
    for slot in 0..geometry.slots {
        let status = image[from + slot * 256];
        if status == WRITTEN {
            continue;
        }
        found += 1;
        if found > 1 {
            return found;
        }
    }
    found
}

// ---- the slots of the segments with some numbers

// How many compactions would make room: the place, from 1, of the first segment, by number, that has a slot with the status
// of a dead one; the count of segments, if none has.
pub fn compactions(image: &[u8], geometry: Geometry, first: SegmentNumber, used: usize) -> usize
    requires { Sized geometry.segments geometry.slots (length image.now) × (first.0 + used ≤ 4294967296) }
    ensures { result ≡ first_marked (status_rows geometry.segments geometry.slots image.now used first.0) }
{
    for turn in 0..used {
        let number = SegmentNumber(first.0 + turn as u32);
        if !none_marked(image, geometry, number) {
            return turn + 1;
        }
    }
    used
}

// Whether at most one slot of these segments is not live by its status.
pub fn is_crowded(image: &[u8], geometry: Geometry, first: SegmentNumber, used: usize) -> bool
    requires { Sized geometry.segments geometry.slots (length image.now) × (first.0 + used ≤ 4294967296) }
    ensures { result ≡ leb (count not_live (flatten (status_rows geometry.segments geometry.slots image.now used first.0))) 1 }
{
    let mut found = 0;
    for turn in 0..used {
        let number = SegmentNumber(first.0 + turn as u32);
        found = count_not_live(image, geometry, number, found);
        if found > 1 {
            return false;
        }
    }
    true
}
