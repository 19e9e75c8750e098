// The table of places by block number (request #102): looked up, entered by a walk over slots, filled, and noted after a call.
#![tactic(auto)]

ghost use Rattle.std.specs.Prelude.{◌≡◌, ◌+◌, ◌*◌, ◌≤◌, ◌<◌, length, get_or, drop};
ghost use Rattle.model.specs.Lists.{chunk};
ghost use Rattle.model.specs.Chip.{most_slots};
ghost use Rattle.model.specs.State.{view};
ghost use Rattle.model.specs.Answers.{code_of};
ghost use Rattle.model.specs.Mounted.{least_places, filled_places};
ghost use Rattle.flash.specs.Pages.{Sized};
ghost use Rattle.places.specs.Places.{entry_seen, entered, entered_from, noted, Fillable};

use find::FoundSlot;
use model::{Answer, BlockNumber, Geometry, SegmentNumber, SlotPlace};
use slot::WRITTEN;

// The entries that a table has at least; `least_places` in specs/.
pub const LEAST_PLACES: usize = 65536;

// The status of a slot that nothing was written to.
const UNWRITTEN: u8 = 255;

// The most bytes of contents in a slot.
const MOST_CONTENTS: usize = 248;

// An entry says what cannot be: the table is not that of the image.
#[derive(Clone, Copy)]
pub struct Stale;

// ---- looked up

// The slot that the entry of a block tells of; none, if the block is not stored. An entry is believed if it is the place of
// some slot, with a length that fits one.
pub fn look_up(
    image: &[u8],
    slots: usize,
    places: &[u32],
    block: BlockNumber,
) -> Result<Option<FoundSlot>, Stale>
    requires { (slots ≤ most_slots) × (least_places ≤ length places.now) }
    ensures { result ≡ entry_seen slots image.now (get_or places.now block.0 0) }
{
    let at = places[block.0 as usize];
    if at == 0 {
        return Ok(None);
    }
    if at % 256 != 0 {
        return Err(Stale);
    }
    if at / 256 % (slots as u32 + 1) == 0 {
        return Err(Stale);
    }
    let place = at as usize;
    if image.len() < place + 256 {
        return Err(Stale);
    }
    let length = usize::from(image[place + 1]);
    if length > MOST_CONTENTS {
        return Err(Stale);
    }
    Ok(Some(FoundSlot {
        place: SlotPlace(place),
        length,
    }))
}

// ---- entered

// Enters the live slots of one segment, from the first of them on: the entry of each one's block becomes its place. They
// end with the first slot that nothing was written to.
fn enter_slots(image: &[u8], slots: usize, from: SlotPlace, places: &mut [u32])
    requires { (from.0 + slots * 256 ≤ length image.now) × (length image.now ≤ 4294967296) × (least_places ≤ length places.old) }
    ensures { places.new ≡ entered from.0 (chunk slots 256 (drop from.0 image.now)) places.old }
{
    let start = from.0;
    for slot in 0..slots {
        let at = start + slot * 256;
        let status = image[at];
        if status == UNWRITTEN {
            return;
        }
        if status != WRITTEN {
            continue;
        }
        let block = u16::from_le_bytes([image[at + 2], image[at + 3]]);
        places[block as usize] = at as u32;
    }
}

// Enters the live slots of the segments with some numbers. It goes by statuses as they stand.
pub fn enter(
    image: &[u8],
    geometry: Geometry,
    first: SegmentNumber,
    count: usize,
    places: &mut [u32],
)
    requires { Sized geometry.segments geometry.slots (length image.now) × (first.0 + count ≤ 4294967296) × (least_places ≤ length places.old) }
    ensures { places.new ≡ entered_from geometry.segments geometry.slots image.now count first.0 places.old }
{
    for turn in 0..count {
        let number = first.0 + turn as u32;
        let from = find::first_slot(geometry, SegmentNumber(number));
        enter_slots(image, geometry.slots, from, places);
    }
}

// ---- filled

// Fills a table from a clean image: entry 0 is 1, those of blocks that are not stored are 0.
pub fn fill(image: &[u8], geometry: Geometry, first: SegmentNumber, used: usize, places: &mut [u32])
    requires { Fillable geometry.segments geometry.slots image.now first.0 used × (least_places ≤ length places.old) }
    ensures { places.new ≡ filled_places geometry.segments geometry.slots (view geometry.segments geometry.slots image.now) places.old }
{
    places[..LEAST_PLACES].fill(0);
    places[0] = 1;
    enter(image, geometry, first, used, places);
}

// ---- noted

// The table after a call for a block: done, its entry is the slot's place, or 0; cut, the table is not usable; refused, it
// stays as it is.
pub fn note(places: &mut [u32], block: BlockNumber, place: usize, answer: Answer)
    requires { (least_places ≤ length places.old) × (place < 4294967296) }
    ensures { places.new ≡ noted places.old block.0 place (code_of answer) }
{
    match answer {
        Answer::Done => places[block.0 as usize] = place as u32,
        Answer::Cut => places[0] = 0,
        _ => {}
    }
}
