// How many blocks of a range of numbers a clean image stores, and whether it stores one block (request #110): one walk over the
// slots in use, by their statuses and block numbers.
#![tactic(auto)]

ghost use Rattle.std.specs.Prelude.{◌≡◌, cond, ◌&&◌, ◌+◌, ◌*◌, ◌≤◌, ◌<◌, length, drop};
ghost use Rattle.model.specs.Lists.{chunk};
ghost use Rattle.model.specs.State.{holds};
ghost use Rattle.model.specs.Table.{live_between, table_of};
ghost use Rattle.places.specs.Places.{Fillable};
ghost use Rattle.counting.specs.Count.{most_met, numbers_in, in_range, meet, meet_all};

use model::{BlockNumber, Geometry, SegmentNumber, SlotPlace};
use slot::WRITTEN;

// The status of a slot that nothing was written to.
const UNWRITTEN: u8 = 255;

// What is looked for: the blocks of a range of numbers, its first and its last among them, and one block. Any numbers will do: a
// range that ends before it begins has no block.
#[derive(Clone, Copy)]
pub struct Sought {
    pub first: BlockNumber,
    pub last: BlockNumber,
    pub block: BlockNumber,
}

// How many blocks of the range were met, and whether the one was.
#[derive(Clone, Copy)]
pub struct Met {
    pub blocks: usize,
    pub stored: bool,
}

// Whether a slot counts: it is live, and its block number is in the range. Live and dead slots come in no order, nor do block numbers,
// so that no branch on them could be guessed: here and in `meet` every test is made of every slot.
fn counts(sought: Sought, live: bool, block: u16) -> bool
    ensures { result ≡ (live && in_range sought block) }
{
    live & ((sought.first.0 <= block) & (block <= sought.last.0))
}

// One slot more, by its block number if it is live.
fn meet(sought: Sought, met: Met, live: bool, block: u16) -> Met
    requires { met.blocks < most_met }
    ensures { result ≡ cond live (meet sought met block) met }
{
    let counted = counts(sought, live, block);
    let mut blocks = met.blocks;
    if counted {
        blocks += 1;
    }
    Met {
        blocks,
        stored: met.stored | (live & (sought.block.0 == block)),
    }
}

// The slots of one segment, from the first of them on, up to the first that nothing was written to. It looks at three bytes of each.
fn meet_slots(image: &[u8], slots: usize, from: SlotPlace, sought: Sought, before: Met) -> Met
    requires { (from.0 + slots * 256 ≤ length image.now) × (before.blocks + slots ≤ most_met) }
    ensures { (result ≡ meet_all sought before (numbers_in (chunk slots 256 (drop from.0 image.now)))) × (result.blocks ≤ before.blocks + slots) }
{
    let start = from.0;
    let mut met = before;
    for slot in 0..slots {
        let at = start + slot * 256;
        let status = image[at];
        if status == UNWRITTEN {
            return met;
        }
        let block = u16::from_le_bytes([image[at + 2], image[at + 3]]);
        met = meet(sought, met, status == WRITTEN, block);
    }
    met
}

// The blocks that a clean image stores, of the segments in use with their numbers.
pub fn count_live(
    image: &[u8],
    geometry: Geometry,
    first: SegmentNumber,
    used: usize,
    sought: Sought,
) -> Met
    requires { Fillable geometry.segments geometry.slots image.now first.0 used }
    ensures { (result.blocks ≡ live_between sought.first.0 sought.last.0 (table_of geometry.segments geometry.slots image.now)) × (result.stored ≡ holds sought.block.0 (table_of geometry.segments geometry.slots image.now)) }
{
    let mut met = Met {
        blocks: 0,
        stored: false,
    };
    for turn in 0..used {
        let number = first.0 + turn as u32;
        let from = find::first_slot(geometry, SegmentNumber(number));
        met = meet_slots(image, geometry.slots, from, sought, met);
    }
    met
}
