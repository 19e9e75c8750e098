// The slots of one segment, looked at once, in order.
#![tactic(auto)]

ghost use Rattle.std.specs.Prelude.{◌≡◌, cond, ◌+◌, ◌*◌, ◌≤◌, length};
ghost use Rattle.model.specs.Chip.{most_slots};
ghost use Rattle.judge.specs.Bitmap.{in_bits, put_bit};
ghost use Rattle.judge.specs.Endings.{behind, leave_room};
ghost use Rattle.judge.specs.Rows.{pass, see, see_all, no_row, kinds_at, Small};

use judge::{Ending, Row};
use model::{BlockNumber, SlotKind};

// Puts a block number into the set of those met, one bit for each. Whether it was there.
pub fn meet(seen: &mut [u64; 1024], block: BlockNumber) -> bool
    ensures { (result ≡ in_bits 64 seen.old block.0) × (seen.new ≡ put_bit 64 seen.old block.0) }
{
    let x = block.0;
    let i = usize::from(x) / 64;
    let k = x % 64;
    let word = seen[i];
    seen[i] = word | (1u64 << k);
    (word >> k) % 2 == 1
}

// A written slot follows: it may follow written ones only.
#[tactic(auto, unfolding(judge::specs::Endings::behind))]
pub fn behind(before: Ending, then: Ending) -> Ending
    ensures { result ≡ behind before then }
{
    match before {
        Ending::Full => then,
        Ending::Room | Ending::TornLast | Ending::TwinLast | Ending::Bad => Ending::Bad,
    }
}

// An empty slot follows.
#[tactic(auto, unfolding(judge::specs::Endings::leave_room))]
fn leave_room(before: Ending) -> Ending
    ensures { result ≡ leave_room before }
{
    match before {
        Ending::Full => Ending::Room,
        Ending::Room => Ending::Room,
        Ending::TornLast => Ending::TornLast,
        Ending::TwinLast => Ending::TwinLast,
        Ending::Bad => Ending::Bad,
    }
}

// How a row ends with a live slot, by whether its number was met before.
fn live_ending(again: bool) -> Ending
    ensures { result ≡ cond again Ending.TwinLast Ending.Full }
{
    if again {
        Ending::TwinLast
    } else {
        Ending::Full
    }
}

// A row before its first slot.
pub fn no_row() -> Row
    ensures { result ≡ no_row }
{
    Row {
        live: 0,
        dead: 0,
        cut: 0,
        ending: Ending::Full,
        block: BlockNumber(0),
    }
}

// The next slot of a row: it is counted, and the number of a live one is met, whatever came before. A row of 255 has no next.
fn count(row: Row, kind: SlotKind, seen: &mut [u64; 1024]) -> Row
    requires { Small row 254 }
    ensures { pass result seen.new ≡ see kind (pass row seen.old) }
{
    match kind {
        SlotKind::Empty => Row {
            ending: leave_room(row.ending),
            ..row
        },
        SlotKind::Torn => Row {
            ending: behind(row.ending, Ending::TornLast),
            ..row
        },
        SlotKind::Live { length: _, block } => {
            let then = live_ending(meet(seen, block));
            Row {
                live: row.live + 1,
                ending: behind(row.ending, then),
                block,
                ..row
            }
        }
        SlotKind::Dead => Row {
            dead: row.dead + 1,
            ending: behind(row.ending, Ending::Full),
            ..row
        },
        SlotKind::Cut => Row {
            cut: row.cut + 1,
            ending: behind(row.ending, Ending::Full),
            ..row
        },
        SlotKind::Wrong => Row {
            ending: Ending::Bad,
            ..row
        },
    }
}

// The slots of a segment, from the offset of the first one.
pub fn scan_row(image: &[u8], at: usize, slots: usize, seen: &mut [u64; 1024]) -> Row
    requires { (at + slots * 256 ≤ length image.now) × (slots ≤ most_slots) }
    ensures { (pass result seen.new ≡ see_all (kinds_at image.now at slots) (pass no_row seen.old)) × Small result slots }
{
    let mut row = no_row();
    for i in 0..slots {
        let a = at + i * 256;
        let e = a + 256;
        row = count(row, slot::slot_kind(&image[a..e]), seen);
    }
    row
}
