// The candidates of one segment, the last one first, met by a table by block number (request #113). The walk comes from the
// highest number down, so that the first one met of a block is given, and those after it are only compared with it.
#![tactic(auto)]

ghost use Rattle.std.specs.Prelude.{◌≡◌, not, ◌+◌, ◌*◌, ◌<◌, ◌≤◌, length, take, drop};
ghost use Rattle.model.specs.Lists.{same};
ghost use Rattle.model.specs.Slot.{slot_of, kind_of};
ghost use Rattle.judge.specs.Rows.{kinds_at};
ghost use Rattle.index.specs.Tables.{most_pages};
ghost use Rattle.meeting.specs.Sheet.{met, met_kind, met_row, Within};

use model::{BlockNumber, SlotKind};

// Candidates by block number: where the one given is, 0 being none; the length of its contents; and whether another disagrees with
// it. They are 384 KiB: whoever gathers lends them.
#[derive(Drop)]
pub struct Sheet {
    pub places: [u32; 65536],
    pub lengths: [u8; 65536],
    pub differs: [bool; 65536],
}

// Whether two pages differ.
// Kept: without a way out, as `a != b` has at each byte, the loop takes sixteen bytes at a time (docs/PROVING.md, "Speed").
fn pages_differ(a: &[u8], b: &[u8]) -> bool
    requires { (length a.now ≡ 256) × (length b.now ≡ 256) }
    ensures { result ≡ not (same a.now b.now) }
{
    let mut differ = false;
    for i in 0..256 {
        if a[i] != b[i] {
            differ = true;
        }
    }
    differ
}

// A candidate met, with contents of some size. Pages of live slots with one block number are the same exactly if their contents are.
fn meet(image: &[u8], place: usize, block: BlockNumber, size: usize, sheet: &mut Sheet)
    requires { (place + 256 ≤ length image.now) × (place < 4294967296) × (size < 256) × Within sheet.old.places (length image.now) }
    ensures { sheet.new ≡ met image.now place block.0 size sheet.old }
{
    let b = usize::from(block.0);
    let given = sheet.places[b] as usize;
    if given == 0 {
        sheet.places[b] = place as u32;
        sheet.lengths[b] = size as u8;
        return;
    }
    let end = given + 256;
    let next = place + 256;
    if pages_differ(&image[given..end], &image[place..next]) {
        sheet.differs[b] = true;
    }
}

// The slot on a page. Most slots that are not live are told by their status: their kind is not asked for.
fn meet_slot(image: &[u8], page: usize, sheet: &mut Sheet)
    requires { (page * 256 + 256 ≤ length image.now) × (page < most_pages) × Within sheet.old.places (length image.now) }
    ensures { sheet.new ≡ met_kind image.now page (kind_of (slot_of (take 256 (drop (page * 256) image.now)))) sheet.old }
{
    let at = page * 256;
    if image[at] != slot::WRITTEN {
        return;
    }
    let end = at + 256;
    let kind = slot::slot_kind(&image[at..end]);
    let SlotKind::Live { length, block } = kind else {
        return;
    };
    meet(image, at, block, length, sheet);
}

// The slots behind a header page.
pub fn meet_row(image: &[u8], header: usize, slots: usize, sheet: &mut Sheet)
    requires { ((header + slots + 1) * 256 ≤ length image.now) × (header + slots < most_pages) × Within sheet.old.places (length image.now) }
    ensures { sheet.new ≡ met_row image.now (header + 1) (kinds_at image.now ((header + 1) * 256) slots) sheet.old }
{
    for slot in (0..slots).rev() {
        meet_slot(image, header + 1 + slot, sheet);
    }
}
