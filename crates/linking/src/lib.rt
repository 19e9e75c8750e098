// The slots of one segment, the last one first: counted, and the live ones put before those of their block.
#![tactic(auto)]

ghost use Rattle.std.specs.Prelude.{◌≡◌, ◌+◌, ◌*◌, ◌<◌, ◌≤◌, length};
ghost use Rattle.model.specs.Chip.{most_slots};
ghost use Rattle.judge.specs.Rows.{kinds_at};
ghost use Rattle.linking.specs.Counts.{count_kind, count_row, Few};
ghost use Rattle.index.specs.Tables.{most_pages, link, link_kind, link_row, Brief};

use index::{Counts, Tables};
use model::{BlockNumber, SlotKind};

// A page put before those of its block.
#[tactic(auto, unfolding(index::specs::Tables::link))]
fn link(tables: &mut Tables, page: usize, block: BlockNumber, length: usize)
    requires { (page < most_pages) × (length < 256) }
    ensures { tables.new ≡ link page block.0 length tables.old }
{
    let b = usize::from(block.0);
    tables.nexts[page] = tables.firsts[b];
    tables.firsts[b] = page as u16;
    tables.lengths[page] = length as u8;
}

// One slot more.
#[tactic(auto, unfolding(crate::specs::Counts::count_kind, index::specs::Tables::link_kind))]
fn list_slot(counts: Counts, kind: SlotKind, page: usize, tables: &mut Tables) -> Counts
    requires { (page < most_pages) × Few counts 254 × Brief kind }
    ensures { (result ≡ count_kind kind counts) × (tables.new ≡ link_kind page kind tables.old) }
{
    match kind {
        SlotKind::Empty => Counts {
            empty: counts.empty + 1,
            ..counts
        },
        SlotKind::Torn => counts,
        SlotKind::Live { length, block } => {
            link(tables, page, block, length);
            Counts {
                live: counts.live + 1,
                ..counts
            }
        }
        SlotKind::Dead => Counts {
            dead: counts.dead + 1,
            ..counts
        },
        SlotKind::Cut => Counts {
            cut: counts.cut + 1,
            ..counts
        },
        SlotKind::Wrong => counts,
    }
}

// The slots behind a header page.
pub fn list_row(image: &[u8], header: usize, slots: usize, tables: &mut Tables) -> Counts
    requires { ((header + slots + 1) * 256 ≤ length image.now) × (header + slots < most_pages) × (slots ≤ most_slots) }
    ensures { (result ≡ count_row (kinds_at image.now ((header + 1) * 256) slots)) × (tables.new ≡ link_row (header + 1) (kinds_at image.now ((header + 1) * 256) slots) tables.old) }
{
    let mut counts = Counts::default();
    for i in (0..slots).rev() {
        let page = header + i + 1;
        let at = page * 256;
        let end = at + 256;
        let kind = slot::slot_kind(&image[at..end]);
        counts = list_slot(counts, kind, page, tables);
    }
    counts
}
