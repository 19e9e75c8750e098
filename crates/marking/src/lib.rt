// The slots of a segment as characters of a picture's row, added to a text. The bounds on offsets are far above any row's
// end: they keep sums from wrapping.
#![tactic(auto)]

ghost use Rattle.std.specs.Prelude.{◌≡◌, [], ◌∷◌, ◌++◌, ◌+◌, ◌*◌, ◌≤◌, length};
ghost use Rattle.judge.specs.Rows.{slots_at};
ghost use Rattle.text.specs.Buffer.{Wrote};
ghost use Rattle.account_text.specs.Map.{row_break, marks_from};
ghost use Rattle.marking.specs.Marks.{mark_kind};

use model::SlotKind;

// The character of a slot.
#[tactic(auto, unfolding(crate::specs::Marks::mark_kind, account_text::specs::Map::mark))]
fn mark_of(kind: SlotKind) -> u8
    ensures { result ≡ mark_kind kind }
{
    match kind {
        SlotKind::Empty => b'.',
        SlotKind::Torn => b'~',
        SlotKind::Live { .. } => b'#',
        SlotKind::Dead => b'x',
        SlotKind::Cut => b'/',
        SlotKind::Wrong => b'!',
    }
}

// A wide segment is wrapped: so many slots to a row; `most_marks` in the definitions.
const MOST_MARKS: usize = 64;

// The end of a full row, and spaces up to below its first slot.
fn add_break(text: &mut [u8], at: usize, slot: usize) -> usize
    requires { at ≤ 3000000 }
    ensures { Wrote (row_break slot) text.old at text.new result × (result ≤ at + 21) }
{
    if slot == 0 {
        return at;
    }
    if slot % MOST_MARKS != 0 {
        return at;
    }
    text::add(text, at, b"\n                    ")
}

// A slot's mark, on a new row if the last one is full.
fn add_mark(text: &mut [u8], at: usize, slot: usize, mark: u8) -> usize
    requires { at ≤ 3000000 }
    ensures { Wrote (row_break slot ++ (mark ∷ [])) text.old at text.new result × (result ≤ at + 22) }
{
    let behind = add_break(text, at, slot);
    text::add(text, behind, &[mark])
}

// The slots of a segment, from the offset of the first one.
pub fn add_marks(image: &[u8], first: usize, slots: usize, text: &mut [u8], at: usize) -> usize
    requires { (first + slots * 256 ≤ length image.now) × (slots ≤ 255) × (at ≤ 2000000) }
    ensures { Wrote (marks_from 0 (slots_at image.now first slots)) text.old at text.new result × (result ≤ at + slots * 22) }
{
    let mut end = at;
    for i in 0..slots {
        let a = first + i * 256;
        let e = a + 256;
        let mark = mark_of(slot::slot_kind(&image[a..e]));
        end = add_mark(text, end, i, mark);
    }
    end
}
