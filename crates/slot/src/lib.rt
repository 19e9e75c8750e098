// A slot page taken apart, or made up and programmed under a budget.
#![tactic(auto)]

ghost use Rattle.std.specs.Prelude.{◌≡◌, ◌+◌, ◌*◌, ◌<◌, ◌≤◌, length, get_or};
ghost use Rattle.model.specs.Slot.{written, slot_page, slot_fits, slot_of, kind_of};
ghost use Rattle.model.specs.Steps.{write_slot, mark_dead};
ghost use Rattle.flash.specs.Ran.{Programmed};
ghost use Rattle.flash.specs.Pages.{OnPageAt};
ghost use Rattle.slot.specs.Parts.{slot_parts};

use model::{BlockNumber, SlotKind, SlotPlace};

// Status bytes, by the names of the model's definitions.
pub const WRITE_BEGUN: u8 = 0x7F;

pub const WRITTEN: u8 = 0x3F;

pub const DEAD: u8 = 0x1F;

pub const CUT: u8 = 0x5F;

// Programmed over a status, this clears bit 5.
const MARK_DEAD: u8 = 0xDF;

// The most bytes of contents in a slot.
const MOST_CONTENTS: usize = 248;

// ---- taken apart

// Whether the bytes of a written slot fit, beside its status.
fn slot_fits(page: &[u8]) -> bool
    requires { (length page.now ≡ 256) × (get_or page.now 0 0 ≡ written) }
    ensures { result ≡ slot_fits page.now }
{
    let length = usize::from(page[1]);
    if length > MOST_CONTENTS {
        return false;
    }
    let block = u16::from_le_bytes([page[2], page[3]]);
    if block == 0 {
        return false;
    }
    if block == 65535 {
        return false;
    }
    let gap = blank::blank_test(&page[4..8]);
    if !gap.blank {
        return false;
    }
    let end = 8 + length;
    let rest = blank::blank_test(&page[end..]);
    rest.blank
}

// The kind of a slot.
pub fn slot_kind(page: &[u8]) -> SlotKind
    requires { length page.now ≡ 256 }
    ensures { result ≡ kind_of (slot_of page.now) }
{
    let status = page[0];
    if status == WRITTEN {
        if slot_fits(page) {
            return SlotKind::Live {
                length: usize::from(page[1]),
                block: BlockNumber(u16::from_le_bytes([page[2], page[3]])),
            };
        }
        return SlotKind::Wrong;
    }
    if status == WRITE_BEGUN {
        return SlotKind::Torn;
    }
    if status == DEAD {
        return SlotKind::Dead;
    }
    if status == CUT {
        return SlotKind::Cut;
    }
    let whole = blank::blank_test(page);
    if whole.blank {
        SlotKind::Empty
    } else {
        SlotKind::Wrong
    }
}

// ---- made up and programmed

// The page of a live slot, made up among erased bytes.
fn slot_page(block: BlockNumber, contents: &[u8]) -> [u8; 256]
    requires { length contents.now ≤ 248 }
    ensures { result ≡ slot_page block.0 contents.now }
{
    let mut page = [255u8; 256];
    page[0] = WRITTEN;
    page[1] = contents.len() as u8;
    page[2..4].copy_from_slice(&block.0.to_le_bytes());
    page[8..8 + contents.len()].copy_from_slice(contents);
    page
}

// Programs a slot's page with one that was made up, of contents of some length.
fn program_slot(slot: &mut [u8], made: &[u8], count: usize, budget: u64) -> u64
    requires { (length slot.old ≡ 256) × (length made.now ≡ 256) × (count ≤ 248) }
    ensures { Programmed (slot_parts made.now count) budget result slot.old slot.new }
{
    let begun = flash::program_byte(slot, 0, WRITE_BEGUN, budget);
    let headed = flash::program_part(slot, made, 1, 3, begun);
    let filled = flash::program_part(slot, made, 8, count, headed);
    flash::program_byte(slot, 0, WRITTEN, filled)
}

// Writes a slot with the page of a live one: made up, or copied.
pub fn write_page(image: &mut [u8], place: SlotPlace, page: &[u8], count: usize, budget: u64) -> u64
    requires { (place.0 + 256 ≤ length image.old) × (length page.now ≡ 256) × (count ≤ 248) }
    ensures { OnPageAt place.0 (slot_parts page.now count) budget result image.old image.new }
{
    let at = place.0;
    let end = at + 256;
    program_slot(&mut image[at..end], page, count, budget)
}

// Writes a slot.
pub fn write_slot(
    image: &mut [u8],
    place: SlotPlace,
    block: BlockNumber,
    contents: &[u8],
    budget: u64,
) -> u64
    requires { (place.0 + 256 ≤ length image.old) × (length contents.now ≤ 248) }
    ensures { OnPageAt place.0 (write_slot block.0 contents.now) budget result image.old image.new }
{
    let made = slot_page(block, contents);
    write_page(image, place, &made, contents.len(), budget)
}

// Clears bit 5 of a slot's status: live becomes dead, and torn cut, which document 01 calls dead too.
pub fn mark_dead(image: &mut [u8], place: SlotPlace, budget: u64) -> u64
    requires { place.0 < length image.old }
    ensures { OnPageAt place.0 mark_dead budget result image.old image.new }
{
    flash::program_byte(image, place.0, MARK_DEAD, budget)
}
