// A header page made up, and programmed under a budget.
#![tactic(auto)]

ghost use Rattle.std.specs.Prelude.{◌≡◌, ◌%◌, ◌<◌, ◌≤◌, length};
ghost use Rattle.model.specs.Header.{erase_pending, new_version, header_page};
ghost use Rattle.model.specs.Steps.{open_segment, settle};
ghost use Rattle.flash.specs.Ran.{Programmed};
ghost use Rattle.flash.specs.Pages.{Sized};
ghost use Rattle.header_steps.specs.Parts.{header_begun, header_finished, begin_compaction, finish_copy};

use header::{COMPACTED, ERASE_PENDING, FIELDS, NO_OLD_SEGMENT, OPENED, TOTAL_END};
use model::{Geometry, SegmentNumber};

// Status bytes of a segment that is not in use yet, by the names of the model's definitions.
const OPENING_BEGUN: u8 = 0x7F;

const COMPACTION_BEGUN: u8 = 0xDF;

// A new header page, of version 2: this total, and every bit set.
fn header_page(
    geometry: Geometry,
    total: usize,
    status: u8,
    number: SegmentNumber,
    old: u8,
) -> [u8; 256]
    requires { (geometry.segments ≤ 255) × (geometry.slots ≤ 255) }
    ensures { result ≡ header_page geometry.segments geometry.slots (new_version total) status number.0 old }
{
    let mut page = header::header_fields(geometry, false, status, number, old);
    page[FIELDS..TOTAL_END].copy_from_slice(&total.to_le_bytes()[0..4]);
    page
}

// The header page of a compaction's target.
fn compaction_page(
    geometry: Geometry,
    total: usize,
    old: SegmentNumber,
    number: SegmentNumber,
) -> [u8; 256]
    requires { (0 < geometry.segments) × (geometry.segments ≤ 255) × (geometry.slots ≤ 255) }
    ensures { result ≡ header_page geometry.segments geometry.slots (new_version total) erase_pending number.0 (old.0 % geometry.segments) }
{
    let index = old.0 as usize % geometry.segments;
    header_page(geometry, total, ERASE_PENDING, number, index as u8)
}

// The first steps in a header: a status, then what every segment's header has.
fn begin_header(header: &mut [u8], made: &[u8], status: u8, budget: u64) -> u64
    requires { (length header.old ≡ 256) × (length made.now ≡ 256) }
    ensures { Programmed (header_begun made.now status) budget result header.old header.new }
{
    let begun = flash::program_byte(header, 5, status, budget);
    let marked = flash::program_part(header, made, 0, 5, begun);
    flash::program_part(header, made, 6, 2, marked)
}

// The last steps in a header: the total, the number, then a status.
fn finish_header(header: &mut [u8], made: &[u8], status: u8, budget: u64) -> u64
    requires { (length header.old ≡ 256) × (length made.now ≡ 256) }
    ensures { Programmed (header_finished made.now status) budget result header.old header.new }
{
    let tallied = flash::program_part(header, made, FIELDS, TOTAL_END - FIELDS, budget);
    let numbered = flash::program_part(header, made, 8, 8, tallied);
    flash::program_byte(header, 5, status, numbered)
}

// Opens the segment that a number belongs to.
pub fn open_header(
    image: &mut [u8],
    geometry: Geometry,
    total: usize,
    number: SegmentNumber,
    budget: u64,
) -> u64
    requires { Sized geometry.segments geometry.slots (length image.old) }
    ensures { Programmed (open_segment geometry.segments geometry.slots (new_version total) number.0) budget result image.old image.new }
{
    let made = header_page(geometry, total, OPENED, number, NO_OLD_SEGMENT);
    let at = header::header_place(geometry, number);
    let end = at + 256;
    let header = &mut image[at..end];
    let begun = begin_header(header, &made, OPENING_BEGUN, budget);
    finish_header(header, &made, OPENED, begun)
}

// Begins to compact an old segment into the one that a number belongs to: the steps in the header before the slots are copied.
pub fn begin_compaction(
    image: &mut [u8],
    geometry: Geometry,
    total: usize,
    old: SegmentNumber,
    number: SegmentNumber,
    budget: u64,
) -> u64
    requires { Sized geometry.segments geometry.slots (length image.old) }
    ensures { Programmed (begin_compaction geometry.segments geometry.slots (new_version total) old.0 number.0) budget result image.old image.new }
{
    let made = compaction_page(geometry, total, old, number);
    let at = header::header_place(geometry, number);
    let end = at + 256;
    let header = &mut image[at..end];
    let begun = begin_header(header, &made, COMPACTION_BEGUN, budget);
    flash::program_part(header, &made, 16, 1, begun)
}

// The steps in the header once the slots are copied: the segment is in use, and the old one is still to be erased.
pub fn finish_copy(
    image: &mut [u8],
    geometry: Geometry,
    total: usize,
    old: SegmentNumber,
    number: SegmentNumber,
    budget: u64,
) -> u64
    requires { Sized geometry.segments geometry.slots (length image.old) }
    ensures { Programmed (finish_copy geometry.segments geometry.slots (new_version total) old.0 number.0) budget result image.old image.new }
{
    let made = compaction_page(geometry, total, old, number);
    let at = header::header_place(geometry, number);
    let end = at + 256;
    finish_header(&mut image[at..end], &made, ERASE_PENDING, budget)
}

// The last step of a compaction, once the old segment is erased.
pub fn settle(image: &mut [u8], geometry: Geometry, number: SegmentNumber, budget: u64) -> u64
    requires { Sized geometry.segments geometry.slots (length image.old) }
    ensures { Programmed (settle geometry.segments geometry.slots number.0) budget result image.old image.new }
{
    let at = header::header_place(geometry, number);
    flash::program_byte(image, at + 5, COMPACTED, budget)
}
