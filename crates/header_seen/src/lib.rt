// Whether a header page is that of a segment in use, and what it says then.
#![tactic(auto)]

ghost use Rattle.std.specs.Prelude.{◌≡◌, ◌<◌, ◌≤◌, length};
ghost use Rattle.model.specs.Lists.{same};
ghost use Rattle.model.specs.Header.{header_in_use, old_index, status_in_use};
ghost use Rattle.header_seen.specs.Seen.{tally_fits, header_seen};

use header::{BITS, COMPACTED, ERASE_PENDING, FIELDS, NO_OLD_SEGMENT, OPENED, TOTAL_END};
use model::{ERASE_LIMIT, Geometry, SegmentNumber};

// The header page of a segment in use: whether it has version 1, its status and its number.
#[derive(Clone, Copy)]
pub struct HeaderInUse {
    pub former: bool,
    pub status: u8,
    pub number: SegmentNumber,
}

// Whether two runs of bytes are the same.
// Kept: with `!=` of slices the compiler makes up all 256 bytes of the page to compare with, in a frame of its own.
fn same_bytes(a: &[u8], b: &[u8]) -> bool
    requires { length a.now ≡ length b.now }
    ensures { result ≡ same a.now b.now }
{
    for i in 0..a.len() {
        if a[i] != b[i] {
            return false;
        }
    }
    true
}

// The index of the old segment in a header in use: the one after its own, or none.
fn old_index(segments: usize, index: usize, status: u8) -> u8
    requires { (index < segments) × (segments ≤ 255) }
    ensures { result ≡ old_index segments index status }
{
    if status == OPENED {
        return NO_OLD_SEGMENT;
    }
    ((index + 1) % segments) as u8
}

fn status_in_use(status: u8) -> bool
    ensures { result ≡ status_in_use status }
{
    if status == OPENED {
        return true;
    }
    if status == ERASE_PENDING {
        return true;
    }
    status == COMPACTED
}

// Whether what follows the fields that both versions have is as the header's version wants it. What stays erased is left to
// the blank test, which looks at eight bytes at a time.
fn tally_fits(page: &[u8]) -> bool
    requires { length page.now ≡ 256 }
    ensures { result ≡ tally_fits page.now }
{
    if header::is_former(page) {
        let rest = blank::blank_test(&page[FIELDS..]);
        return rest.blank;
    }
    if header::header_total(page) >= ERASE_LIMIT {
        return false;
    }
    let between = blank::blank_test(&page[TOTAL_END..BITS]);
    between.blank
}

// Whether a header is that of a segment in use at an index.
pub fn header_in_use(page: &[u8], geometry: Geometry, index: usize) -> bool
    requires { (length page.now ≡ 256) × (0 < geometry.segments) × (geometry.segments ≤ 255) × (geometry.slots ≤ 255) }
    ensures { result ≡ header_in_use geometry.segments geometry.slots index page.now }
{
    let status = page[5];
    if !status_in_use(status) {
        return false;
    }
    let number = header::header_number(page);
    let n = number.0 as usize;
    if n >= ERASE_LIMIT * geometry.segments {
        return false;
    }
    if n % geometry.segments != index {
        return false;
    }
    let fitting = header::header_fields(
        geometry,
        header::is_former(page),
        status,
        number,
        old_index(geometry.segments, index, status),
    );
    if !same_bytes(&page[0..FIELDS], &fitting[0..FIELDS]) {
        return false;
    }
    tally_fits(page)
}

// What the header of a segment in use says; nothing, if it is not one.
pub fn see_header(page: &[u8], geometry: Geometry, index: usize) -> Option<HeaderInUse>
    requires { (length page.now ≡ 256) × (0 < geometry.segments) × (geometry.segments ≤ 255) × (geometry.slots ≤ 255) }
    ensures { result ≡ header_seen geometry.segments geometry.slots index page.now }
{
    if header_in_use(page, geometry, index) {
        return Some(HeaderInUse {
            former: header::is_former(page),
            status: page[5],
            number: header::header_number(page),
        });
    }
    None
}
