// The fields of a header page taken apart, those that both versions have made up, and its place.
#![tactic(auto)]

ghost use Rattle.std.specs.Prelude.{◌≡◌, ◌+◌, ◌*◌, ◌%◌, ◌<◌, ◌≤◌, length};
ghost use Rattle.model.specs.Header.{is_former, header_number, header_version};
ghost use Rattle.model.specs.Steps.{header_at};
ghost use Rattle.header.specs.Parts.{header_total, header_fields};

use model::{Geometry, SegmentNumber};

// Status bytes, by the names of the model's definitions.
pub const OPENED: u8 = 0x3F;

pub const ERASE_PENDING: u8 = 0x9F;

pub const COMPACTED: u8 = 0x8F;

// The index of the old segment where there is none.
pub const NO_OLD_SEGMENT: u8 = 255;

// The bytes of a header that both versions have; in version 2 the total follows, bytes that stay erased, and the bits.
pub const FIELDS: usize = 17;

pub const TOTAL_END: usize = 21;

pub const BITS: usize = 32;

// The version that counts recoveries' erases.
const VERSION_2: u8 = 2;

// ---- taken apart

// The number in a header page, in use or not.
pub fn header_number(page: &[u8]) -> SegmentNumber
    requires { length page.now ≡ 256 }
    ensures { result.0 ≡ header_number page.now }
{
    SegmentNumber(u32::from_le_bytes([page[8], page[9], page[10], page[11]]))
}

// The total in a header page, in use or not.
pub fn header_total(page: &[u8]) -> usize
    requires { length page.now ≡ 256 }
    ensures { (result ≡ header_total page.now) × (result < 4294967296) }
{
    u32::from_le_bytes([page[17], page[18], page[19], page[20]]) as usize
}

// Whether a header page, in use or not, has version 1: what has not version 2 is taken for it.
pub fn is_former(page: &[u8]) -> bool
    requires { length page.now ≡ 256 }
    ensures { result ≡ is_former (header_version page.now) }
{
    page[3] != VERSION_2
}

// The fields that both versions have, made up among erased bytes.
pub fn header_fields(
    geometry: Geometry,
    former: bool,
    status: u8,
    number: SegmentNumber,
    old: u8,
) -> [u8; 256]
    requires { (geometry.segments ≤ 255) × (geometry.slots ≤ 255) }
    ensures { result ≡ header_fields geometry.segments geometry.slots former status number.0 old }
{
    let mut page = [255u8; 256];
    page[0] = b'S';
    page[1] = b'L';
    page[2] = b'T';
    page[3] = if former { 1 } else { VERSION_2 };
    page[4] = 0;
    page[5] = status;
    page[6] = geometry.slots as u8;
    page[7] = geometry.segments as u8;
    page[8..12].copy_from_slice(&number.0.to_le_bytes());
    page[12] = 255 - page[8];
    page[13] = 255 - page[9];
    page[14] = 255 - page[10];
    page[15] = 255 - page[11];
    page[16] = old;
    page
}

// ---- its place

// The offset of the header page of the segment with a number.
pub fn header_place(geometry: Geometry, number: SegmentNumber) -> usize
    requires { (0 < geometry.segments) × (geometry.segments ≤ 255) × (geometry.slots ≤ 255) }
    ensures { result ≡ header_at geometry.segments geometry.slots number.0 * 256 }
{
    number.0 as usize % geometry.segments * (geometry.slots + 1) * 256
}
