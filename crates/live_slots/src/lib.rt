// The live slots of one segment: where they lie, a page of theirs by value, and what copying them is.
#![tactic(auto)]

ghost use Rattle.std.specs.Prelude.{◌≡◌, ◌*◌, ◌%◌, ◌<◌, ◌≤◌, length};
ghost use Rattle.live_slots.specs.Live.{first_slot};

use model::SegmentNumber;

// A page by value, so that the image can be written while its contents are read.
pub fn page_of(bytes: &[u8]) -> [u8; 256]
    requires { length bytes.now ≡ 256 }
    ensures { result ≡ bytes.now }
{
    let mut page = [255u8; 256];
    page.copy_from_slice(bytes);
    page
}

// The index of the segment that a number belongs to.
pub fn index_of(segments: usize, number: SegmentNumber) -> usize
    requires { 0 < segments }
    ensures { (result ≡ number.0 % segments) × (result < segments) }
{
    number.0 as usize % segments
}

// The offset of the first slot of the segment at an index.
pub fn slots_place(index: usize, slots: usize) -> usize
    requires { (index ≤ 255) × (slots ≤ 255) }
    ensures { result ≡ first_slot slots index * 256 }
{
    (index * (slots + 1) + 1) * 256
}
