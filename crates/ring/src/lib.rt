// The segments in use, found by looking at the status bytes and the numbers in headers alone (request #102): of any image the
// answer is in bounds, and of a clean one it is what the definitions say.
#![tactic(auto)]

ghost use Rattle.std.specs.Prelude.{◌≡◌, ◌<◌, ◌≤◌, length};
ghost use Rattle.flash.specs.Pages.{Sized};
ghost use Rattle.ring.specs.Seen.{status_at, number_at, LastFollowing, LastUsed, RunFrom, TopSeen, UsedSeen, SeenRing};

use model::{ERASE_LIMIT, Geometry, SegmentNumber};

// The segments in use as their headers tell them: the smallest number and their count.
#[derive(Clone, Copy)]
pub struct Ring {
    pub first: SegmentNumber,
    pub used: usize,
}

// What an erase leaves.
const ERASED: u8 = 255;

// Where the status is in a header.
const STATUS: usize = 5;

// ---- one header

// The status in the header at an index. A segment counts as in use if it was programmed.
fn status_at(image: &[u8], geometry: Geometry, index: usize) -> u8
    requires { Sized geometry.segments geometry.slots (length image.now) × (index < geometry.segments) }
    ensures { result ≡ status_at geometry.slots image.now index }
{
    image[index * (geometry.slots + 1) * 256 + STATUS]
}

// The number in the header at an index, in use or not.
fn number_at(image: &[u8], geometry: Geometry, index: usize) -> usize
    requires { Sized geometry.segments geometry.slots (length image.now) × (index < geometry.segments) }
    ensures { (result ≡ number_at geometry.slots image.now index) × (result < 4294967296) }
{
    let at = index * (geometry.slots + 1) * 256;
    let end = at + 256;
    let number = header::header_number(&image[at..end]);
    number.0 as usize
}

// ---- the segments in use

// The last index whose number follows from that of index 0, by halving (binary search). The sums are wide enough for any image.
fn last_following(image: &[u8], geometry: Geometry, number: usize) -> usize
    requires { Sized geometry.segments geometry.slots (length image.now) × (number < 4294967296) }
    ensures { LastFollowing geometry.segments geometry.slots image.now number result }
{
    // Kept: halving; the numbers lie in no slice for `partition_point`.
    let mut low = 0;
    let mut high = geometry.segments;
    while low + 1 < high {
        let middle = (low + high) / 2;
        if number_at(image, geometry, middle) == number + middle {
            low = middle;
            continue;
        }
        high = middle;
    }
    low
}

// The last index that counts as in use; 0, if none does. In a whole ring with index 0 blank it is the first that is looked at.
fn last_used(image: &[u8], geometry: Geometry) -> usize
    requires { Sized geometry.segments geometry.slots (length image.now) }
    ensures { LastUsed geometry.segments geometry.slots image.now result }
{
    for index in (1..geometry.segments).rev() {
        if status_at(image, geometry, index) != ERASED {
            return index;
        }
    }
    0
}

// Where the run of indexes begins that count as in use and ends just below `end`.
fn run_start(image: &[u8], geometry: Geometry, end: usize) -> usize
    requires { Sized geometry.segments geometry.slots (length image.now) × (end ≤ geometry.segments) }
    ensures { RunFrom geometry.slots image.now end result }
{
    for index in (0..end).rev() {
        if status_at(image, geometry, index) == ERASED {
            return index + 1;
        }
    }
    0
}

// The index of the top of a clean image. The numbers in use are consecutive, and each stands at its remainder: with index 0
// in use they rise from there to the top; with index 0 blank they do not go round the end, and the top is the last.
fn find_top(image: &[u8], geometry: Geometry) -> usize
    requires { Sized geometry.segments geometry.slots (length image.now) }
    ensures { TopSeen geometry.segments geometry.slots image.now result }
{
    if status_at(image, geometry, 0) == ERASED {
        return last_used(image, geometry);
    }
    let number = number_at(image, geometry, 0);
    last_following(image, geometry, number)
}

// How many segments of a clean image are in use. A ring is whole if the segment after the blank one that follows the top is in
// use, which is the oldest then; otherwise the run that ends in the top is walked back.
fn count_used(image: &[u8], geometry: Geometry, top: usize) -> usize
    requires { Sized geometry.segments geometry.slots (length image.now) × (top < geometry.segments) }
    ensures { UsedSeen geometry.segments geometry.slots image.now top result }
{
    if status_at(image, geometry, (top + 2) % geometry.segments) != ERASED {
        return geometry.segments - 1;
    }
    if status_at(image, geometry, 0) == ERASED {
        return top + 1 - run_start(image, geometry, top);
    }
    top + 1 + (geometry.segments - run_start(image, geometry, geometry.segments))
}

// The segments in use; none, if they are no ring. Headers lie up to 64 KiB apart, so that a look is a cache miss: of an image
// that grew from a format as many are looked at as there are halvings, and some more. A single segment is no ring, and one less
// would count as none.
pub fn see_ring(image: &[u8], geometry: Geometry) -> Option<Ring>
    requires { Sized geometry.segments geometry.slots (length image.now) }
    ensures { SeenRing geometry.segments geometry.slots image.now result }
{
    if geometry.segments < 2 {
        return None;
    }
    let top = find_top(image, geometry);
    let used = count_used(image, geometry, top);
    if used >= geometry.segments {
        return None;
    }
    let n = number_at(image, geometry, top);
    if n >= ERASE_LIMIT * geometry.segments {
        return None;
    }
    if n % geometry.segments != top {
        return None;
    }
    if n + 1 < used {
        return None;
    }
    let first = SegmentNumber((n + 1 - used) as u32);
    Some(Ring { first, used })
}
