// The tally of recoveries' erases in a header of version 2: read, and one more counted under a budget.
#![tactic(auto)]

ghost use Rattle.std.specs.Prelude.{◌≡◌, ◌<◌, ◌≤◌, length};
ghost use Rattle.model.specs.Header.{cleared_in, cleared_bits, header_version};
ghost use Rattle.model.specs.Steps.{on_page, header_at, highest_bit, count_erase};
ghost use Rattle.flash.specs.Ran.{Programmed};
ghost use Rattle.flash.specs.Pages.{Sized};
ghost use Rattle.tally.specs.Seen.{zeros_before, tally_seen, header_in};

use header::BITS;
use model::{Geometry, SegmentNumber};

// What a header tells of recoveries' erases: whether it has version 1, which counts none; how many there are, those
// carried on from earlier headers and those since; and whether it has no bit left to count one more.
// Kept: no Option for version 1: `tally_seen` gives it a count too, 0, by which a put reckons whatever the version is.
#[derive(Clone, Copy)]
pub struct Tally {
    pub former: bool,
    pub count: usize,
    pub no_bit_left: bool,
}

// How many bytes the bits fill that recoveries clear.
const BIT_BYTES: usize = 224;

fn cleared_in(x: u8) -> usize
    ensures { (result ≡ cleared_in x) × (result ≤ 8) }
{
    8 - u8::count_ones(x) as usize
}

// How many bits are cleared. Mostly none is, which the blank test finds out sooner.
fn cleared_bits(bytes: &[u8]) -> usize
    requires { length bytes.now ≤ 256 }
    ensures { (result ≡ cleared_bits bytes.now) × (result ≤ 2048) }
{
    let test = blank::blank_test(bytes);
    if test.blank {
        return 0;
    }
    let mut sum: usize = 0;
    for &byte in bytes {
        sum += cleared_in(byte);
    }
    sum
}

// How many bytes come before the first that is not 0.
fn zeros_before(bytes: &[u8]) -> usize
    ensures { result ≡ zeros_before bytes.now }
{
    for i in 0..bytes.len() {
        if bytes[i] != 0 {
            return i;
        }
    }
    bytes.len()
}

// The highest set bit of a byte.
fn highest_bit(x: u8) -> u8
    requires { 0 < x }
    ensures { (result ≡ highest_bit x) × (result ≤ x) }
{
    128 >> u8::leading_zeros(x)
}

// ---- in a header page

// What it tells of recoveries' erases.
fn see_tally(page: &[u8]) -> Tally
    requires { length page.now ≡ 256 }
    ensures { (result ≡ tally_seen (header_version page.now)) × (result.count < 4294969344) }
{
    if header::is_former(page) {
        return Tally {
            former: true,
            count: 0,
            no_bit_left: false,
        };
    }
    let bits = &page[BITS..256];
    let cleared = cleared_bits(bits);
    Tally {
        former: false,
        count: header::header_total(page) + cleared,
        no_bit_left: zeros_before(bits) >= BIT_BYTES,
    }
}

// Counts one more: the highest set bit of the first byte that has one is cleared.
fn count_in(page: &mut [u8], budget: u64) -> u64
    requires { length page.old ≡ 256 }
    ensures { Programmed (count_erase (header_version page.old)) budget result page.old page.new }
{
    let former = header::is_former(&page[..]);
    if former {
        return budget;
    }
    let k = zeros_before(&page[BITS..256]);
    if k >= BIT_BYTES {
        return budget;
    }
    let at = BITS + k;
    let x = page[at];
    flash::program_byte(page, at, x - highest_bit(x), budget)
}

// ---- in an image

// What the header of the segment that a number belongs to tells of recoveries' erases.
pub fn tally_in(image: &[u8], geometry: Geometry, number: SegmentNumber) -> Tally
    requires { Sized geometry.segments geometry.slots (length image.now) }
    ensures { (result ≡ tally_seen (header_version (header_in geometry.segments geometry.slots number.0 image.now))) × (result.count < 4294969344) }
{
    let at = header::header_place(geometry, number);
    let end = at + 256;
    see_tally(&image[at..end])
}

// Counts an erase that a recovery is about to make, in the header of the segment that a number belongs to. A header of
// version 1 counts none, and one without a bit left no more.
pub fn count_erase(image: &mut [u8], geometry: Geometry, number: SegmentNumber, budget: u64) -> u64
    requires { Sized geometry.segments geometry.slots (length image.old) }
    ensures { Programmed (on_page (header_at geometry.segments geometry.slots number.0) (count_erase (header_version (header_in geometry.segments geometry.slots number.0 image.old)))) budget result image.old image.new }
{
    let at = header::header_place(geometry, number);
    let end = at + 256;
    count_in(&mut image[at..end], budget)
}
