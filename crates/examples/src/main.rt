// Bench examples 2 to 11 of document 01, as requests #104 and #105 change them; recoveries until no bit is left; and what is
// from before those requests, an image of version 1 and an empty record; run on the code. What comes out is held to the file
// stdout.
#![tactic(auto)]

ghost use Rattle.std.specs.Prelude.{◌≡◌};

use model::{BlockNumber, Located, Performed};

// The descriptor of standard output.
const STDOUT_FILENO: i32 = 1;

// Steps enough for any request here.
const ENOUGH: u64 = 100000;

fn text(t: &[u8]) {
    io::write_all(STDOUT_FILENO, t);
}

fn number(n: u64) {
    io::print_decimal(STDOUT_FILENO, n);
}

// Bytes in hexadecimal, a space before each.
fn bytes(s: &[u8]) {
    for &b in s {
        text(b" ");
        io::print_hex(STDOUT_FILENO, u64::from(b), 2);
    }
}

// A writing request's answer and steps.
fn told(what: &[u8], p: Performed) {
    text(what);
    text(b": answer ");
    number(request::number_of(p.answer));
    text(b", steps ");
    number(p.steps);
    text(b"\n");
}

// A read's answer and contents.
fn read(image: &[u8], segments: usize, slots: usize, block: u16) {
    let r = store::read(image, segments, slots, BlockNumber(block));
    text(b"read ");
    number(u64::from(block));
    text(b": answer ");
    number(request::number_of(r.answer));
    contents(image, r);
    text(b"\n");
}

fn contents(image: &[u8], r: Located) {
    let offset = r.offset;
    let length = r.length;
    text(b", offset ");
    number(offset as u64);
    text(b", contents");
    if offset <= image.len() && length <= image.len() - offset {
        bytes(&image[offset..offset + length]);
    }
}

// Block 7 put with one byte of contents.
fn seven(image: &mut [u8], value: u8, budget: u64) {
    told(
        b"put 7",
        store::put(image, 2, 2, BlockNumber(7), &[value], budget),
    );
}

// A small store, formatted, with block 7 put some times.
fn small(image: &mut [u8], puts: u8) {
    store::format(image, 2, 2, ENOUGH);
    for value in 1..=puts {
        store::put(image, 2, 2, BlockNumber(7), &[value], ENOUGH);
    }
}

// Blocks 1 to last put with these contents.
fn fill(image: &mut [u8], segments: usize, slots: usize, last: u16, contents: &[u8]) {
    for block in 1..=last {
        store::put(image, segments, slots, BlockNumber(block), contents, ENOUGH);
    }
}

// Some puts of block 7, the next cut after some steps, then recovery.
fn cut(puts: u8, budget: u64) {
    let mut image = [0u8; 1536];
    small(&mut image, puts);
    seven(&mut image, 9, budget);
    told(b"recover", store::recover(&mut image, 2, 2, ENOUGH));
    read(&image, 2, 2, 7);
}

fn example_2_and_4() {
    let mut image = [0u8; 16384];
    text(b"example 2\n");
    told(b"format", store::format(&mut image, 4, 15, ENOUGH));
    bytes(&image[0..21]);
    text(b"\nexample 4\n");
    let pair = [0x41u8, 0x31];
    told(
        b"put 7",
        store::put(&mut image, 4, 15, BlockNumber(7), &pair, ENOUGH),
    );
    bytes(&image[256..266]);
    text(b"\n");
    told(
        b"put 7",
        store::put(&mut image, 4, 15, BlockNumber(7), &pair, ENOUGH),
    );
    read(&image, 4, 15, 7);
}

fn example_3() {
    text(b"example 3\n");
    let mut image = [0u8; 16384];
    store::format(&mut image, 4, 15, ENOUGH);
    fill(&mut image, 4, 15, 44, b"a");
    told(
        b"put 1",
        store::put(&mut image, 4, 15, BlockNumber(1), b"b", ENOUGH),
    );
    told(
        b"put 1",
        store::put(&mut image, 4, 15, BlockNumber(1), b"b", ENOUGH),
    );
    bytes(&image[12288..12309]);
    text(b"\n");
}

fn example_5_and_6() {
    text(b"example 5\n");
    let mut image = [0u8; 1536];
    told(b"format", store::format(&mut image, 2, 2, ENOUGH));
    seven(&mut image, 1, ENOUGH);
    seven(&mut image, 2, ENOUGH);
    seven(&mut image, 3, ENOUGH);
    read(&image, 2, 2, 7);
    text(b"example 6\n");
    told(
        b"put 8",
        store::put(&mut image, 2, 2, BlockNumber(8), b"x", ENOUGH),
    );
}

fn example_9() {
    text(b"example 9\n");
    let mut image = [0u8; 2304];
    told(b"format", store::format(&mut image, 3, 2, ENOUGH));
    fill(&mut image, 3, 2, 3, b"a");
    told(
        b"put 3",
        store::put(&mut image, 3, 2, BlockNumber(3), b"b", ENOUGH),
    );
    told(
        b"put 3",
        store::put(&mut image, 3, 2, BlockNumber(3), b"c", ENOUGH),
    );
    read(&image, 3, 2, 3);
}

fn example_10() {
    text(b"example 10\n");
    let mut image = [0u8; 16384];
    store::format(&mut image, 4, 15, ENOUGH);
    let full = [7u8; 249];
    told(
        b"0 bytes",
        store::put(&mut image, 4, 15, BlockNumber(1), &full[0..0], ENOUGH),
    );
    told(
        b"1 byte",
        store::put(&mut image, 4, 15, BlockNumber(1), &full[0..1], ENOUGH),
    );
    told(
        b"248 bytes",
        store::put(&mut image, 4, 15, BlockNumber(65534), &full[0..248], ENOUGH),
    );
    told(
        b"249 bytes",
        store::put(&mut image, 4, 15, BlockNumber(2), &full, ENOUGH),
    );
    told(
        b"block 0",
        store::put(&mut image, 4, 15, BlockNumber(0), b"", ENOUGH),
    );
    told(
        b"block 65535",
        store::put(&mut image, 4, 15, BlockNumber(65535), b"x", ENOUGH),
    );
    told(
        b"delete 1",
        store::delete(&mut image, 4, 15, BlockNumber(1), ENOUGH),
    );
    told(
        b"delete 1",
        store::delete(&mut image, 4, 15, BlockNumber(1), ENOUGH),
    );
    read(&image, 4, 15, 1);
}

// Recoveries that are cut before they erase, and so leave it to the next.
fn counted(image: &mut [u8], times: u64) {
    for _ in 0..times {
        store::recover(image, 2, 2, 1);
    }
}

// A segment that was begun: 1,792 recoveries are counted in the top's header, the next is not, and no header follows it.
fn all_bits() {
    let mut image = [0u8; 1536];
    small(&mut image, 2);
    seven(&mut image, 9, 20);
    counted(&mut image, 1791);
    bytes(&image[28..36]);
    bytes(&image[252..256]);
    text(b"\n");
    told(b"recover, budget 1", store::recover(&mut image, 2, 2, 1));
    bytes(&image[252..256]);
    text(b"\n");
    told(b"recover, budget 1", store::recover(&mut image, 2, 2, 1));
    seven(&mut image, 3, ENOUGH);
    read(&image, 2, 2, 7);
}

// An image of version 1 is read and takes no put, until it is formatted.
fn former_version() {
    let mut image = [0u8; 1536];
    small(&mut image, 1);
    image[3] = 1;
    image[17] = 255;
    image[18] = 255;
    image[19] = 255;
    image[20] = 255;
    seven(&mut image, 2, ENOUGH);
    read(&image, 2, 2, 7);
    told(b"format", store::format(&mut image, 2, 2, ENOUGH));
    seven(&mut image, 2, ENOUGH);
}

// Block 1 is empty, from before request #105, and is read, copied by a compaction and deleted.
fn empty_record() {
    text(b"request 105\n");
    let mut image = [0u8; 2304];
    told(b"format", store::format(&mut image, 3, 2, ENOUGH));
    image[256] = 0x3F;
    image[257] = 0;
    image[258] = 1;
    image[259] = 0;
    read(&image, 3, 2, 1);
    told(
        b"0 bytes",
        store::put(&mut image, 3, 2, BlockNumber(1), b"", ENOUGH),
    );
    store::put(&mut image, 3, 2, BlockNumber(2), b"a", ENOUGH);
    store::put(&mut image, 3, 2, BlockNumber(3), b"a", ENOUGH);
    store::put(&mut image, 3, 2, BlockNumber(2), b"b", ENOUGH);
    told(
        b"put 3",
        store::put(&mut image, 3, 2, BlockNumber(3), b"b", ENOUGH),
    );
    bytes(&image[1792..1802]);
    text(b"\n");
    read(&image, 3, 2, 1);
    told(
        b"delete 1",
        store::delete(&mut image, 3, 2, BlockNumber(1), ENOUGH),
    );
    read(&image, 3, 2, 1);
}

// Images of just the length that N and B ask for, so that N alone decides.
fn many_segments() {
    let mut over = [0u8; 196608];
    told(b"N=256", store::format(&mut over, 256, 2, ENOUGH));
    let mut some = [0u8; 49920];
    told(b"N=65", store::format(&mut some, 65, 2, ENOUGH));
    let mut most = [0u8; 195840];
    told(b"N=255", store::format(&mut most, 255, 2, ENOUGH));
}

fn example_11() {
    text(b"example 11\n");
    let mut image = [0u8; 16384];
    told(b"B=1", store::format(&mut image, 4, 1, ENOUGH));
    told(b"N=1", store::format(&mut image, 1, 15, ENOUGH));
    many_segments();
    let mut short = [0u8; 16383];
    told(b"a byte too few", store::format(&mut short, 4, 15, ENOUGH));
    told(b"format", store::format(&mut image, 4, 15, ENOUGH));
    told(
        b"put, budget 0",
        store::put(&mut image, 4, 15, BlockNumber(7), b"x", 0),
    );
    told(b"recover, budget 0", store::recover(&mut image, 4, 15, 0));
    read(&image, 4, 15, 7);
}

fn main() {
    example_2_and_4();
    example_3();
    example_5_and_6();
    text(b"example 7\n");
    cut(1, 5);
    cut(1, 6);
    text(b"example 8\n");
    cut(2, 27);
    cut(2, 28);
    cut(2, 29);
    example_9();
    example_10();
    example_11();
    text(b"request 104\n");
    all_bits();
    former_version();
    empty_record();
}
