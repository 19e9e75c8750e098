// The first of the eight conditions of Clean that an image fails (request #101: fails). Nothing is excused, and any bytes may
// be in the image. Headers first; slots only where conditions 1 to 4 hold, since they say which segments are looked at.
#![tactic(auto)]

ghost use Rattle.std.specs.Prelude.{◌≡◌, true, false, not, ◌&&◌, ◌||◌, ◌+◌, ◌*◌, ◌<◌, ◌≤◌, length};
ghost use Rattle.model.specs.Chip.{most_segments, most_slots, right_size};
ghost use Rattle.model.specs.State.{conditions, numbers_from, segments_of};
ghost use Rattle.flash.specs.Pages.{Sized};
ghost use Rattle.judge.specs.Heads.{bare};
ghost use Rattle.judge.specs.Parts.{rows_on};
ghost use Rattle.judge.specs.Rows.{kinds_at};
ghost use Rattle.account_text.specs.Account.{first_failing};
ghost use Rattle.faults.specs.Tests.{test_head, head_tests, head_place, heads_told, wrote, next_row, look, test_slot, test_slots, rows_tested, slot_place};

use judge::{HeaderCounts, Summary};
use model::{Geometry, SlotKind};

// The segments by their headers: counted, whether none is owing, and whether all that are not in use are blank.
#[derive(Clone, Copy)]
struct HeadTests {
    counts: HeaderCounts,
    none_owing: bool,
    others_blank: bool,
}

// The smallest number in use, how many segments are, and the first of conditions 1 to 4 that fails, or 0.
#[derive(Clone, Copy)]
struct HeadsTold {
    first: usize,
    used: usize,
    place: usize,
}

// The slots so far, oldest segment first: whether none is wrong or torn; whether no block was met twice; whether empty ones
// come last, and in the last segment only; whether that one has any; and how many are live.
#[derive(Clone, Copy)]
struct SlotTests {
    sound: bool,
    distinct: bool,
    in_order: bool,
    room: bool,
    live: usize,
}

// ---- headers

// One segment more.
fn test_head(tests: HeadTests, s: Summary) -> HeadTests
    requires { (tests.counts.used < most_segments) × (tests.counts.next ≤ 4294967296) }
    ensures { (result ≡ test_head tests (bare s)) × (result.counts.used ≤ tests.counts.used + 1) × (result.counts.next ≤ 4294967296) }
{
    HeadTests {
        counts: segments::count_one(tests.counts, s),
        none_owing: tests.none_owing && !summary::is_owing(s),
        others_blank: tests.others_blank && !summary::is_invalid(s),
    }
}

// Every segment.
fn test_heads(image: &[u8], segments: usize, slots: usize) -> HeadTests
    requires { Sized segments slots (length image.now) }
    ensures { (result ≡ head_tests (segments_of segments slots image.now)) × (result.counts.used ≤ most_segments) × (result.counts.next ≤ 4294967296) }
{
    let geometry = Geometry { segments, slots };
    let mut tests = HeadTests {
        counts: segments::none_counted(),
        none_owing: true,
        others_blank: true,
    };
    for i in 0..segments {
        tests = test_head(tests, summary::see_segment(image, geometry, i));
    }
    tests
}

// Whether so many segments are in use with the numbers from the first on. Each is looked at once more where its number
// puts it: one that is in use costs a header, and a table of them would be a copy for each hand-over.
fn numbers_follow(image: &[u8], segments: usize, slots: usize, first: usize, used: usize) -> bool
    requires { Sized segments slots (length image.now) × (first ≤ 4294967296) × (used ≤ most_segments) }
    ensures { result ≡ numbers_from segments (segments_of segments slots image.now) used first }
{
    let geometry = Geometry { segments, slots };
    for k in 0..used {
        let number = first + k;
        let s = summary::see_segment(image, geometry, number % segments);
        if summary::number_after(s) != number + 1 {
            return false;
        }
    }
    true
}

fn one_version(counts: HeaderCounts) -> bool
    ensures { result ≡ (counts.all_version_1 || counts.all_version_2) }
{
    counts.all_version_1 || counts.all_version_2
}

// The first of conditions 1 to 4 that fails, or 0.
#[tactic(auto, unfolding(crate::specs::Tests::head_place, account_text::specs::Account::first_failing))]
fn head_place(tests: HeadTests, follow: bool, segments: usize) -> usize
    requires { 0 < segments }
    ensures { result ≡ head_place segments tests follow }
{
    let counts = tests.counts;
    if counts.used == 0 {
        return 1;
    }
    if counts.used >= segments {
        return 1;
    }
    if !follow {
        return 2;
    }
    if !one_version(counts) {
        return 2;
    }
    if !tests.none_owing {
        return 3;
    }
    if !tests.others_blank {
        return 4;
    }
    0
}

// What the headers tell.
fn see_heads(image: &[u8], segments: usize, slots: usize) -> HeadsTold
    requires { Sized segments slots (length image.now) }
    ensures { (result ≡ heads_told segments (segments_of segments slots image.now)) × (result.first ≤ 4294967296) × (result.used ≤ most_segments) }
{
    let tests = test_heads(image, segments, slots);
    let counts = tests.counts;
    let used = counts.used;
    let first = counts.next.saturating_sub(used);
    let follow = numbers_follow(image, segments, slots, first, used);
    let place = head_place(tests, follow, segments);
    HeadsTold { first, used, place }
}

// ---- slots

// A slot that is not empty follows.
fn written(tests: SlotTests) -> SlotTests
    ensures { result ≡ wrote tests tests.sound tests.distinct tests.live }
{
    SlotTests {
        in_order: tests.in_order && !tests.room,
        ..tests
    }
}

// One follows that is wrong or torn.
fn unsound(tests: SlotTests) -> SlotTests
    ensures { result ≡ wrote tests false tests.distinct tests.live }
{
    SlotTests {
        sound: false,
        ..written(tests)
    }
}

// The next slot. The number of a live one is met, whatever came before.
fn test_slot(tests: SlotTests, kind: SlotKind, seen: &mut [u64; 1024]) -> SlotTests
    requires { tests.live ≤ 1000000 }
    ensures { look result seen.new ≡ test_slot kind (look tests seen.old) }
{
    match kind {
        SlotKind::Empty => SlotTests {
            room: true,
            ..tests
        },
        SlotKind::Torn => unsound(tests),
        SlotKind::Live { block, .. } => {
            let met = rows::meet(seen, block);
            SlotTests {
                distinct: tests.distinct && !met,
                live: tests.live + 1,
                ..written(tests)
            }
        }
        SlotKind::Dead => written(tests),
        SlotKind::Cut => written(tests),
        SlotKind::Wrong => unsound(tests),
    }
}

// The slots of a segment, from the offset of the first one.
fn test_row(
    image: &[u8],
    at: usize,
    slots: usize,
    before: SlotTests,
    seen: &mut [u64; 1024],
) -> SlotTests
    requires { (at + slots * 256 ≤ length image.now) × (slots ≤ most_slots) × (before.live ≤ 100000) }
    ensures { (look result seen.new ≡ test_slots (kinds_at image.now at slots) (look before seen.old)) × (result.live ≤ before.live + slots) }
{
    let mut tests = before;
    for i in 0..slots {
        let a = at + i * 256;
        let e = a + 256;
        tests = test_slot(tests, slot::slot_kind(&image[a..e]), seen);
    }
    tests
}

// A segment follows: those before may have no empty slot.
fn next_row(tests: SlotTests) -> SlotTests
    ensures { result ≡ next_row tests }
{
    let full = written(tests);
    SlotTests {
        room: false,
        ..full
    }
}

// The slots of so many segments, by number from the first on.
fn test_rows(image: &[u8], segments: usize, slots: usize, first: usize, used: usize) -> SlotTests
    requires { Sized segments slots (length image.now) × (first ≤ 4294967296) × (used ≤ most_segments) }
    ensures { result ≡ rows_tested (rows_on image.now segments slots used first) }
{
    let mut seen = [0u64; 1024];
    let mut tests = SlotTests {
        sound: true,
        distinct: true,
        in_order: true,
        room: false,
        live: 0,
    };
    for k in 0..used {
        let at = ((first + k) % segments * (slots + 1) + 1) * 256;
        tests = test_row(image, at, slots, next_row(tests), &mut seen);
    }
    tests
}

// The first of conditions 5 to 8 that fails, or 0.
fn slot_place(tests: SlotTests, most: usize) -> usize
    ensures { result ≡ slot_place most tests }
{
    if !tests.sound {
        return 5;
    }
    if !tests.distinct {
        return 6;
    }
    if !tests.in_order {
        return 7;
    }
    if tests.live > most {
        return 8;
    }
    0
}

// The first condition of Clean that fails, or 0 if the image is clean.
// Kept: 0 for none is that of the definition `Account.first_failing`, which this equals.
pub fn first_failing(image: &[u8], segments: usize, slots: usize) -> usize
    requires { right_size segments slots image.now ≡ true }
    ensures { (result ≡ first_failing 1 (conditions segments slots (segments_of segments slots image.now))) × (result ≤ 8) }
{
    let told = see_heads(image, segments, slots);
    if told.place > 0 {
        return told.place;
    }
    let tests = test_rows(image, segments, slots, told.first, told.used);
    slot_place(tests, request::capacity(segments, slots))
}
