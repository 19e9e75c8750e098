// The state of an image and what requests need of it, decided in one pass.
#![tactic(auto)]

ghost use Rattle.std.specs.Prelude.{◌≡◌, true, false, ◌+◌, ◌-◌, ◌*◌, ◌<◌, ◌≤◌, length};
ghost use Rattle.model.specs.Chip.{most_segments, most_slots, right_size};
ghost use Rattle.model.specs.State.{numbers_from, segments_of, slots_from};
ghost use Rattle.model.specs.Steps.{slot_at};
ghost use Rattle.flash.specs.Pages.{Sized};
ghost use Rattle.find.specs.Search.{found_in};
ghost use Rattle.judge.specs.Tally.{most_written};
ghost use Rattle.scan.specs.Surveys.{survey_of, owing_in, torn_in, clean_in, old_in, Looked};

use judge::Headers;
use model::{Geometry, SegmentNumber, SlotPlace};
use sums::Exam;

// The state of an image, with what a request needs in that state.
#[derive(Clone, Copy)]
pub enum Surveyed {
    // The smallest number in use, how many segments are, how many slots are live, the top's first empty slot, or as
    // many as it has, and how many compactions make room when there is none.
    Clean {
        first: SegmentNumber,
        used: usize,
        live: usize,
        free: usize,
        compactions: usize,
    },
    // (a): the segment after the top is neither in use nor blank.
    TornSegment {
        top: SegmentNumber,
    },
    // (b): the top is owing; whether its old segment is blank already.
    ErasePending {
        top: SegmentNumber,
        blank: bool,
    },
    // (c): the top's last written slot is torn.
    TornSlot {
        place: SlotPlace,
    },
    // (d): the older of two live slots with one block.
    OldSlot {
        place: SlotPlace,
    },
    Damaged,
}

// The number before the next one.
fn top_number(next: usize) -> SegmentNumber
    requires { next ≤ 4294967296 }
    ensures { result.0 ≡ next - 1 }
{
    SegmentNumber(next.saturating_sub(1) as u32)
}

// The place of a slot of the segment with a number.
fn slot_place(geometry: Geometry, number: usize, slot: usize) -> SlotPlace
    requires { (0 < geometry.segments) × (geometry.segments ≤ most_segments) × (geometry.slots ≤ most_slots) × (slot ≤ most_written) }
    ensures { result.0 ≡ slot_at geometry.segments geometry.slots number slot * 256 }
{
    SlotPlace((number % geometry.segments * (geometry.slots + 1) + 1 + slot) * 256)
}

// The survey where the top is owing: all is fine once its old segment, the one after it, is taken for erased.
fn survey_owing(geometry: Geometry, seen: Headers, exam: Exam) -> Surveyed
    requires { (2 ≤ geometry.segments) × (geometry.segments ≤ most_segments) × (2 ≤ geometry.slots) × (geometry.slots ≤ most_slots) × (seen.next ≤ 4294967296) × (exam.used ≤ most_segments) }
    ensures { result ≡ owing_in geometry.segments geometry.slots seen exam }
{
    let sum = exam.sum;
    if exam.used + 1 != geometry.segments {
        return Surveyed::Damaged;
    }
    if sums::orderly(sum, request::capacity(geometry.segments, geometry.slots)) {
        let top = top_number(seen.next);
        return Surveyed::ErasePending {
            top,
            blank: seen.blank,
        };
    }
    Surveyed::Damaged
}

// The survey where the segment after the top is neither in use nor blank: all is fine once it is taken for blank.
fn survey_torn(geometry: Geometry, seen: Headers, exam: Exam) -> Surveyed
    requires { (2 ≤ geometry.segments) × (geometry.segments ≤ most_segments) × (2 ≤ geometry.slots) × (geometry.slots ≤ most_slots) × (seen.next ≤ 4294967296) }
    ensures { result ≡ torn_in geometry.segments geometry.slots seen exam }
{
    let sum = exam.sum;
    if sums::orderly(sum, request::capacity(geometry.segments, geometry.slots)) {
        let top = top_number(seen.next);
        return Surveyed::TornSegment { top };
    }
    Surveyed::Damaged
}

// The survey of a clean image.
fn clean_survey(exam: Exam) -> Surveyed
    requires { exam.first < 4294967296 }
    ensures { result ≡ clean_in exam }
{
    let sum = exam.sum;
    let first = SegmentNumber(exam.first as u32);
    Surveyed::Clean {
        first,
        used: exam.used,
        live: sum.live,
        free: sum.written,
        compactions: sum.compactions,
    }
}

// The survey where the block of the slot written last has an older live slot, which is searched.
fn old_slot(image: &[u8], geometry: Geometry, exam: Exam) -> Surveyed
    requires { Sized geometry.segments geometry.slots (length image.now) × (exam.first < 4294967296) × (numbers_from geometry.segments (segments_of geometry.segments geometry.slots image.now) exam.used exam.first ≡ true) × (exam.first + exam.used ≤ 4294967296) }
    ensures { result ≡ old_in (found_in geometry.segments geometry.slots exam.first (slots_from geometry.segments (segments_of geometry.segments geometry.slots image.now) exam.used exam.first) exam.sum.block.0) }
{
    let sum = exam.sum;
    let block = sum.block;
    let first = SegmentNumber(exam.first as u32);
    let found = find::find(image, geometry, first, exam.used, block);
    match found {
        Some(older) => Surveyed::OldSlot { place: older.place },
        None => Surveyed::Damaged,
    }
}

// The survey where the top is not owing and the segment after it is blank or in use: the slots decide.
fn survey_slots(image: &[u8], geometry: Geometry, seen: Headers, exam: Exam) -> Surveyed
    requires { Looked geometry.segments geometry.slots image.now seen exam × (seen.owing ≡ false) × (seen.torn ≡ false) }
    ensures { result ≡ survey_of geometry.segments geometry.slots (segments_of geometry.segments geometry.slots image.now) }
{
    let sum = exam.sum;
    let most = request::capacity(geometry.segments, geometry.slots);
    if sums::orderly(sum, most) {
        return clean_survey(exam);
    }
    if sums::torn_within(sum, most) {
        let number = seen.next.saturating_sub(1);
        let place = slot_place(geometry, number, sum.written.saturating_sub(1));
        return Surveyed::TornSlot { place };
    }
    if sums::twin_within(sum, most + 1) {
        return old_slot(image, geometry, exam);
    }
    Surveyed::Damaged
}

// The state of an image of a right size, and what a request needs in that state. Headers first, since the slots of the
// segment after an owing top are not looked at; then each slot once, oldest segment first.
pub fn survey(image: &[u8], geometry: Geometry) -> Surveyed
    requires { right_size geometry.segments geometry.slots image.now ≡ true }
    ensures { result ≡ survey_of geometry.segments geometry.slots (segments_of geometry.segments geometry.slots image.now) }
{
    let seen = segments::see_headers(image, geometry);
    let frame = seen.frame;
    let exam = sums::examine(image, geometry, frame);
    if seen.owing {
        return survey_owing(geometry, seen, exam);
    }
    if seen.torn {
        return survey_torn(geometry, seen, exam);
    }
    survey_slots(image, geometry, seen, exam)
}
