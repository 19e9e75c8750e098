// A request before the image is looked at, and what comes back from it.
#![tactic(auto)]

ghost use Rattle.std.specs.Prelude.{◌≡◌, ◌&&◌, ◌≤◌, eqb};
ghost use Rattle.model.specs.Chip.{most_segments, most_slots, largest_image, in_range, image_length};
ghost use Rattle.model.specs.Slot.{number_ok};
ghost use Rattle.model.specs.State.{capacity};
ghost use Rattle.model.specs.Answers.{code_of, length_ok};
ghost use Rattle.request.specs.Request.{size_of, Refused, Finished};

use model::{Answer, BlockNumber, MOST_SEGMENTS, Performed};

// The most bytes of contents.
const MOST_CONTENTS: usize = 248;

// ---- its arguments

// Whether an image can have so many segments and slots.
pub fn in_range(segments: usize, slots: usize) -> bool
    ensures { result ≡ in_range segments slots }
{
    if segments < 2 {
        return false;
    }
    if segments > MOST_SEGMENTS {
        return false;
    }
    if slots < 2 {
        return false;
    }
    slots <= 255
}

// The bytes of an image with so many segments and slots, or 0. The ranges are tested before anything is multiplied.
// Kept: 0 and no Option: the definition `size_of` gives 0 there.
pub fn size_of(segments: usize, slots: usize) -> usize
    ensures { (result ≡ size_of segments slots) × (result ≤ largest_image) }
{
    if in_range(segments, slots) {
        return segments * (slots + 1) * 256;
    }
    0
}

// Whether N, B and the image's length are as they should be.
pub fn right_size(bytes: usize, segments: usize, slots: usize) -> bool
    ensures { result ≡ (in_range segments slots && eqb bytes (image_length segments slots)) }
{
    if in_range(segments, slots) {
        return bytes == size_of(segments, slots);
    }
    false
}

// Whether a block may have this number.
pub fn number_ok(block: BlockNumber) -> bool
    ensures { result ≡ number_ok block.0 }
{
    let n = block.0;
    if n == 0 {
        return false;
    }
    n < 65535
}

// Whether a put takes contents of so many bytes: at least one, and no more than a slot holds.
pub fn length_ok(bytes: usize) -> bool
    ensures { result ≡ length_ok bytes }
{
    if bytes == 0 {
        return false;
    }
    bytes <= MOST_CONTENTS
}

// The most live slots (document 01: the capacity C).
pub fn capacity(segments: usize, slots: usize) -> usize
    requires { (2 ≤ segments) × (segments ≤ most_segments) × (2 ≤ slots) × (slots ≤ most_slots) }
    ensures { (result ≡ capacity segments slots) × (result ≤ 1000000) }
{
    (segments - 1) * slots - 1
}

// ---- what comes back

// A refusal takes no step.
pub fn refused(answer: Answer) -> Performed
    ensures { Refused answer result }
{
    Performed { answer, steps: 0 }
}

// A list of steps was performed, as far as the budget went. It has fallen with each step, so what is missing of it counts
// the steps done. The list was cut short just if what was left before its last part, of one step at least, does not cover that part.
pub fn finished(budget: u64, left: u64, before: u64, last: u64) -> Performed
    requires { left ≤ budget }
    ensures { Finished budget left before last result }
{
    if before < last {
        return Performed {
            answer: Answer::Cut,
            steps: budget - left,
        };
    }
    Performed {
        answer: Answer::Done,
        steps: budget - left,
    }
}

// The number of an answer in document 01's table; 10 is of request #102, 11 of #104, 12 and 13 of #110, 14 of
// #101.
#[tactic(auto, unfolding(model::specs::Answers::code_of))]
pub fn code_of(answer: Answer) -> u8
    ensures { result ≡ code_of answer }
{
    match answer {
        Answer::Done => 0,
        Answer::Size => 1,
        Answer::Number => 2,
        Answer::Length => 3,
        Answer::Damaged => 4,
        Answer::Unfinished => 5,
        Answer::Absent => 6,
        Answer::Full => 7,
        Answer::Worn => 8,
        Answer::Cut => 9,
        Answer::ShortTable => 10,
        Answer::FormerVersion => 11,
        Answer::Foreign => 12,
        Answer::Shares => 13,
        Answer::ShortBuffer => 14,
    }
}

// The same, to reckon with.
pub fn number_of(answer: Answer) -> u64
    ensures { (result ≡ code_of answer) × (result ≤ 255) }
{
    u64::from(code_of(answer))
}
