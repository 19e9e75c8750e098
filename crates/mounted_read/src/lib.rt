// The mounted form of read (request #102), and what refuses every mounted call. Nothing is required of a caller.
#![tactic(auto)]

ghost use Rattle.std.specs.Prelude.{◌≡◌};
ghost use Rattle.model.specs.Answers.{code_of, located};
ghost use Rattle.model.specs.Mounted.{mounted_refusal, MountedRead};

use model::{Answer, BlockNumber, Located};
use places::{LEAST_PLACES, Stale};

// What refuses a mounted call whatever the table says of the image: 1, 10, 2, 3, and 5 for a table that is not usable.
// Kept: an `Answer` and no Result, since `mounted_refusal` counts none as 0, which is the code of `Done`.
pub fn refusal(
    image: &[u8],
    segments: usize,
    slots: usize,
    places: &[u32],
    block: BlockNumber,
    taken: bool,
) -> Answer
    ensures { code_of result ≡ mounted_refusal segments slots image.now places.now block.0 taken }
{
    if !request::right_size(image.len(), segments, slots) {
        return Answer::Size;
    }
    if places.len() < LEAST_PLACES {
        return Answer::ShortTable;
    }
    if !request::number_ok(block) {
        return Answer::Number;
    }
    if !taken {
        return Answer::Length;
    }
    if places[0] != 1 {
        return Answer::Unfinished;
    }
    Answer::Done
}

// Where a block's contents are in the image: two entries of the table and the slot's length are looked at.
pub fn read(
    image: &[u8],
    segments: usize,
    slots: usize,
    places: &[u32],
    block: BlockNumber,
) -> Located
    ensures { MountedRead segments slots block.0 (located result) image.now places.now }
{
    let refused = refusal(image, segments, slots, places, block, true);
    let Answer::Done = refused else {
        return nowhere(refused);
    };
    match places::look_up(image, slots, places, block) {
        Ok(Some(slot)) => Located {
            answer: Answer::Done,
            offset: slot.place.0 + 8,
            length: slot.length,
        },
        Ok(None) => nowhere(Answer::Absent),
        Err(Stale) => nowhere(Answer::Damaged),
    }
}

// A read that is refused tells no place.
fn nowhere(answer: Answer) -> Located
    ensures { (result.answer ≡ answer) × (result.offset ≡ 0) × (result.length ≡ 0) }
{
    Located {
        answer,
        offset: 0,
        length: 0,
    }
}
