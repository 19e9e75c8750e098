// The requests: each refuses, or plans and performs a list of flash steps under a budget. Nothing is required of a caller.
//
// Forms that document 01 names: the budget (its allowance) falls with each flash step, and `request` counts the steps by it;
// block numbers, segment numbers and slot places are the three tuple structs of `model`; `let .. else` takes the clean
// survey or the slot that was found, and all else is a refusal; `read_or` returns a part of either of two slices.
#![tactic(auto)]

ghost use Rattle.std.specs.Prelude.{◌≡◌, false};
ghost use Rattle.model.specs.Answers.{performed, outcome_of, format, put, delete, recover, located, read_outcome, piece_or, counted, count_outcome};

use counting::Sought;
use model::{Answer, BlockNumber, Counted, Geometry, Located, Performed, SegmentNumber};
use room::Plan;
use scan::Surveyed;

// How many steps open a segment.
const OPENING: u64 = 21;

// Erases every segment and opens the first.
pub fn format(image: &mut [u8], segments: usize, slots: usize, budget: u64) -> Performed
    ensures { performed result image.new ≡ outcome_of segments slots image.old budget format }
{
    let geometry = Geometry { segments, slots };
    if !request::right_size(image.len(), segments, slots) {
        return request::refused(Answer::Size);
    }
    let erased = erasing::erase_all(image, geometry, budget);
    let left = header_steps::open_header(image, geometry, 0, SegmentNumber(0), erased);
    request::finished(budget, left, erased, OPENING)
}

// Stores contents under a block number, which has a slot of its own from then on.
pub fn put(
    image: &mut [u8],
    segments: usize,
    slots: usize,
    block: BlockNumber,
    contents: &[u8],
    budget: u64,
) -> Performed
    ensures { performed result image.new ≡ outcome_of segments slots image.old budget (put block.0 contents.now) }
{
    let geometry = Geometry { segments, slots };
    if !request::right_size(image.len(), segments, slots) {
        return request::refused(Answer::Size);
    }
    if !request::number_ok(block) {
        return request::refused(Answer::Number);
    }
    if !request::length_ok(contents.len()) {
        return request::refused(Answer::Length);
    }
    let surveyed = scan::survey(&image[..], geometry);
    let Surveyed::Clean {
        first,
        used,
        live,
        free,
        compactions,
    } = surveyed
    else {
        return request::refused(looking::check::state_answer(surveyed));
    };
    let plan = Plan {
        first,
        used,
        slot: free,
        compactions,
    };
    put::put_clean(image, geometry, plan, live, block, contents, budget)
}

// Deletes a block: its slot is marked dead.
pub fn delete(
    image: &mut [u8],
    segments: usize,
    slots: usize,
    block: BlockNumber,
    budget: u64,
) -> Performed
    ensures { performed result image.new ≡ outcome_of segments slots image.old budget (delete block.0) }
{
    let looked = looking::look(&image[..], segments, slots, block);
    match looked {
        Err(answer) => request::refused(answer),
        Ok(old) => mend::mark_slot(image, old.place, budget),
    }
}

// Where a block's contents are in the image.
#[tactic(auto, unfolding(model::specs::Answers::located))]
pub fn read(image: &[u8], segments: usize, slots: usize, block: BlockNumber) -> Located
    ensures { located result ≡ read_outcome segments slots image.now block.0 }
{
    let looked = looking::look(image, segments, slots, block);
    match looked {
        Err(answer) => Located {
            answer,
            offset: 0,
            length: 0,
        },
        Ok(slot) => Located {
            answer: Answer::Done,
            offset: slot.place.0 + 8,
            length: slot.length,
        },
    }
}

// Hands back a block's contents as a part of the image; or, if the block is not stored, the whole default record that is lent
// beside it (document 01: factory record); or, if the read is refused for another reason, an empty part of the image.
// Nothing is copied. The code of the answer is told beside it.
pub fn read_or<'a>(
    image: &'a [u8],
    factory: &'a [u8],
    segments: usize,
    slots: usize,
    block: BlockNumber,
    code: &mut u8,
) -> &'a [u8]
    ensures { (result.now ≡ piece_or segments slots image.now block.0 factory.now) × (code.new ≡ (read_outcome segments slots image.now block.0).code) }
{
    let looked = looking::look(image, segments, slots, block);
    match looked {
        Err(answer) => {
            *code = request::code_of(answer);
            if let Answer::Absent = answer {
                return factory;
            }
            &image[0..0]
        }
        Ok(slot) => {
            *code = 0;
            let start = slot.place.0 + 8;
            let end = start + slot.length;
            &image[start..end]
        }
    }
}

// A count that was refused.
fn uncounted(answer: Answer) -> Counted
    ensures { result ≡ record { answer = answer; blocks = 0; stored = false } }
{
    Counted {
        answer,
        blocks: 0,
        stored: false,
    }
}

// How many blocks of a range of numbers are stored, and whether one block is (request #110): both by one walk.
pub fn count(
    image: &[u8],
    segments: usize,
    slots: usize,
    first: BlockNumber,
    last: BlockNumber,
    block: BlockNumber,
) -> Counted
    ensures { counted result ≡ count_outcome segments slots image.now first.0 last.0 block.0 }
{
    let geometry = Geometry { segments, slots };
    if !request::right_size(image.len(), segments, slots) {
        return uncounted(Answer::Size);
    }
    let surveyed = scan::survey(image, geometry);
    let Surveyed::Clean {
        first: oldest,
        used,
        ..
    } = surveyed
    else {
        return uncounted(looking::check::state_answer(surveyed));
    };
    let sought = Sought { first, last, block };
    let met = counting::count_live(image, geometry, oldest, used, sought);
    Counted {
        answer: Answer::Done,
        blocks: met.blocks,
        stored: met.stored,
    }
}

// Finishes what a power cut has left unfinished.
pub fn recover(image: &mut [u8], segments: usize, slots: usize, budget: u64) -> Performed
    ensures { performed result image.new ≡ outcome_of segments slots image.old budget recover }
{
    let geometry = Geometry { segments, slots };
    if !request::right_size(image.len(), segments, slots) {
        return request::refused(Answer::Size);
    }
    let surveyed = scan::survey(&image[..], geometry);
    mend::mend(image, geometry, surveyed, budget)
}
