// What a tenant's request is refused for before the image is looked at (request #110), and how its quota decides a put.
#![tactic(auto)]

ghost use Rattle.std.specs.Prelude.{◌≡◌, cond, ◌&&◌, not, leb};
ghost use Rattle.model.specs.Answers.{code_of};
ghost use Rattle.shares.specs.Layer.{before_full};
ghost use Rattle.admission.specs.Admission.{Admits};

use model::{Answer, BlockNumber, Counted};
use share_list::Part;

// The tenant's share, which the block is of; or why the request is refused: by the size, the list of shares, the block's
// number, and whose it is, in this order. The list comes before the number since nobody has a share in a wrong one, and the
// number before its owner since a number that no block has is nobody's.
pub fn admit(
    image: &[u8],
    segments: usize,
    slots: usize,
    shares: &[u32],
    tenant: u32,
    block: BlockNumber,
) -> Result<Part, Answer>
    ensures { Admits segments slots shares.now image.now tenant block.0 result }
{
    if !request::right_size(image.len(), segments, slots) {
        return Err(Answer::Size);
    }
    if !share_list::shares_ok(shares, request::capacity(segments, slots)) {
        return Err(Answer::Shares);
    }
    if !request::number_ok(block) {
        return Err(Answer::Number);
    }
    if !share_list::owns(shares, tenant, block) {
        return Err(Answer::Foreign);
    }
    Ok(share_list::share_of(shares, tenant))
}

// Whether a put would store one block more than the quota allows. One that is stored already takes no place of the quota.
pub fn quota_used(counted: Counted, quota: usize) -> bool
    ensures { result ≡ (not counted.stored && leb quota counted.blocks) }
{
    if counted.stored {
        return false;
    }
    quota <= counted.blocks
}

// What a put is answered where the quota is used: what the store asks before its own room, or 7.
#[tactic(auto, unfolding(model::specs::Answers::code_of, shares::specs::Layer::before_full))]
pub fn before_full(answer: Answer) -> Answer
    ensures { code_of result ≡ cond (before_full (code_of answer)) (code_of answer) 7 }
{
    match answer {
        Answer::Length => Answer::Length,
        Answer::Damaged => Answer::Damaged,
        Answer::Unfinished => Answer::Unfinished,
        Answer::FormerVersion => Answer::FormerVersion,
        _ => Answer::Full,
    }
}
