// Put, delete and read by tenant (request #110): a layer over the store, which knows no tenants. It asks the store by its
// public requests alone, so that what the layer promises follows from their contracts. Nothing is required of a caller.
#![tactic(auto)]

ghost use Rattle.std.specs.Prelude.{◌≡◌, length, ◌≤◌, true};
ghost use Rattle.model.specs.Chip.{right_size};
ghost use Rattle.model.specs.Slot.{most_contents, number_ok};
ghost use Rattle.text.specs.Buffer.{printed};
ghost use Rattle.shares.specs.Layer.{puts, deletes, reads, share_outcome, wrote, gave_in};
ghost use Rattle.share_list.specs.Places.{share_in};
ghost use Rattle.sharing.specs.Within.{outcome_within};

use model::{Answer, BlockNumber};
use share_list::Part;
use text::Printed;

// More steps than any request takes: a tenant's request is never cut by its budget.
const ALL_STEPS: u64 = 18446744073709551615;

// Stores contents under a block number, for a tenant whose share it is of. One pass over the image counts the share's blocks,
// and then the store is asked, whatever the count was: with no step to take if the quota is used, so that it says what it
// asks before its own room, and writes nothing.
fn put_within(
    image: &mut [u8],
    segments: usize,
    slots: usize,
    part: Part,
    block: BlockNumber,
    contents: &[u8],
) -> Answer
    requires { (right_size segments slots image.old ≡ true) × (number_ok block.0 ≡ true) }
    ensures { wrote result image.new ≡ outcome_within segments slots (share_in part) image.old (puts block.0 contents.now) }
{
    let counted = store::count(&image[..], segments, slots, part.first, part.last, block);
    if admission::quota_used(counted, part.quota) {
        let asked = store::put(image, segments, slots, block, contents, 0);
        let answer = asked.answer;
        return admission::before_full(answer);
    }
    let performed = store::put(image, segments, slots, block, contents, ALL_STEPS);
    performed.answer
}

// Stores contents under a tenant's block number.
#[tactic(auto, unfolding(shares::specs::Layer::wrote, shares::specs::Layer::block_asked))]
pub fn put(
    image: &mut [u8],
    segments: usize,
    slots: usize,
    shares: &[u32],
    tenant: u32,
    block: BlockNumber,
    contents: &[u8],
) -> Answer
    ensures { wrote result image.new ≡ share_outcome segments slots shares.now image.old tenant (puts block.0 contents.now) }
{
    let admitted = admission::admit(&image[..], segments, slots, shares, tenant, block);
    match admitted {
        Err(answer) => answer,
        Ok(part) => put_within(image, segments, slots, part, block, contents),
    }
}

// Deletes a tenant's block.
#[tactic(auto, unfolding(shares::specs::Layer::wrote, shares::specs::Layer::block_asked))]
pub fn delete(
    image: &mut [u8],
    segments: usize,
    slots: usize,
    shares: &[u32],
    tenant: u32,
    block: BlockNumber,
) -> Answer
    ensures { wrote result image.new ≡ share_outcome segments slots shares.now image.old tenant (deletes block.0) }
{
    let admitted = admission::admit(&image[..], segments, slots, shares, tenant, block);
    if let Err(answer) = admitted {
        return answer;
    }
    let performed = store::delete(image, segments, slots, block, ALL_STEPS);
    performed.answer
}

// Copies the contents of a tenant's block to the front of a lent buffer, or leaves all of it as it is. The tenant is not told
// where in the image they lie.
#[tactic(auto, unfolding(text::specs::Buffer::printed, shares::specs::Layer::gave_in, shares::specs::Layer::block_asked, model::specs::Slot::most_contents))]
pub fn read(
    image: &[u8],
    segments: usize,
    slots: usize,
    shares: &[u32],
    tenant: u32,
    block: BlockNumber,
    contents: &mut [u8],
) -> Printed
    ensures { (printed result contents.new ≡ gave_in (share_outcome segments slots shares.now image.now tenant (reads block.0 (length contents.old))) contents.old) × (result.length ≤ most_contents) }
{
    let admitted = admission::admit(image, segments, slots, shares, tenant, block);
    if let Err(answer) = admitted {
        return Printed { answer, length: 0 };
    }
    let located = store::read(image, segments, slots, block);
    let answer = located.answer;
    if request::code_of(answer) > 0 {
        return Printed { answer, length: 0 };
    }
    let start = located.offset;
    let end = start + located.length;
    text::print(contents, &image[start..end])
}
