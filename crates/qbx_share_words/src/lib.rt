// The words of a tenant's command, read: IMAGE N B share-put SHARES TENANT BLOCK, or with share-get or share-delete.
#![tactic(auto)]

ghost use Rattle.std.specs.Prelude.{◌≡◌};
ghost use Rattle.qbx_share_words.specs.Share.{share_verb_of, of_tenant, share_of};

use model::BlockNumber;
use qbx_numbers::{number, number16, number32};
use qbx_words::{Complaint, is, is_missing};

#[derive(Clone, Copy)]
pub enum ShareVerb {
    Put,
    Get,
    Delete,
}

// A tenant's command whose words were right. The file of the shares is named beside it.
#[derive(Clone, Copy)]
pub struct ShareCommand {
    pub segments: u64,
    pub slots: u64,
    pub verb: ShareVerb,
    pub tenant: u32,
    pub block: BlockNumber,
}

// Which of the three a tenant's verb is, if a word is one. It is no other command's: a file of shares and a tenant follow it.
#[tactic(auto, unfolding(crate::specs::Share::share_verb_of, text::specs::Text::text))]
pub fn share_verb_of(verb: &[u8]) -> Option<ShareVerb>
    ensures { result ≡ share_verb_of verb.now }
{
    if is(verb, b"share-put") {
        return Some(ShareVerb::Put);
    }
    if is(verb, b"share-get") {
        return Some(ShareVerb::Get);
    }
    if is(verb, b"share-delete") {
        return Some(ShareVerb::Delete);
    }
    None
}

// The words after the name of the shares' file.
#[tactic(auto, unfolding(crate::specs::Share::of_tenant, qbx_numbers::specs::Number::as_number))]
fn of_tenant(
    segments: u64,
    slots: u64,
    verb: ShareVerb,
    tenant: &[u8],
    block: &[u8],
) -> Result<ShareCommand, Complaint>
    ensures { result ≡ of_tenant segments slots verb tenant.now block.now }
{
    Ok(ShareCommand {
        segments,
        slots,
        verb,
        tenant: number32(tenant).ok_or(Complaint::Tenant)?,
        block: BlockNumber(number16(block).ok_or(Complaint::Block)?),
    })
}

// The words after the image's name; those that are missing are empty. A verb that is none of the three is taken for the last.
#[tactic(auto, unfolding(crate::specs::Share::share_of, crate::specs::Share::or_delete, qbx_numbers::specs::Number::as_number))]
pub fn share_of(
    segments: &[u8],
    slots: &[u8],
    verb: &[u8],
    shares: &[u8],
    tenant: &[u8],
    block: &[u8],
) -> Result<ShareCommand, Complaint>
    ensures { result ≡ share_of segments.now slots.now verb.now shares.now tenant.now block.now }
{
    let segments = number(segments).ok_or(Complaint::Segments)?;
    let slots = number(slots).ok_or(Complaint::Slots)?;
    if is_missing(shares) {
        return Err(Complaint::NoShares);
    }
    let verb = share_verb_of(verb).unwrap_or(ShareVerb::Delete);
    of_tenant(segments, slots, verb, tenant, block)
}
