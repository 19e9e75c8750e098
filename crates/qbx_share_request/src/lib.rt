// What a tenant's command asks of the library, on the image and the shares alone.
#![tactic(auto)]

ghost use Rattle.std.specs.Prelude.{◌≡◌};
ghost use Rattle.qbx_share_request.specs.ShareRequest.{carried, carried_by};

use qbx_share_words::{ShareCommand, ShareVerb};
use text::Printed;

// Puts, reads or deletes a tenant's block. What is read is in the lent buffer.
pub fn perform(
    image: &mut [u8],
    shares: &[u32],
    command: ShareCommand,
    contents: &[u8],
    given: &mut [u8],
) -> Printed
    ensures { carried result given.new image.new ≡ carried_by command.verb command shares.now contents.now given.old image.old }
{
    let segments = command.segments as usize;
    let slots = command.slots as usize;
    let tenant = command.tenant;
    let block = command.block;
    match command.verb {
        ShareVerb::Put => {
            let answer = sharing::put(image, segments, slots, shares, tenant, block, contents);
            Printed { answer, length: 0 }
        }
        ShareVerb::Get => {
            sharing::read(&image[..], segments, slots, shares, tenant, block, given)
        }
        ShareVerb::Delete => {
            let answer = sharing::delete(image, segments, slots, shares, tenant, block);
            Printed { answer, length: 0 }
        }
    }
}
