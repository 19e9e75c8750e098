// What a command prints of an image, in a lent buffer.
#![tactic(auto)]

ghost use Rattle.std.specs.Prelude.{◌≡◌, ◌≤◌, length};
ghost use Rattle.text.specs.Buffer.{printed};
ghost use Rattle.qbx_texts.specs.Texts.{printed_by};

use qbx_verbs::Verb;
use qbx_words::Command;
use text::Printed;

// A text about the image, in a lent buffer. A verb that prints none has none.
#[tactic(auto, unfolding(crate::specs::Texts::printed_by))]
pub fn describe(image: &[u8], command: Command, text: &mut [u8]) -> Printed
    ensures { (printed result text.new ≡ printed_by command.verb command image.now text.old) × (result.length ≤ length text.new) }
{
    let segments = command.segments as usize;
    let slots = command.slots as usize;
    match command.verb {
        Verb::Account => accounts::account(image, segments, slots, text),
        Verb::Map => accounts::map(image, segments, slots, text),
        Verb::Salvage => salvaging::salvage(image, segments, slots, text),
        Verb::Format | Verb::Put | Verb::Get | Verb::Delete | Verb::Recover | Verb::Check =>
            text::print(text, b""),
    }
}
