// What a command asks of the store, on the image alone.
#![tactic(auto)]

ghost use Rattle.std.specs.Prelude.{◌≡◌};
ghost use Rattle.model.specs.Answers.{code_of, performed};
ghost use Rattle.qbx_requests.specs.Requests.{performed_by};

use model::{Answer, Performed};
use qbx_verbs::Verb;
use qbx_words::Command;

// Nothing done.
fn idle() -> Performed
    ensures { (code_of result.answer ≡ 0) × (result.steps ≡ 0) }
{
    Performed {
        answer: Answer::Done,
        steps: 0,
    }
}

// A request that writes. A verb that does not write does nothing.
#[tactic(auto, unfolding(crate::specs::Requests::performed_by, model::specs::Answers::performed))]
pub fn perform(image: &mut [u8], command: Command, contents: &[u8]) -> Performed
    ensures { performed result image.new ≡ performed_by command.verb command contents.now image.old }
{
    let segments = command.segments as usize;
    let slots = command.slots as usize;
    let budget = command.budget;
    let block = command.block;
    match command.verb {
        Verb::Format => store::format(image, segments, slots, budget),
        Verb::Put => store::put(image, segments, slots, block, contents, budget),
        Verb::Delete => store::delete(image, segments, slots, block, budget),
        Verb::Recover => store::recover(image, segments, slots, budget),
        Verb::Get | Verb::Check | Verb::Account | Verb::Map | Verb::Salvage => idle(),
    }
}
