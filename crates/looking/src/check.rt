// What a request is refused for by the state of the image.
ghost use Rattle.std.specs.Prelude.{◌≡◌};
ghost use Rattle.scan.specs.Surveys.{state_in};
ghost use Rattle.bridge.specs.Refusals.{answer_in};

use model::Answer;
use scan::Surveyed;

// The answer of a request that wants a clean image.
#[tactic(auto, unfolding(scan::specs::Surveys::state_in, bridge::specs::Refusals::answer_in))]
pub fn state_answer(survey: Surveyed) -> Answer
    ensures { result ≡ answer_in (state_in survey) }
{
    match survey {
        Surveyed::Clean { .. } => Answer::Done,
        Surveyed::TornSegment { .. }
        | Surveyed::ErasePending { .. }
        | Surveyed::TornSlot { .. }
        | Surveyed::OldSlot { .. } => Answer::Unfinished,
        Surveyed::Damaged => Answer::Damaged,
    }
}
