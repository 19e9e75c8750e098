// What a move or a rebuild asks of the library, on the images alone.
#![tactic(auto)]

ghost use Rattle.std.specs.Prelude.{◌≡◌};
ghost use Rattle.model.specs.Answers.{performed};
ghost use Rattle.qbx_move_request.specs.MoveRequest.{built_by};

use model::Performed;
use qbx_move_words::Move;

// Builds the target anew from what the source stores, or from what can be salvaged of it, as far as the budget goes.
pub fn perform(source: &[u8], target: &mut [u8], command: Move) -> Performed
    ensures { performed result target.new ≡ built_by command.salvages command source.now target.old }
{
    let from = command.source;
    let to = command.target;
    let segments = from.segments as usize;
    let slots = from.slots as usize;
    let target_segments = to.segments as usize;
    let target_slots = to.slots as usize;
    let budget = command.budget;
    let salvages = command.salvages;
    if salvages {
        return rebuilding::rebuild(
            source,
            segments,
            slots,
            target,
            target_segments,
            target_slots,
            budget,
        );
    }
    moving::move_to(
        source,
        segments,
        slots,
        target,
        target_segments,
        target_slots,
        budget,
    )
}
