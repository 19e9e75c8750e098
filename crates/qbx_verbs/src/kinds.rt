// Whether a verb names a block, and whether it writes.
ghost use Rattle.std.specs.Prelude.{◌≡◌};
ghost use Rattle.qbx_verbs.specs.Verbs.{names_block, writes};

use crate::Verb;

#[tactic(auto, unfolding(crate::specs::Verbs::names_block))]
pub fn names_block(verb: Verb) -> bool
    ensures { result ≡ names_block verb }
{
    matches!(verb, Verb::Put | Verb::Get | Verb::Delete)
}

#[tactic(auto, unfolding(crate::specs::Verbs::writes))]
pub fn writes(verb: Verb) -> bool
    ensures { result ≡ writes verb }
{
    matches!(
        verb,
        Verb::Format | Verb::Put | Verb::Delete | Verb::Recover
    )
}
