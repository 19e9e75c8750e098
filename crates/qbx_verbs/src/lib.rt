// The verbs of qbx, and what each is for.
#![tactic(auto)]

mod kinds;

ghost use Rattle.std.specs.Prelude.{◌≡◌};
ghost use Rattle.qbx_verbs.specs.Verbs.{prints};

pub use kinds::{names_block, writes};

#[derive(Clone, Copy)]
pub enum Verb {
    Format,
    Put,
    Get,
    Delete,
    Recover,
    Check,
    Account,
    Map,
    Salvage,
}

// Whether what a verb says is a text of many lines.
#[tactic(auto, unfolding(crate::specs::Verbs::prints))]
pub fn prints(verb: Verb) -> bool
    ensures { result ≡ prints verb }
{
    matches!(verb, Verb::Account | Verb::Map | Verb::Salvage)
}
