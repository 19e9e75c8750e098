// The words of the command line of qbx, read.
#![tactic(auto)]

mod commands;

pub use commands::{command_of, is_missing};
use model::BlockNumber;
pub use qbx_verb_words::is;
use qbx_verbs::Verb;

// A command whose words were right. A verb that names no block has block 0.
#[derive(Clone, Copy)]
pub struct Command {
    pub segments: u64,
    pub slots: u64,
    pub verb: Verb,
    pub block: BlockNumber,
    pub budget: u64,
}

// The word of a command that is wrong.
#[derive(Clone, Copy)]
pub enum Complaint {
    Segments,
    Slots,
    NoVerb,
    Block,
    NoTarget,
    TargetSegments,
    TargetSlots,
    NoShares,
    Tenant,
    NoOption,
    Budget,
}
