// The words of a command line, read.
ghost use Rattle.std.specs.Prelude.{◌≡◌};
ghost use Rattle.qbx_words.specs.Command.{is_missing, with_budget, with_block, after_verb, command_of};

use crate::{Command, Complaint};
use model::BlockNumber;
use qbx_numbers::{number, number16};
use qbx_verb_words::{is, verb_of};
use qbx_verbs::{names_block, writes};

// Whether a word is missing: it is empty then.
pub fn is_missing(word: &[u8]) -> bool
    ensures { result ≡ is_missing word.now }
{
    word.is_empty()
}

// The option at the end.
#[tactic(auto, unfolding(crate::specs::Command::with_budget, qbx_numbers::specs::Number::as_number, text::specs::Text::text))]
fn with_budget(command: Command, option: &[u8], steps: &[u8]) -> Result<Command, Complaint>
    ensures { result ≡ with_budget command option.now steps.now }
{
    if is_missing(option) {
        return Ok(command);
    }
    if !is(option, b"--budget") || !writes(command.verb) {
        return Err(Complaint::NoOption);
    }
    let budget = number(steps).ok_or(Complaint::Budget)?;
    Ok(Command { budget, ..command })
}

// The words after a verb that names a block.
#[tactic(auto, unfolding(crate::specs::Command::with_block, qbx_numbers::specs::Number::as_number))]
fn with_block(
    command: Command,
    block: &[u8],
    option: &[u8],
    steps: &[u8],
) -> Result<Command, Complaint>
    ensures { result ≡ with_block command block.now option.now steps.now }
{
    let block = BlockNumber(number16(block).ok_or(Complaint::Block)?);
    with_budget(Command { block, ..command }, option, steps)
}

// The words after a verb.
#[tactic(auto, unfolding(crate::specs::Command::after_verb))]
fn after_verb(
    command: Command,
    first: &[u8],
    second: &[u8],
    third: &[u8],
) -> Result<Command, Complaint>
    ensures { result ≡ after_verb command first.now second.now third.now }
{
    if names_block(command.verb) {
        return with_block(command, first, second, third);
    }
    if is_missing(third) {
        return with_budget(command, first, second);
    }
    Err(Complaint::NoOption)
}

// The words after the image's name; those that are missing are empty.
#[tactic(auto, unfolding(crate::specs::Command::command_of, crate::specs::Command::as_verb, qbx_numbers::specs::Number::as_number))]
pub fn command_of(
    segments: &[u8],
    slots: &[u8],
    verb: &[u8],
    first: &[u8],
    second: &[u8],
    third: &[u8],
) -> Result<Command, Complaint>
    ensures { result ≡ command_of segments.now slots.now verb.now first.now second.now third.now }
{
    let segments = number(segments).ok_or(Complaint::Segments)?;
    let slots = number(slots).ok_or(Complaint::Slots)?;
    let verb = verb_of(verb).ok_or(Complaint::NoVerb)?;
    let plain = Command {
        segments,
        slots,
        verb,
        block: BlockNumber(0),
        budget: u64::MAX,
    };
    after_verb(plain, first, second, third)
}
