// The words of the command line of settings, read: IMAGE P LAYOUT read ITEM, IMAGE P LAYOUT write ITEM [--budget STEPS], or
// IMAGE P LAYOUT list.
#![tactic(auto)]

ghost use Rattle.std.specs.Prelude.{◌≡◌};
ghost use Rattle.settings_words.specs.Command.{writes, ended, with_budget, of_item, of_list, command_of};

use qbx_numbers::number;
use qbx_words::{is, is_missing};
use settings_numbers::byte;

#[derive(Clone, Copy)]
pub enum Verb {
    Read,
    Write,
    List,
}

// A command whose words were right. The file of the layout is named beside it; a list is of no item, and its item is 0.
#[derive(Clone, Copy)]
pub struct Command {
    pub partitions: u64,
    pub verb: Verb,
    pub item: u8,
    pub budget: u64,
}

// The word of a command that is wrong.
#[derive(Clone, Copy)]
pub enum Complaint {
    Partitions,
    NoLayout,
    NoVerb,
    Item,
    NoOption,
    Budget,
}

#[tactic(auto, unfolding(crate::specs::Command::writes))]
fn writes(verb: Verb) -> bool
    ensures { result ≡ writes verb }
{
    matches!(verb, Verb::Write)
}

// A command with no option: nothing may stand in place of its steps.
#[tactic(auto, unfolding(crate::specs::Command::ended))]
fn ended(command: Command, steps: &[u8]) -> Result<Command, Complaint>
    ensures { result ≡ ended command steps.now }
{
    if is_missing(steps) {
        return Ok(command);
    }
    Err(Complaint::NoOption)
}

// The option at the end.
#[tactic(auto, unfolding(crate::specs::Command::with_budget, qbx_numbers::specs::Number::as_number, text::specs::Text::text))]
fn with_budget(command: Command, option: &[u8], steps: &[u8]) -> Result<Command, Complaint>
    ensures { result ≡ with_budget command option.now steps.now }
{
    if is_missing(option) {
        return ended(command, steps);
    }
    if !is(option, b"--budget") || !writes(command.verb) {
        return Err(Complaint::NoOption);
    }
    let budget = number(steps).ok_or(Complaint::Budget)?;
    Ok(Command { budget, ..command })
}

// The words after a verb that names an item.
#[tactic(auto, unfolding(crate::specs::Command::of_item, qbx_numbers::specs::Number::as_number))]
fn of_item(
    partitions: u64,
    verb: Verb,
    item: &[u8],
    option: &[u8],
    steps: &[u8],
) -> Result<Command, Complaint>
    ensures { result ≡ of_item partitions verb item.now option.now steps.now }
{
    let command = Command {
        partitions,
        verb,
        item: byte(item).ok_or(Complaint::Item)?,
        budget: u64::MAX,
    };
    with_budget(command, option, steps)
}

// The words after list: there are none.
#[tactic(auto, unfolding(crate::specs::Command::of_list))]
fn of_list(partitions: u64, item: &[u8], option: &[u8], steps: &[u8]) -> Result<Command, Complaint>
    ensures { result ≡ of_list partitions item.now option.now steps.now }
{
    if !is_missing(item) {
        return Err(Complaint::NoOption);
    }
    let command = Command {
        partitions,
        verb: Verb::List,
        item: 0,
        budget: u64::MAX,
    };
    with_budget(command, option, steps)
}

// The words after the image's name; those that are missing are empty.
#[tactic(auto, unfolding(crate::specs::Command::command_of, qbx_numbers::specs::Number::as_number, text::specs::Text::text))]
pub fn command_of(
    partitions: &[u8],
    layout: &[u8],
    verb: &[u8],
    item: &[u8],
    option: &[u8],
    steps: &[u8],
) -> Result<Command, Complaint>
    ensures { result ≡ command_of partitions.now layout.now verb.now item.now option.now steps.now }
{
    let p = number(partitions).ok_or(Complaint::Partitions)?;
    if is_missing(layout) {
        return Err(Complaint::NoLayout);
    }
    if is(verb, b"read") {
        return of_item(p, Verb::Read, item, option, steps);
    }
    if is(verb, b"write") {
        return of_item(p, Verb::Write, item, option, steps);
    }
    if is(verb, b"list") {
        return of_list(p, item, option, steps);
    }
    Err(Complaint::NoVerb)
}
