// The words of a move, read: IMAGE N B move TARGET N B [--budget STEPS]; those of a rebuild, which differ in the verb alone; and
// how large its images are.
#![tactic(auto)]

ghost use Rattle.std.specs.Prelude.{◌≡◌};
ghost use Rattle.request.specs.Request.{size_of};
ghost use Rattle.qbx_move_words.specs.Move.{names_target, with_budget, onto, move_of, larger_size};

use qbx_numbers::number;
use qbx_words::{Complaint, is, is_missing};

// N and B of an image, as they are asked for: no test has been made of them yet.
#[derive(Clone, Copy)]
pub struct AskedGeometry {
    pub segments: u64,
    pub slots: u64,
}

// A move whose words were right: of a clean image's blocks, or, as a rebuild, of those that can be salvaged from any.
#[derive(Clone, Copy)]
pub struct Move {
    pub salvages: bool,
    pub source: AskedGeometry,
    pub target: AskedGeometry,
    pub budget: u64,
}

// Whether a verb is that of a move or a rebuild. It is no command's: another image follows it.
#[tactic(auto, unfolding(crate::specs::Move::names_target, crate::specs::Move::is_rebuild, text::specs::Text::text))]
pub fn names_target(verb: &[u8]) -> bool
    ensures { result ≡ names_target verb.now }
{
    is(verb, b"move") || is(verb, b"rebuild")
}

// The option at the end.
#[tactic(auto, unfolding(crate::specs::Move::with_budget, qbx_numbers::specs::Number::as_number, text::specs::Text::text))]
fn with_budget(command: Move, option: &[u8], steps: &[u8]) -> Result<Move, Complaint>
    ensures { result ≡ with_budget command option.now steps.now }
{
    if is_missing(option) {
        return Ok(command);
    }
    if !is(option, b"--budget") {
        return Err(Complaint::NoOption);
    }
    let budget = number(steps).ok_or(Complaint::Budget)?;
    Ok(Move { budget, ..command })
}

// The words after the target's name.
#[tactic(auto, unfolding(crate::specs::Move::onto, qbx_numbers::specs::Number::as_number))]
fn onto(
    salvages: bool,
    source: AskedGeometry,
    segments: &[u8],
    slots: &[u8],
    option: &[u8],
    steps: &[u8],
) -> Result<Move, Complaint>
    ensures { result ≡ onto salvages source segments.now slots.now option.now steps.now }
{
    let segments = number(segments).ok_or(Complaint::TargetSegments)?;
    let slots = number(slots).ok_or(Complaint::TargetSlots)?;
    let whole = Move {
        salvages,
        source,
        target: AskedGeometry { segments, slots },
        budget: u64::MAX,
    };
    with_budget(whole, option, steps)
}

// The words after the image's name; those that are missing are empty.
#[tactic(auto, unfolding(crate::specs::Move::move_of, qbx_numbers::specs::Number::as_number, crate::specs::Move::is_rebuild, text::specs::Text::text))]
pub fn move_of(
    segments: &[u8],
    slots: &[u8],
    verb: &[u8],
    target: &[u8],
    target_segments: &[u8],
    target_slots: &[u8],
    option: &[u8],
    steps: &[u8],
) -> Result<Move, Complaint>
    ensures { result ≡ move_of segments.now slots.now verb.now target.now target_segments.now target_slots.now option.now steps.now }
{
    let source = AskedGeometry {
        segments: number(segments).ok_or(Complaint::Segments)?,
        slots: number(slots).ok_or(Complaint::Slots)?,
    };
    if is_missing(target) {
        return Err(Complaint::NoTarget);
    }
    let salvages = is(verb, b"rebuild");
    onto(
        salvages,
        source,
        target_segments,
        target_slots,
        option,
        steps,
    )
}

// The bytes of an image of so many segments and slots, or 0 if there is none.
pub fn size_of(geometry: AskedGeometry) -> usize
    ensures { result ≡ size_of geometry.segments geometry.slots }
{
    request::size_of(geometry.segments as usize, geometry.slots as usize)
}

// The bytes of the larger of a move's images.
#[tactic(auto, unfolding(crate::specs::Move::larger_size))]
pub fn larger_size(command: Move) -> usize
    ensures { result ≡ larger_size command }
{
    size_of(command.source).max(size_of(command.target))
}
