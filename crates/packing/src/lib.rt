// What the exports give, packed into one number: an answer with a count, a place or a length.
#![tactic(auto)]

ghost use Rattle.std.specs.Prelude.{◌≡◌, cond, ◌+◌, ◌*◌, ◌%◌, ◌≤◌};
ghost use Rattle.model.specs.Chip.{largest_image};
ghost use Rattle.model.specs.Answers.{code_of};
ghost use Rattle.text.specs.Buffer.{most_text};
ghost use Rattle.packing.specs.Counts.{counts};

use blank::BlankTest;
use model::{Located, Performed};
use text::Printed;

// The answer, and 256 times the steps done: a list never has more than some sixteen million.
pub fn packed(p: Performed) -> u64
    requires { p.steps ≤ largest_image }
    ensures { result ≡ code_of p.answer + 256 * p.steps }
{
    let answer = p.answer;
    request::number_of(answer) + 256 * p.steps
}

// The answer, 256 times the length and 65,536 times the offset.
pub fn packed_read(p: Located) -> u64
    requires { (p.offset ≤ largest_image) × (p.length ≤ 248) }
    ensures { result ≡ code_of p.answer + 256 * p.length + 65536 * p.offset }
{
    let answer = p.answer;
    let length = p.length as u64;
    let offset = p.offset as u64;
    request::number_of(answer) + 256 * length + 65536 * offset
}

// The same of a mounted call, of whose list of steps nothing is known if the table is not the image's. In step it is told
// whole.
#[tactic(auto, unfolding(crate::specs::Counts::counts))]
pub fn packed_mounted(p: Performed) -> u64
    ensures { result ≡ code_of p.answer + 256 * (p.steps % counts) }
{
    let answer = p.answer;
    request::number_of(answer) + 256 * (p.steps % COUNTS)
}

// How many counts the bits above the lowest eight can tell.
const COUNTS: u64 = 72057594037927936;

// 1 if all are 255, otherwise 0, and 256 times the groups looked at.
#[tactic(auto, unfolding(crate::specs::Counts::counts))]
pub fn packed_blank(t: BlankTest) -> u64
    ensures { result ≡ cond t.blank 1 0 + 256 * (t.groups % counts) }
{
    let groups = t.groups as u64 % COUNTS;
    u64::from(t.blank) + 256 * groups
}

// The answer, and 256 times the length of a text.
pub fn packed_print(p: Printed) -> u64
    requires { p.length ≤ most_text }
    ensures { result ≡ code_of p.answer + 256 * p.length }
{
    let answer = p.answer;
    let bytes = p.length as u64;
    request::number_of(answer) + 256 * bytes
}
