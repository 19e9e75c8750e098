// What a tenant's command says that no other does, a line each.
#![tactic(auto)]

ghost use Rattle.std.specs.Prelude.{◌≡◌, ◌≤◌};
ghost use Rattle.qbx_lines.specs.Lines.{most_line, said};
ghost use Rattle.qbx_share_says.specs.ShareSaid.{shared_line, shared_size_line, wrong_line};

use model::Answer;
use qbx_lines::{Line, add, add_count, empty};

// An answer alone: how many steps were done shows others' tidying.
pub fn say_shared(answer: Answer) -> Line
    ensures { (said result ≡ shared_line answer) × (result.count ≤ most_line) }
{
    add(qbx_says::say_answer(answer), b"\n")
}

// A wrong size: beside the refusal what N and B ask for, and the bytes that are there.
pub fn say_shared_size(segments: usize, slots: usize, there: u64) -> Line
    ensures { (said result ≡ shared_size_line segments slots there) × (result.count ≤ most_line) }
{
    let asked = qbx_says::add_asked(qbx_says::say_answer(Answer::Size), segments, slots);
    let counted = add_count(asked, b"; ", there);
    add(counted, b" bytes are there\n")
}

// That a line of the file of shares says something else.
pub fn say_wrong_line(number: usize) -> Line
    ensures { (said result ≡ wrong_line number) × (result.count ≤ most_line) }
{
    let counted = add_count(empty(), b"qbx: line ", number as u64);
    add(
        counted,
        b" of SHARES is not three numbers up to 4294967295\n",
    )
}
