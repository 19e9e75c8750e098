// What settings says, a line each. Nothing is written here.
#![tactic(auto)]

ghost use Rattle.std.specs.Prelude.{◌≡◌, ◌+◌, ◌≤◌};
ghost use Rattle.qbx_lines.specs.Lines.{most_line, said, Added};
ghost use Rattle.partitions.specs.Answers.{number_of};
ghost use Rattle.settings_says.specs.Said.{reason, reply_text, board_text, answer_line, written_line, complaint_text, wrong_line};

use partitions::{Reply, Written};
use qbx_lines::{Line, add, add_count, add_number, empty};
use settings_words::Complaint;

// ---- answers

fn add_reason(line: Line, answer: Reply) -> Line
    requires { line.count ≤ 100 }
    ensures { Added line (reason answer) result × (result.count ≤ line.count + 11) }
{
    match answer {
        Reply::Done => add(line, b""),
        Reply::Partitions => add(line, b" partitions"),
        Reply::Layout => add(line, b" layout"),
        Reply::Mismatch => add(line, b" mismatch"),
        Reply::Statuses => add(line, b" statuses"),
        Reply::Unwritten => add(line, b" unwritten"),
        Reply::Cut => add(line, b""),
    }
}

// An answer, with no line end.
#[tactic(auto, unfolding(crate::specs::Said::reply_text))]
fn say_reply(answer: Reply) -> Line
    ensures { (said result ≡ reply_text answer) × (result.count ≤ 40) }
{
    let number = u64::from(answer);
    let begun = qbx_says::add_verdict(empty(), number);
    add_reason(add_number(begun, number), answer)
}

// Behind the refusal of P what it is to be, and the bytes that are there.
#[tactic(auto, unfolding(text::specs::Text::text, crate::specs::Said::board_text))]
fn add_board(line: Line, answer: Reply, there: u64) -> Line
    requires { line.count ≤ 70 }
    ensures { Added line (board_text (number_of answer) there) result × (result.count ≤ line.count + 110) }
{
    if u64::from(answer) == 1 {
        let counted = add_count(
            line,
            b": P is a power of two from 2 to 128 that divides the image; ",
            there,
        );
        return add(counted, b" bytes are there");
    }
    add(line, b"")
}

// The answer of a read or a list, on an image of so many bytes.
pub fn say_answer(answer: Reply, there: u64) -> Line
    ensures { (said result ≡ answer_line answer there) × (result.count ≤ most_line) }
{
    let replied = add_board(say_reply(answer), answer, there);
    add(replied, b"\n")
}

// The answer of a write and the steps done, on an image of so many bytes.
pub fn say_written(written: Written, there: u64) -> Line
    ensures { (said result ≡ written_line written.answer written.steps there) × (result.count ≤ most_line) }
{
    let answer = written.answer;
    let steps = written.steps;
    let counted = add_count(say_reply(answer), b", ", steps);
    let told = add_board(qbx_says::add_steps_word(counted, steps), answer, there);
    add(told, b"\n")
}

// ---- complaints

pub fn say_complaint(complaint: Complaint) -> Line
    ensures { (said result ≡ complaint_text complaint) × (result.count ≤ most_line) }
{
    let line = empty();
    match complaint {
        Complaint::Partitions => add(line, b"settings: P is not a number\n"),
        Complaint::NoLayout => add(
            line,
            b"settings: LAYOUT is missing, or longer than a path may be\n",
        ),
        Complaint::NoVerb => add(line, b"settings: the verb is none of read, write, list\n"),
        Complaint::Item => add(line, b"settings: ITEM is not a number up to 255\n"),
        Complaint::NoOption => add(
            line,
            b"settings: only --budget STEPS may follow, and only write ITEM\n",
        ),
        Complaint::Budget => add(line, b"settings: STEPS is not a number\n"),
    }
}

// That a line of the file of the layout says something else.
pub fn say_wrong_line(number: usize) -> Line
    ensures { (said result ≡ wrong_line number) × (result.count ≤ most_line) }
{
    let counted = add_count(empty(), b"settings: line ", number as u64);
    add(counted, b" of LAYOUT is not two numbers up to 255\n")
}
