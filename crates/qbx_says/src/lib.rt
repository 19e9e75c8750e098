// What qbx says, a line each. Nothing is written here.
#![tactic(auto)]

ghost use Rattle.std.specs.Prelude.{◌≡◌, ◌+◌, ◌<◌, ◌≤◌};
ghost use Rattle.qbx_lines.specs.Lines.{most_line, said, Added};
ghost use Rattle.qbx_says.specs.Said.{verdict, reason, steps_word, answer_text, performed_text, performed_line, asked_text, size_line, complaint_text, stack_line};

use model::{Answer, Performed};
use qbx_lines::{Line, add, add_count, add_number, empty};
use qbx_words::Complaint;

// ---- answers

// Whether it is done, cut or refused, by its number.
pub fn add_verdict(line: Line, code: u64) -> Line
    requires { line.count ≤ 100 }
    ensures { Added line (verdict code) result × (result.count ≤ line.count + 9) }
{
    if code == 0 {
        return add(line, b"done: ");
    }
    if code == 9 {
        return add(line, b"cut: ");
    }
    add(line, b"refused: ")
}

fn add_reason(line: Line, answer: Answer) -> Line
    requires { line.count ≤ 100 }
    ensures { Added line (reason answer) result × (result.count ≤ line.count + 15) }
{
    match answer {
        Answer::Done => add(line, b""),
        Answer::Size => add(line, b" size"),
        Answer::Number => add(line, b" number"),
        Answer::Length => add(line, b" length"),
        Answer::Damaged => add(line, b" damaged"),
        Answer::Unfinished => add(line, b" unfinished"),
        Answer::Absent => add(line, b" absent"),
        Answer::Full => add(line, b" full"),
        Answer::Worn => add(line, b" worn"),
        Answer::Cut => add(line, b""),
        Answer::ShortTable => add(line, b" short table"),
        Answer::FormerVersion => add(line, b" former version"),
        Answer::Foreign => add(line, b" foreign"),
        Answer::Shares => add(line, b" shares"),
        Answer::ShortBuffer => add(line, b" short buffer"),
    }
}

// An answer, with no line end.
#[tactic(auto, unfolding(crate::specs::Said::answer_text))]
pub fn say_answer(answer: Answer) -> Line
    ensures { (said result ≡ answer_text answer) × (result.count ≤ 44) }
{
    let number = request::number_of(answer);
    let begun = add_verdict(empty(), number);
    add_reason(add_number(begun, number), answer)
}

// The word behind a count of steps.
pub fn add_steps_word(line: Line, steps: u64) -> Line
    requires { line.count ≤ 100 }
    ensures { Added line (steps_word steps) result × (result.count ≤ line.count + 6) }
{
    if steps == 1 {
        add(line, b" step")
    } else {
        add(line, b" steps")
    }
}

// An answer and the steps done, with no line end.
pub fn say_steps(answer: Answer, steps: u64) -> Line
    ensures { (said result ≡ performed_text answer steps) × (result.count ≤ 72) }
{
    let answered = add(say_answer(answer), b", ");
    let counted = add_number(answered, steps);
    add_steps_word(counted, steps)
}

// An answer and the steps done.
pub fn say_performed(performed: Performed) -> Line
    ensures { (said result ≡ performed_line performed.answer performed.steps) × (result.count ≤ most_line) }
{
    let answer = performed.answer;
    add(say_steps(answer, performed.steps), b"\n")
}

// What N and B ask for.
pub fn add_asked(line: Line, segments: usize, slots: usize) -> Line
    requires { line.count ≤ 100 }
    ensures { Added line (asked_text segments slots) result × (result.count ≤ line.count + 44) }
{
    if request::in_range(segments, slots) {
        let bytes = request::size_of(segments, slots) as u64;
        let asked = add_count(line, b": N and B ask for ", bytes);
        return add(asked, b" bytes");
    }
    add(line, b": N is 2 to 255 and B is 2 to 255")
}

// A wrong size: beside the refusal what N and B ask for, and the bytes that are there.
pub fn say_size(segments: usize, slots: usize, there: u64) -> Line
    ensures { (said result ≡ size_line segments slots there) × (result.count ≤ most_line) }
{
    let asked = add_asked(say_steps(Answer::Size, 0), segments, slots);
    let counted = add_count(asked, b"; ", there);
    add(counted, b" bytes are there\n")
}

// ---- complaints

pub fn say_complaint(complaint: Complaint) -> Line
    ensures { (said result ≡ complaint_text complaint) × (result.count ≤ most_line) }
{
    let line = empty();
    match complaint {
        Complaint::Segments => add(line, b"qbx: N is not a number\n"),
        Complaint::Slots => add(line, b"qbx: B is not a number\n"),
        Complaint::NoVerb => add(
            line,
            b"qbx: the verb is none of format, put, get, delete, recover, check, account, map, salvage, move, rebuild, share-put, share-get, share-delete\n",
        ),
        Complaint::Block => add(line, b"qbx: BLOCK is not a number up to 65535\n"),
        Complaint::NoTarget => add(
            line,
            b"qbx: TARGET is missing, or longer than a path may be\n",
        ),
        Complaint::TargetSegments => add(line, b"qbx: TARGET's N is not a number\n"),
        Complaint::TargetSlots => add(line, b"qbx: TARGET's B is not a number\n"),
        Complaint::NoShares => add(
            line,
            b"qbx: SHARES is missing, or longer than a path may be\n",
        ),
        Complaint::Tenant => add(line, b"qbx: TENANT is not a number up to 4294967295\n"),
        Complaint::NoOption => add(
            line,
            b"qbx: only --budget STEPS may follow, and only a verb that writes\n",
        ),
        Complaint::Budget => add(line, b"qbx: STEPS is not a number\n"),
    }
}

// That the stack is too small for an image of so many bytes: the KiB that it needs, and those that are allowed.
pub fn say_stack(bytes: u64, needed: u64, allowed: u64) -> Line
    requires { allowed < needed }
    ensures { (said result ≡ stack_line bytes needed allowed) × (result.count ≤ most_line) }
{
    let image = add_count(empty(), b"qbx: an image of ", bytes);
    let stack = add_count(image, b" bytes needs a stack of ", needed);
    let counted = add_count(stack, b" KiB, and ", allowed);
    add(counted, b" KiB are allowed: raise it with ulimit -s\n")
}
