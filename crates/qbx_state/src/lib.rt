// What `qbx check` says of an image, as one line.
#![tactic(auto)]

ghost use Rattle.std.specs.Prelude.{◌≡◌, ◌+◌, ◌≤◌};
ghost use Rattle.qbx_lines.specs.Lines.{most_line, said, Added};
ghost use Rattle.qbx_state.specs.State.{condition_text, slots_text, tally_text, top_text, report_text};

use qbx_lines::{Line, add, add_count, empty};

// The state of an image, with the exception of an unfinished one.
#[derive(Clone, Copy)]
pub enum Condition {
    Clean,
    UnfinishedA,
    UnfinishedB,
    UnfinishedC,
    UnfinishedD,
    Damaged,
}

// The header of the top, if a segment is in use: its version, and in version 2 the tally of recoveries' erases, and whether
// no bit is left to count one more.
// Kept: its three cases are as plain as they can be; an `Option` would hold an enum of the two versions, and each match name both.
#[derive(Clone, Copy)]
pub enum TopSeen {
    Missing,
    Version1,
    Version2 { tally: u64, no_bit_left: bool },
}

// What a check tells: the state, the segments in use, their slots by kind, and the top's header.
#[derive(Clone, Copy)]
pub struct Report {
    pub condition: Condition,
    pub segments: u64,
    pub live: u64,
    pub dead: u64,
    pub cut: u64,
    pub empty: u64,
    pub top: TopSeen,
}

fn say_condition(condition: Condition) -> Line
    ensures { (said result ≡ condition_text condition) × (result.count ≤ 14) }
{
    let line = empty();
    match condition {
        Condition::Clean => add(line, b"clean"),
        Condition::UnfinishedA => add(line, b"unfinished (a)"),
        Condition::UnfinishedB => add(line, b"unfinished (b)"),
        Condition::UnfinishedC => add(line, b"unfinished (c)"),
        Condition::UnfinishedD => add(line, b"unfinished (d)"),
        Condition::Damaged => add(line, b"damaged"),
    }
}

fn add_slots(line: Line, live: u64, dead: u64, cut: u64, empty: u64) -> Line
    requires { line.count ≤ 60 }
    ensures { Added line (slots_text live dead cut empty) result × (result.count ≤ line.count + 116) }
{
    let lives = add_count(line, b", slots live ", live);
    let deads = add_count(lives, b", dead ", dead);
    let cuts = add_count(deads, b", cut ", cut);
    add_count(cuts, b", empty ", empty)
}

// The tally of a header of version 2.
fn add_tally(line: Line, tally: u64, no_bit_left: bool) -> Line
    requires { line.count ≤ 180 }
    ensures { Added line (tally_text tally no_bit_left) result × (result.count ≤ line.count + 52) }
{
    let counted = add_count(line, b", version 2, tally ", tally);
    if no_bit_left {
        return add(counted, b", no bit left");
    }
    counted
}

fn add_top(line: Line, top: TopSeen) -> Line
    requires { line.count ≤ 180 }
    ensures { Added line (top_text top) result × (result.count ≤ line.count + 52) }
{
    match top {
        TopSeen::Missing => add(line, b""),
        TopSeen::Version1 => add(line, b", version 1"),
        TopSeen::Version2 { tally, no_bit_left } => add_tally(line, tally, no_bit_left),
    }
}

// The state of an image, with the segments in use, their slots, and the top's version and tally.
pub fn say_report(report: Report) -> Line
    ensures { (said result ≡ report_text report) × (result.count ≤ most_line) }
{
    let line = say_condition(report.condition);
    let used = add_count(line, b": segments in use ", report.segments);
    let told = add_slots(used, report.live, report.dead, report.cut, report.empty);
    add(add_top(told, report.top), b"\n")
}
