// What a move or a rebuild says that no other verb does, a line each.
#![tactic(auto)]

ghost use Rattle.std.specs.Prelude.{◌≡◌, ◌+◌, ◌≤◌};
ghost use Rattle.qbx_lines.specs.Lines.{most_line, said, Added};
ghost use Rattle.qbx_move_says.specs.MoveSaid.{name_text, move_size_line, clash_text};

use model::Answer;
use qbx_lines::{Line, add, add_count, empty};
use qbx_same::Clash;

fn add_name(line: Line, target: bool) -> Line
    requires { line.count ≤ 100 }
    ensures { Added line (name_text target) result × (result.count ≤ line.count + 8) }
{
    if target {
        return add(line, b": TARGET");
    }
    add(line, b": IMAGE")
}

// A wrong size: beside the refusal which image has it, what its N and B ask for, and the bytes that are there.
pub fn say_move_size(target: bool, segments: usize, slots: usize, there: u64) -> Line
    ensures { (said result ≡ move_size_line target segments slots there) × (result.count ≤ most_line) }
{
    let named = add_name(qbx_says::say_steps(Answer::Size, 0), target);
    let asked = qbx_says::add_asked(named, segments, slots);
    let counted = add_count(asked, b"; ", there);
    add(counted, b" bytes are there\n")
}

// Why a target is not written; nothing of what the system has to say itself.
pub fn say_clash(clash: Clash) -> Line
    ensures { (said result ≡ clash_text clash) × (result.count ≤ most_line) }
{
    let line = empty();
    match clash {
        Clash::IsSource => add(
            line,
            b"qbx: TARGET is IMAGE's own file, which is only read\n",
        ),
        Clash::SourceBeside => add(
            line,
            b"qbx: TARGET.new, as which TARGET is written at first, is IMAGE's own file\n",
        ),
        Clash::InTheWay => add(
            line,
            b"qbx: TARGET.new, as which TARGET is written at first, is there and no plain file\n",
        ),
        Clash::Apart => line,
        Clash::NoSource => line,
        Clash::NoTarget => line,
        Clash::NoBeside => line,
    }
}
