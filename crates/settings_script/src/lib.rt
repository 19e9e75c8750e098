// Plays a script of commands, one to a line, each as settings would obey it: IMAGE P LAYOUT read ITEM, IMAGE P LAYOUT write ITEM
// [--budget STEPS] [< data], or IMAGE P LAYOUT list.
#![tactic(auto)]

use qbx_out::{Console, Program};
use qbx_script_words::word;
use qbx_system::{STDOUT_FILENO, System};

// The words of a command, and what stands behind '<'.
fn obey(system: &mut System, line: &[u8], contents: &[u8]) {
    let layout = word(line, 2);
    let reading = settings_words::command_of(
        word(line, 1),
        layout,
        word(line, 3),
        word(line, 4),
        word(line, 5),
        word(line, 6),
    );
    match reading {
        Ok(command) => {
            settings_work::obey(
                system,
                word(line, 0),
                layout,
                command,
                contents,
                Console::joined(Program::Settings),
            );
        }
        Err(complaint) => settings_work::complain(complaint, STDOUT_FILENO),
    }
}

// The script is on standard input.
pub fn play(rt: HostRuntime) {
    script_player::play(rt, b"$ settings ", obey);
}
