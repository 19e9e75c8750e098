// Plays a script of commands, one to a line, each as qbx would obey it: IMAGE N B VERB [BLOCK] [--budget STEPS] [< contents], or
// IMAGE N B move TARGET N B [--budget STEPS], or the same with rebuild, or IMAGE N B share-put SHARES TENANT BLOCK [< contents], or
// the same with share-get or share-delete.
#![tactic(auto)]

use qbx_out::{Console, Program};
use qbx_script_words::word;
use qbx_system::{STDOUT_FILENO, System};

// The words of a move or a rebuild.
fn carry(system: &mut System, line: &[u8]) {
    let target = word(line, 4);
    let reading = qbx_move_words::move_of(
        word(line, 1),
        word(line, 2),
        word(line, 3),
        target,
        word(line, 5),
        word(line, 6),
        word(line, 7),
        word(line, 8),
    );
    match reading {
        Ok(command) => {
            qbx_move_buffers::obey(
                system,
                word(line, 0),
                target,
                command,
                Console::joined(Program::Qbx),
            );
        }
        Err(complaint) => qbx_out::complain(complaint, STDOUT_FILENO),
    }
}

// The words of a tenant's command, and what stands behind '<'.
fn share(system: &mut System, line: &[u8], contents: &[u8]) {
    if !word(line, 7).is_empty() {
        io::write_all(
            STDOUT_FILENO,
            b"qbx: nothing may follow BLOCK here, as --budget: a tenant is told no steps\n",
        );
        return;
    }
    let shares = word(line, 4);
    let reading = qbx_share_words::share_of(
        word(line, 1),
        word(line, 2),
        word(line, 3),
        shares,
        word(line, 5),
        word(line, 6),
    );
    match reading {
        Ok(command) => {
            qbx_share_buffers::obey(
                system,
                word(line, 0),
                shares,
                command,
                contents,
                Console::joined(Program::Qbx),
            );
        }
        Err(complaint) => qbx_out::complain(complaint, STDOUT_FILENO),
    }
}

// The words of a command, and what stands behind '<'.
fn obey(system: &mut System, line: &[u8], contents: &[u8]) {
    if qbx_move_words::names_target(word(line, 3)) {
        carry(system, line);
        return;
    }
    if qbx_share_words::share_verb_of(word(line, 3)).is_some() {
        share(system, line, contents);
        return;
    }
    let reading = qbx_words::command_of(
        word(line, 1),
        word(line, 2),
        word(line, 3),
        word(line, 4),
        word(line, 5),
        word(line, 6),
    );
    match reading {
        Ok(command) => {
            qbx_buffers::obey(
                system,
                word(line, 0),
                command,
                contents,
                Console::joined(Program::Qbx),
            );
        }
        Err(complaint) => qbx_out::complain(complaint, STDOUT_FILENO),
    }
}

// The script is on standard input.
pub fn play(rt: HostRuntime) {
    script_player::play(rt, b"$ qbx ", obey);
}
