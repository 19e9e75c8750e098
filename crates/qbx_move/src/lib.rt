// The work of a move or a rebuild, with its words handed in: both images' files are read, the target is built anew from what
// the source stores, or what can be salvaged of it, its file is replaced and the answer said. The source's file is only read.
#![tactic(auto)]

ghost use Rattle.std.specs.Prelude.{◌<◌, length};
ghost use Rattle.request.specs.Request.{size_of};

use model::Answer;
use qbx_move_words::Move;
use qbx_out::{Console, fail, print, save};
use qbx_same::Clash;
use qbx_system::System;

// How many bytes the two files have.
#[derive(Clone, Copy)]
struct There {
    source: u64,
    target: u64,
}

// Says that an image has a wrong size: the source, or else the target.
fn tell_size(source: &[u8], command: Move, there: There, out: i32) {
    let from = command.source;
    let segments = from.segments as usize;
    let slots = from.slots as usize;
    if !request::right_size(source.len(), segments, slots) {
        print(
            out,
            qbx_move_says::say_move_size(false, segments, slots, there.source),
        );
        return;
    }
    let to = command.target;
    print(
        out,
        qbx_move_says::say_move_size(true, to.segments as usize, to.slots as usize, there.target),
    );
}

// Steps that were done are in the target's file before they are said.
fn work(
    system: &mut System,
    source: &[u8],
    target: &mut [u8],
    path: &[u8],
    command: Move,
    there: There,
    console: Console,
) {
    let performed = qbx_move_request::perform(source, target, command);
    if performed.steps > 0 && !save(system, console, path, target) {
        return;
    }
    if let Answer::Size = performed.answer {
        tell_size(source, command, there, console.out);
        return;
    }
    print(console.out, qbx_says::say_performed(performed));
}

// Both files are read; where the target has none yet, it is a chip from the factory.
fn carry(
    system: &mut System,
    source: &mut [u8],
    target: &mut [u8],
    path: &[u8],
    target_path: &[u8],
    command: Move,
    console: Console,
)
    requires { (size_of command.source.segments command.source.slots < length source.old) × (size_of command.target.segments command.target.slots < length target.old) }
{
    let from = command.source;
    let size = qbx_move_words::size_of(from);
    let Some(file) = qbx_images::present(system, source, path, size, false) else {
        fail(system, console, b"read ", path);
        return;
    };
    let to = command.target;
    let size = qbx_move_words::size_of(to);
    let Some(other) = qbx_images::present(system, target, target_path, size, true) else {
        fail(system, console, b"read ", target_path);
        return;
    };
    let there = There {
        source: file.there,
        target: other.there,
    };
    let n = file.count;
    let m = other.count;
    work(
        system,
        &source[..n],
        &mut target[..m],
        target_path,
        command,
        there,
        console,
    );
}

// Says that the name beside a path could not be looked at.
fn fail_beside(system: &mut System, path: &[u8], console: Console) {
    let mut name = io::buffer();
    let n = qbx_files::beside(path, &mut name);
    fail(system, console, b"read ", &name[..n]);
}

// Says why the target is not written.
fn refuse(system: &mut System, clash: Clash, path: &[u8], target_path: &[u8], console: Console) {
    match clash {
        Clash::NoSource => fail(system, console, b"read ", path),
        Clash::NoTarget => fail(system, console, b"read ", target_path),
        Clash::NoBeside => fail_beside(system, target_path, console),
        Clash::Apart | Clash::IsSource | Clash::SourceBeside | Clash::InTheWay => {
            print(console.err, qbx_move_says::say_clash(clash))
        }
    }
}

// A move, in buffers that hold the images and more, so that larger files are seen to be such. That the target is not the source
// is known before either is read. What it says goes to the one descriptor, and what is wrong to the other.
pub fn obey(
    system: &mut System,
    source: &mut [u8],
    target: &mut [u8],
    path: &[u8],
    target_path: &[u8],
    command: Move,
    console: Console,
)
    requires { (size_of command.source.segments command.source.slots < length source.old) × (size_of command.target.segments command.target.slots < length target.old) }
{
    let clash = qbx_same::clash_of(system, path, target_path);
    if let Clash::Apart = clash {
        carry(system, source, target, path, target_path, command, console);
        return;
    }
    refuse(system, clash, path, target_path, console);
}
