// A move or a rebuild in the smallest of three pairs of buffers that hold its images, each with its own limit of the stack.
#![tactic(auto)]

ghost use Rattle.std.specs.Prelude.{◌≡◌, true};

use qbx_move_words::Move;
use qbx_out::Console;
use qbx_rooms::{Buffer, Process};
use qbx_system::System;

// A move between the images' files, or that the stack is too small for them: one of the two, always. What it says goes to the
// one descriptor, and what is wrong to the other.
pub fn obey(
    system: &mut System,
    path: &[u8],
    target: &[u8],
    command: Move,
    console: Console,
) -> bool
    ensures { result ≡ true }
{
    let allowed = qbx_stack::allowed(system) / 1024;
    let process = Process { allowed, console };
    let size = qbx_move_words::larger_size(command);
    let buffer = qbx_rooms::smallest_for(size);
    if let Some(needed) = qbx_rooms::lacking_for_move(buffer, allowed) {
        qbx_out::lack_stack(size, needed, allowed, console.err);
        return true;
    }
    match buffer {
        Buffer::Small => qbx_move_frames::obey::<1048577>(system, process, path, target, command),
        Buffer::Middle => qbx_move_frames::obey::<4194305>(system, process, path, target, command),
        Buffer::Large => qbx_move_frames::obey::<16711681>(system, process, path, target, command),
    }
}
