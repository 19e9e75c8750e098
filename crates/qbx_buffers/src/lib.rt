// A command on its image in the smallest of three buffers that holds it, each with its own limit of the stack.
#![tactic(auto)]

ghost use Rattle.std.specs.Prelude.{◌≡◌, true};

use qbx_out::Console;
use qbx_rooms::{Buffer, Process};
use qbx_system::System;
use qbx_words::Command;

// A command on the image's file, or that the stack is too small for its image: one of the two, always. What it says goes to the
// one descriptor, and what is wrong to the other.
pub fn obey(
    system: &mut System,
    path: &[u8],
    command: Command,
    contents: &[u8],
    console: Console,
) -> bool
    ensures { result ≡ true }
{
    let allowed = qbx_stack::allowed(system) / 1024;
    let process = Process { allowed, console };
    let size = request::size_of(command.segments as usize, command.slots as usize);
    let buffer = qbx_rooms::smallest_for(size);
    let prints = qbx_verbs::prints(command.verb);
    if let Some(needed) = qbx_rooms::lacking(buffer, prints, allowed) {
        qbx_out::lack_stack(size, needed, allowed, console.err);
        return true;
    }
    if prints {
        return match buffer {
            Buffer::Small => qbx_frames::show::<1048577, 196608>(system, process, path, command),
            Buffer::Middle => qbx_frames::show::<4194305, 753664>(system, process, path, command),
            Buffer::Large => qbx_frames::show::<16711681, 2949120>(system, process, path, command),
        };
    }
    match buffer {
        Buffer::Small => qbx_frames::obey::<1048577>(system, process, path, command, contents),
        Buffer::Middle => qbx_frames::obey::<4194305>(system, process, path, command, contents),
        Buffer::Large => qbx_frames::obey::<16711681>(system, process, path, command, contents),
    }
}
