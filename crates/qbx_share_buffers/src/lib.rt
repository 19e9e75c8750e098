// A tenant's command on its image in the smallest of three buffers that holds it, each with its own limit of the stack.
#![tactic(auto)]

ghost use Rattle.std.specs.Prelude.{◌≡◌, true};

use qbx_out::Console;
use qbx_rooms::{Buffer, Process};
use qbx_share_words::ShareCommand;
use qbx_system::System;

// A tenant's command on the image's file, with the file of shares, or that the stack is too small for its image: one of the two,
// always. What it says goes to the one descriptor, and what is wrong to the other.
pub fn obey(
    system: &mut System,
    path: &[u8],
    shares: &[u8],
    command: ShareCommand,
    contents: &[u8],
    console: Console,
) -> bool
    ensures { result ≡ true }
{
    let allowed = qbx_stack::allowed(system) / 1024;
    let process = Process { allowed, console };
    let size = request::size_of(command.segments as usize, command.slots as usize);
    let buffer = qbx_rooms::smallest_for(size);
    if let Some(needed) = qbx_rooms::lacking(buffer, false, allowed) {
        qbx_out::lack_stack(size, needed, allowed, console.err);
        return true;
    }
    match buffer {
        Buffer::Small => {
            qbx_share_frames::obey::<1048577>(system, process, path, shares, command, contents)
        }
        Buffer::Middle => {
            qbx_share_frames::obey::<4194305>(system, process, path, shares, command, contents)
        }
        Buffer::Large => {
            qbx_share_frames::obey::<16711681>(system, process, path, shares, command, contents)
        }
    }
}
