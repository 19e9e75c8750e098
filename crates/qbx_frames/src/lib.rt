// The image's buffer, on the stack, and beside it one for a text where the command prints one: a frame for each size.
#![tactic(auto)]

ghost use Rattle.std.specs.Prelude.{◌≡◌, true, false, ◌≤◌, suc};
ghost use Rattle.request.specs.Request.{size_of};
ghost use Rattle.qbx_verbs.specs.Verbs.{prints};
ghost use Rattle.qbx_rooms.specs.Rooms.{room_of, need_of};
ghost use Rattle.qbx_rooms.specs.declared.Buffer.{Buffer};

use qbx_rooms::Process;
use qbx_system::System;
use qbx_words::Command;

// The buffer has a byte more than the largest image in it, so that a larger file is seen to be one.
//
// It is never made part of its caller: so each size stays in a frame of its own, and a small image does not need a large one's stack,
// nor a command that prints no text that of one that does.
#[inline(never)]
pub fn obey<const BYTES: usize>(
    system: &mut System,
    process: Process,
    path: &[u8],
    command: Command,
    contents: &[u8],
) -> bool
    requires { (b : Buffer) × (BYTES ≡ suc (room_of b)) × (size_of command.segments command.slots ≤ room_of b) × (need_of false b ≤ process.allowed) × (prints command.verb ≡ false) }
    ensures { result ≡ true }
{
    let mut image = [255u8; BYTES];
    qbx_work::obey(system, &mut image, path, command, contents, process.console);
    true
}

// The same with a buffer for a text: no slot has more than 45 bytes in one, and no segment more than 61 beside its slots.
#[inline(never)]
pub fn show<const BYTES: usize, const TEXT: usize>(
    system: &mut System,
    process: Process,
    path: &[u8],
    command: Command,
) -> bool
    requires { (b : Buffer) × (BYTES ≡ suc (room_of b)) × (size_of command.segments command.slots ≤ room_of b) × (need_of true b ≤ process.allowed) × (TEXT ≤ BYTES) }
    ensures { result ≡ true }
{
    let mut image = [255u8; BYTES];
    let mut text = [0u8; TEXT];
    qbx_work::show(
        system,
        &mut image,
        &mut text,
        path,
        command,
        process.console,
    );
    true
}
