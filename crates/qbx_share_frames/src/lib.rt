// The image of a tenant's command, on the stack, a frame for each size.
#![tactic(auto)]

ghost use Rattle.std.specs.Prelude.{◌≡◌, true, false, ◌≤◌, suc};
ghost use Rattle.request.specs.Request.{size_of};
ghost use Rattle.qbx_rooms.specs.Rooms.{room_of, need_of};
ghost use Rattle.qbx_rooms.specs.declared.Buffer.{Buffer};

use qbx_rooms::Process;
use qbx_share_words::ShareCommand;
use qbx_system::System;

// The buffer has a byte more than the largest image in it, so that a larger file is seen to be one. It is never made part of its
// caller, so that each size stays in a frame of its own: see `qbx_frames`.
#[inline(never)]
pub fn obey<const BYTES: usize>(
    system: &mut System,
    process: Process,
    path: &[u8],
    shares: &[u8],
    command: ShareCommand,
    contents: &[u8],
) -> bool
    requires { (b : Buffer) × (BYTES ≡ suc (room_of b)) × (size_of command.segments command.slots ≤ room_of b) × (need_of false b ≤ process.allowed) }
    ensures { result ≡ true }
{
    let mut image = [255u8; BYTES];
    qbx_share::obey(
        system,
        &mut image,
        path,
        shares,
        command,
        contents,
        process.console,
    );
    true
}
