// Both images of a move or a rebuild, on the stack, a frame for each size: the larger of the two decides.
#![tactic(auto)]

ghost use Rattle.std.specs.Prelude.{◌≡◌, true, ◌≤◌, suc};
ghost use Rattle.request.specs.Request.{size_of};
ghost use Rattle.qbx_rooms.specs.Rooms.{room_of, move_need_of};
ghost use Rattle.qbx_rooms.specs.declared.Buffer.{Buffer};

use qbx_move_words::Move;
use qbx_rooms::Process;
use qbx_system::System;

// Each buffer has a byte more than the largest image in it, so that a larger file is seen to be one. It is never made part of its
// caller, so that each size stays in a frame of its own: see `qbx_frames`.
#[inline(never)]
pub fn obey<const BYTES: usize>(
    system: &mut System,
    process: Process,
    path: &[u8],
    target: &[u8],
    command: Move,
) -> bool
    requires { (b : Buffer) × (BYTES ≡ suc (room_of b)) × (size_of command.source.segments command.source.slots ≤ room_of b) × (size_of command.target.segments command.target.slots ≤ room_of b) × (move_need_of b ≤ process.allowed) }
    ensures { result ≡ true }
{
    let mut from = [255u8; BYTES];
    let mut onto = [255u8; BYTES];
    qbx_move::obey(
        system,
        &mut from,
        &mut onto,
        path,
        target,
        command,
        process.console,
    );
    true
}
