// The buffers for images: what each holds, and the stack that it asks for.
#![tactic(auto)]

ghost use Rattle.std.specs.Prelude.{◌≡◌, true};
ghost use Rattle.qbx_rooms.specs.Rooms.{room_of, smallest_for, need_of, move_need_of, lack_of};

use qbx_out::Console;

// What the process has: the KiB of stack that it may use, and where it speaks.
#[derive(Clone, Copy)]
pub struct Process {
    pub allowed: u64,
    pub console: Console,
}

// A buffer, by the images that it holds.
#[derive(Clone, Copy)]
pub enum Buffer {
    Small,
    Middle,
    Large,
}

// The bytes of the largest image that a buffer holds.
#[tactic(auto, unfolding(crate::specs::Rooms::room_of))]
fn room_of(buffer: Buffer) -> usize
    ensures { result ≡ room_of buffer }
{
    match buffer {
        Buffer::Small => 1048576,
        Buffer::Middle => 4194304,
        Buffer::Large => 16711680,
    }
}

// The smallest buffer that holds an image of so many bytes; the largest holds every image.
pub fn smallest_for(size: usize) -> Buffer
    ensures { result ≡ smallest_for size }
{
    if size <= room_of(Buffer::Small) {
        return Buffer::Small;
    }
    if size <= room_of(Buffer::Middle) {
        return Buffer::Middle;
    }
    Buffer::Large
}

// The KiB of stack that it asks for, with or without a buffer for a text beside it.
#[tactic(auto, unfolding(crate::specs::Rooms::need_of))]
fn need_of(buffer: Buffer, prints: bool) -> u64
    ensures { result ≡ need_of prints buffer }
{
    match (buffer, prints) {
        (Buffer::Small, false) => 1536,
        (Buffer::Middle, false) => 6144,
        (Buffer::Large, false) => 24576,
        (Buffer::Small, true) => 2560,
        (Buffer::Middle, true) => 7168,
        (Buffer::Large, true) => 26624,
    }
}

// The KiB of stack that two of it ask for, with the images of a move or a rebuild and the library's tables.
#[tactic(auto, unfolding(crate::specs::Rooms::move_need_of))]
fn move_need_of(buffer: Buffer) -> u64
    ensures { result ≡ move_need_of buffer }
{
    match buffer {
        Buffer::Small => 3584,
        Buffer::Middle => 12288,
        Buffer::Large => 39936,
    }
}

// The KiB that it asks for, where fewer are allowed.
pub fn lacking(buffer: Buffer, prints: bool, allowed: u64) -> Option<u64>
    ensures { result ≡ lack_of (need_of prints buffer) allowed }
{
    lack(need_of(buffer, prints), allowed)
}

// The same of two of it.
pub fn lacking_for_move(buffer: Buffer, allowed: u64) -> Option<u64>
    ensures { result ≡ lack_of (move_need_of buffer) allowed }
{
    lack(move_need_of(buffer), allowed)
}

fn lack(needed: u64, allowed: u64) -> Option<u64>
    ensures { result ≡ lack_of needed allowed }
{
    if allowed < needed {
        return Some(needed);
    }
    None
}
