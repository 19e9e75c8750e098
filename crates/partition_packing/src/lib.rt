// What the exports of the older partition format (request #109) give, packed into one number.
#![tactic(auto)]

ghost use Rattle.std.specs.Prelude.{◌≡◌, ◌+◌, ◌*◌, ◌%◌, ◌≤◌};
ghost use Rattle.partitions.specs.Answers.{number_of};
ghost use Rattle.partition_packing.specs.Offsets.{offsets};

use partitions::{Spot, Written};

// How many offsets the bits above the lowest sixteen can tell: all of an image of 256 TiB.
const OFFSETS: usize = 281474976710656;

// The answer, and 256 times the steps done: no list has more than 65,538.
pub fn packed_write(p: Written) -> u64
    requires { p.steps ≤ 65538 }
    ensures { result ≡ number_of p.answer + 256 * p.steps }
{
    u64::from(p.answer) + 256 * p.steps
}

// The answer, 256 times the length and 65,536 times the offset.
#[tactic(auto, unfolding(crate::specs::Offsets::offsets))]
pub fn packed_spot(p: Spot) -> u64
    requires { p.length ≤ 255 }
    ensures { result ≡ number_of p.answer + 256 * p.length + 65536 * (p.offset % offsets) }
{
    let length = p.length as u64;
    let offset = (p.offset % OFFSETS) as u64;
    u64::from(p.answer) + 256 * length + 65536 * offset
}
