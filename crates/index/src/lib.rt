// What an account shows of an image: its segments, and its live slots by block number, in tables that lie on the stack. What
// they say stands in specs/. There is no code here but what is derived.
#![tactic(auto)]

use judge::SegmentState;
use model::SegmentNumber;

// The slots of a segment by kind; torn and wrong ones are in no count. A segment has at most 255 slots.
#[derive(Clone, Copy, Default)]
pub struct Counts {
    pub live: u8,
    pub dead: u8,
    pub cut: u8,
    pub empty: u8,
}

// A segment as it is shown: its state, and of one in use the number and the counts.
#[derive(Clone, Copy)]
pub struct Shown {
    pub number: SegmentNumber,
    pub counts: Counts,
    pub state: SegmentState,
}

// The live slots by block number: the first page of each number, and of each page the next of its block, where 0 is none, and
// the length of its contents. They are filled in place, by a reference: a copy would double an account's stack.
#[derive(Drop)]
pub struct Tables {
    pub firsts: [u16; 65536],
    pub nexts: [u16; 65536],
    pub lengths: [u8; 65536],
}
