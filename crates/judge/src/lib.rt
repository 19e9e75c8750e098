// What a look at an image tells: rows of slots, tables of summaries, and their sums. What each says of the image's state
// stands in specs/. There is no code here.
#![tactic(auto)]

use model::{BlockNumber, SegmentNumber};

// What a segment's header and a blank test tell: blank; neither in use nor blank; in use; in use with the old segment still to be erased.
#[derive(Clone, Copy)]
pub enum SegmentState {
    Blank,
    Invalid,
    InUse,
    Owing,
}

// How a row of slots ends: every slot written; empty ones last; the last written slot torn; or live with a number
// that was met before; or against the rules.
#[derive(Clone, Copy)]
pub enum Ending {
    Full,
    Room,
    TornLast,
    TwinLast,
    Bad,
}

// The slots of one segment, looked at in order: counts, how they end, and the block of the last live one. A segment has at
// most 255 slots, so that a byte holds a count.
#[derive(Clone, Copy)]
pub struct Row {
    pub live: u8,
    pub dead: u8,
    pub cut: u8,
    pub ending: Ending,
    pub block: BlockNumber,
}

// One segment (document 01: summary). There is one for each of 255 segments, and a table of them is copied where it is
// handed over: in this order, without a gap inside, a summary takes twelve bytes.
#[derive(Clone, Copy)]
pub struct Summary {
    pub number: SegmentNumber,
    pub row: Row,
    pub state: SegmentState,
    // of version 1
    pub former: bool,
}

// The segments of a table counted: the number after the top's, or 0 if none is in use; how many are; whether none is
// owing and all others are blank; and whether all in use have version 1, and whether all have version 2.
#[derive(Clone, Copy)]
pub struct HeaderCounts {
    pub next: usize,
    pub used: usize,
    pub settled: bool,
    pub all_version_1: bool,
    pub all_version_2: bool,
}

// The segments in use: the smallest number, how many, and whether conditions 1 to 4 of document 01's Clean hold.
// Kept: `fine` beside the two, no Option: the number and the count are told of any frame (`frame_of`), and `exam_of` hands them on.
#[derive(Clone, Copy)]
pub struct Frame {
    pub first: usize,
    pub used: usize,
    pub fine: bool,
}

// What the headers tell: the number after the top's; whether the top is owing; whether the segment after it is torn (neither in
// use nor blank), and whether it is blank; and the frame once what is unfinished here is mended.
#[derive(Clone, Copy)]
pub struct Headers {
    pub next: usize,
    pub owing: bool,
    pub torn: bool,
    pub blank: bool,
    pub frame: Frame,
}

// Rows added up: live slots; of the last row, how many are written if it ends by the rules, how it ends behind the others
// and its last live block; and how many rows there are up to the first with a dead or cut slot.
#[derive(Clone, Copy)]
pub struct Sum {
    pub live: usize,
    pub written: usize,
    pub compactions: usize,
    pub dead: bool,
    pub ending: Ending,
    pub block: BlockNumber,
}
