// The plain data that code and contracts share. What each means stands in specs/, beside the section of
// document 01 that speaks of it. There is no code here.
#![tactic(auto)]

// The most segments of an image; `most_segments` in specs/.
pub const MOST_SEGMENTS: usize = 255;

// The erases of one segment that a chip is good for: totals stay below it, and segment numbers below it times the count
// of segments; `erase_limit` in specs/.
pub const ERASE_LIMIT: usize = 100000;

// How an image is divided: the count of its segments and that of the slots in each (document 01: N and B).
#[derive(Clone, Copy)]
pub struct Geometry {
    pub segments: usize,
    pub slots: usize,
}

// Names a record, 1 to 65,534 (document 01: block number).
#[derive(Clone, Copy)]
pub struct BlockNumber(pub u16);

// Counts the segments as they are taken into use; its remainder by N is the segment's index (document 01: segment number).
#[derive(Clone, Copy)]
pub struct SegmentNumber(pub u32);

// The offset of a slot's page in the image (document 01: slot place).
#[derive(Clone, Copy)]
pub struct SlotPlace(pub usize);

// What a slot page is, with the length and the block number of a live one. A dead slot was replaced or deleted (status 1F);
// the writing of a cut one was cut by a loss of power, and recovery has marked it (5F).
#[derive(Clone, Copy)]
pub enum SlotKind {
    Empty,
    Torn,
    Live { length: usize, block: BlockNumber },
    Dead,
    Cut,
    Wrong,
}

// What comes back, in the order of document 01's table of answers, with 10 of request #102, 11 of #104, 12 and 13 of #110 and 14 of
// #101.
#[derive(Clone, Copy)]
pub enum Answer {
    Done,
    Size,
    Number,
    Length,
    Damaged,
    Unfinished,
    Absent,
    Full,
    Worn,
    Cut,
    ShortTable,
    FormerVersion,
    Foreign,
    Shares,
    ShortBuffer,
}

// A writing request's answer, and the flash steps that it took.
#[derive(Clone, Copy)]
pub struct Performed {
    pub answer: Answer,
    pub steps: u64,
}

// A read's answer, and the contents' offset in the image and their length.
#[derive(Clone, Copy)]
pub struct Located {
    pub answer: Answer,
    pub offset: usize,
    pub length: usize,
}

// A count's answer, how many blocks of a range are stored, and whether one block is (request #110).
#[derive(Clone, Copy)]
pub struct Counted {
    pub answer: Answer,
    pub blocks: usize,
    pub stored: bool,
}
