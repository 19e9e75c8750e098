// Boards with the older partition format (request #109): the plain data that code and contracts share. What each means stands
// in specs/.
#![tactic(auto)]

ghost use Rattle.std.specs.Prelude.{◌≡◌, ◌≤◌};
ghost use Rattle.partitions.specs.Answers.{number_of};

// What comes back: this part has its own table of refusals, 1 to 5, and 9 as document 01 has it.
#[derive(Clone, Copy)]
pub enum Reply {
    Done,
    Partitions,
    Layout,
    Mismatch,
    Statuses,
    Unwritten,
    Cut,
}

// The number of an answer, to reckon with.
impl From<Reply> for u64 {
    ghost from_gives = { λ answer n. (n ≡ number_of answer) × (n ≤ 255) };

    #[tactic(auto, unfolding(crate::specs::Answers::number_of))]
    fn from(answer: Reply) -> u64 {
        match answer {
            Reply::Done => 0,
            Reply::Partitions => 1,
            Reply::Layout => 2,
            Reply::Mismatch => 3,
            Reply::Statuses => 4,
            Reply::Unwritten => 5,
            Reply::Cut => 9,
        }
    }
}

// A write's answer, and the flash steps that it took.
// Kept: `wrote result image.new ≡ write_outcome ..` of partition_store::write tells steps of every answer, of one cut short too.
#[derive(Clone, Copy)]
pub struct Written {
    pub answer: Reply,
    pub steps: u64,
}

// A read's answer, and the data's offset in the image and their length.
// Kept: `told result ≡ read_outcome ..` of partition_store::read tells an offset and a length of every answer, 0 if it is refused.
#[derive(Clone, Copy)]
pub struct Spot {
    pub answer: Reply,
    pub offset: usize,
    pub length: usize,
}
