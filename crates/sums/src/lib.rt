// The rows of the segments in use, oldest first, gathered and added up.
#![tactic(auto)]

ghost use Rattle.std.specs.Prelude.{◌≡◌, map, ◌+◌, ◌≤◌, length, take};
ghost use Rattle.model.specs.Chip.{most_segments, most_slots};
ghost use Rattle.flash.specs.Pages.{Sized};
ghost use Rattle.judge.specs.Endings.{in_order, ends_torn, ends_twin};
ghost use Rattle.judge.specs.Verdict.{orderly, torn_within, twin_within};
ghost use Rattle.sums.specs.Exams.{exam_of, Bounded};
ghost use Rattle.judge.specs.Parts.{rows_on};
ghost use Rattle.judge.specs.Tally.{none_met, tallies, summary_of, summaries_of, row_of, written_in, most_written, add_row, add_rows, no_sum, Few, Ranged};

use judge::{Ending, Frame, Row, SegmentState, Sum, Summary};
use model::{BlockNumber, Geometry, MOST_SEGMENTS, SegmentNumber};

// The segments in use that a table of summaries shows, and their rows added up.
#[derive(Clone, Copy)]
pub struct Exam {
    pub first: usize,
    pub used: usize,
    pub sum: Sum,
}

// The summary of a segment in use whose slots were looked at.
fn in_use(number: SegmentNumber, row: Row) -> Summary
    ensures { result ≡ summary_of number.0 row }
{
    let state = SegmentState::InUse;
    Summary {
        number,
        row,
        state,
        former: false,
    }
}

// The summaries of the segments in use, oldest first, each looked at behind those before.
fn gather(image: &[u8], geometry: Geometry, first: usize, used: usize) -> [Summary; MOST_SEGMENTS]
    requires { Sized geometry.segments geometry.slots (length image.now) × (first + used ≤ 4294967296) × (used ≤ most_segments) }
    ensures { take used result ≡ summaries_of first (tallies (rows_on image.now geometry.segments geometry.slots used first) none_met) }
{
    let mut seen = [0u64; 1024];
    let none = in_use(SegmentNumber(0), rows::no_row());
    let mut ring = [none; MOST_SEGMENTS];
    for i in 0..used {
        let number = first + i;
        let at = (number % geometry.segments * (geometry.slots + 1) + 1) * 256;
        let row = rows::scan_row(image, at, geometry.slots, &mut seen);
        ring[i] = in_use(SegmentNumber(number as u32), row);
    }
    ring
}

// The slots of a row that are not empty, if it does not end against the rules.
fn written(row: Row) -> usize
    ensures { (result ≡ written_in row) × (result ≤ most_written) }
{
    let counted = usize::from(row.live) + usize::from(row.dead) + usize::from(row.cut);
    if ends_torn(row.ending) {
        counted + 1
    } else {
        counted
    }
}

fn add_row(sum: Sum, row: Row) -> Sum
    requires { Few sum 1000 }
    ensures { (result ≡ add_row sum row) × (row.live ≤ most_slots) × (written_in row ≤ most_written) }
{
    let block = row.block;
    let live = sum.live + usize::from(row.live);
    let written = written(row);
    let ending = rows::behind(sum.ending, row.ending);
    if sum.dead {
        return Sum {
            live,
            written,
            compactions: sum.compactions,
            dead: true,
            ending,
            block,
        };
    }
    Sum {
        live,
        written,
        compactions: sum.compactions + 1,
        dead: usize::from(row.dead) + usize::from(row.cut) > 0,
        ending,
        block,
    }
}

fn sum_rows(ring: [Summary; MOST_SEGMENTS], used: usize) -> Sum
    requires { used ≤ most_segments }
    ensures { (result ≡ add_rows (map row_of (take used ring)) no_sum) × (result.written ≤ most_written) }
{
    let mut sum = Sum {
        live: 0,
        written: 0,
        compactions: 0,
        dead: false,
        ending: Ending::Full,
        block: BlockNumber(0),
    };
    for i in 0..used {
        sum = add_row(sum, ring[i].row);
    }
    sum
}

#[tactic(auto, unfolding(judge::specs::Endings::in_order))]
fn in_order(ending: Ending) -> bool
    ensures { result ≡ in_order ending }
{
    matches!(ending, Ending::Full | Ending::Room)
}

#[tactic(auto, unfolding(judge::specs::Endings::ends_torn))]
fn ends_torn(ending: Ending) -> bool
    ensures { result ≡ ends_torn ending }
{
    matches!(ending, Ending::TornLast)
}

#[tactic(auto, unfolding(judge::specs::Endings::ends_twin))]
fn ends_twin(ending: Ending) -> bool
    ensures { result ≡ ends_twin ending }
{
    matches!(ending, Ending::TwinLast)
}

// Whether conditions 5 to 8 hold.
// Kept: three, of one line each: each has a definition of its own (`orderly`, `torn_within`, `twin_within`), which its callers name.
#[tactic(auto, unfolding(judge::specs::Verdict::orderly))]
pub fn orderly(sum: Sum, most: usize) -> bool
    ensures { result ≡ orderly most sum }
{
    in_order(sum.ending) && sum.live <= most
}

// Whether they hold but for a torn slot, written last.
#[tactic(auto, unfolding(judge::specs::Verdict::torn_within))]
pub fn torn_within(sum: Sum, most: usize) -> bool
    ensures { result ≡ torn_within most sum }
{
    ends_torn(sum.ending) && sum.live <= most
}

// Whether they hold but for a live slot, written last, whose block was met before.
#[tactic(auto, unfolding(judge::specs::Verdict::twin_within))]
pub fn twin_within(sum: Sum, most: usize) -> bool
    ensures { result ≡ twin_within most sum }
{
    ends_twin(sum.ending) && sum.live <= most
}

// The segments in use examined, where their frame is fine.
pub fn examine(image: &[u8], geometry: Geometry, frame: Frame) -> Exam
    requires { Sized geometry.segments geometry.slots (length image.now) × Ranged frame }
    ensures { (result ≡ exam_of geometry.segments geometry.slots image.now frame) × Bounded result }
{
    let first = frame.first;
    let used = frame.used;
    if frame.fine {
        let sum = sum_rows(gather(image, geometry, first, used), used);
        return Exam { first, used, sum };
    }
    let sum = Sum {
        live: 0,
        written: 0,
        compactions: 0,
        dead: false,
        ending: Ending::Bad,
        block: BlockNumber(0),
    };
    Exam { first, used, sum }
}
