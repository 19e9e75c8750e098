// Reader and writer of a board with the older partition format (request #109). Nothing is required of image, table and item:
// they are tested at every request.
#![tactic(auto)]

ghost use Rattle.std.specs.Prelude.{◌≡◌, [], ◌∷◌, ℕ, ◌+◌, ◌/◌, ◌≤◌, ◌<◌, length};
ghost use Rattle.partitions.specs.Layout.{items_of};
ghost use Rattle.partitions.specs.Partitions as board;
ghost use Rattle.partitions.specs.Writes.{fill, carried, write_steps, item_steps, entry_for};
ghost use Rattle.partitions.specs.Answers.{worked_in, write_outcome, wrote, read_outcome, told};
ghost use Rattle.partition_items.specs.Carrying.{Carry};
ghost use Rattle.partition_store.specs.Asking.{Known, Asks, Stands};
ghost use Rattle.partition_store.specs.Answering.{Finished, Performs, write_on, entry_at, read_on};

use partition_layout::Place;
use partition_status::NoRun;
use partitions::{Reply, Spot, Written};

// ---- what a request asks for

// Where its item stands in a partition. Tests everything but the data's length and the statuses, in the order of the refusals.
fn find(image: &[u8], partitions: usize, layout: &[u8], item: u8) -> Result<Place, Reply>
    ensures { Asks partitions layout.now image.now item result }
{
    if !partition_status::partitions_ok(partitions) {
        return Err(Reply::Partitions);
    }
    if image.len() % partitions != 0 {
        return Err(Reply::Partitions);
    }
    if !partition_layout::layout_ok(layout, image.len() / partitions) {
        return Err(Reply::Layout);
    }
    partition_layout::find_item(layout, item).ok_or(Reply::Mismatch)
}

// ---- reading

// A refused read tells no place.
fn unread(answer: Reply) -> Spot
    ensures { result ≡ record { answer = answer; offset = 0; length = 0 } }
{
    Spot {
        answer,
        offset: 0,
        length: 0,
    }
}

// Reads by the newest partition.
fn read_found(image: &[u8], partitions: usize, item: u8, at: usize, bytes: usize) -> Spot
    requires { Stands partitions at bytes (length image.now) }
    ensures { (told result ≡ read_on (length image.now / partitions) image.now (board.newest_in partitions (length image.now / partitions) image.now) (record { identifier = item; size = bytes; at = at })) × (result.length ≤ 255) }
{
    let size = image.len() / partitions;
    match partition_status::find_newest(image, partitions, size) {
        Ok(None) => unread(Reply::Unwritten),
        Ok(Some(partition)) => {
            let place = partition * size + at;
            if image[place] != item {
                return unread(Reply::Unwritten);
            }
            Spot {
                answer: Reply::Done,
                offset: place + 1,
                length: bytes,
            }
        }
        Err(NoRun) => unread(Reply::Statuses),
    }
}

// The place of an item's data, which are at most 255 bytes.
pub fn read(image: &[u8], partitions: usize, layout: &[u8], item: u8) -> Spot
    ensures { (told result ≡ read_outcome partitions layout.now image.now item) × (result.length ≤ 255) }
{
    match find(image, partitions, layout, item) {
        Ok(place) => read_found(image, partitions, item, place.offset, place.length),
        Err(answer) => unread(answer),
    }
}

// ---- writing

// A refusal takes no step.
fn refused(answer: Reply) -> Written
    ensures { result ≡ record { answer = answer; steps = 0 } }
{
    Written { answer, steps: 0 }
}

// A list of steps was performed, as far as the budget went. It was cut short just if what was left before its last part, of
// one step at least, does not cover that part.
fn finished(budget: u64, left: u64, before: u64, last: u64) -> Written
    requires { left ≤ budget }
    ensures { Finished budget left before last result }
{
    if before < last {
        return Written {
            answer: Reply::Cut,
            steps: budget - left,
        };
    }
    Written {
        answer: Reply::Done,
        steps: budget - left,
    }
}

// The first write on a board: partition 0 gets the item, and then, as one step that counts, status 0.
fn write_first(
    image: &mut [u8],
    size: usize,
    at: usize,
    item: u8,
    contents: &[u8],
    budget: u64,
) -> Written
    requires { (at + 1 + length contents.now ≤ size) × (size ≤ length image.old) }
    ensures { Performs (fill size 0 (entry_at at item contents.now ∷ []) 0) size budget result image.old image.new }
{
    let blank = flash::erase_unit(image, 0, size, budget);
    let filled = partition_items::write_item(image, at, item, contents, blank);
    let left = flash::program_byte(image, 0, 0, filled);
    finished(budget, left, filled, 1)
}

// A write to bytes that are all 255: the identifier is the step that counts.
fn write_in_place(image: &mut [u8], at: usize, item: u8, contents: &[u8], budget: u64) -> Written
    requires { at + 1 + length contents.now ≤ length image.old }
    ensures { (S : ℕ) → Performs (item_steps at item contents.now) S budget result image.old image.new }
{
    let left = partition_items::write_item(image, at, item, contents, budget);
    finished(budget, left, budget, contents.len() as u64 + 1)
}

// A write to the next partition: the written items of the newest and the new one, and only then, as one step, the status. Until
// that step the newest is as it was.
fn write_next(
    image: &mut [u8],
    size: usize,
    from: usize,
    to: usize,
    layout: &[u8],
    item: u8,
    contents: &[u8],
    budget: u64,
) -> Written
    requires { Carry size from to layout.now item contents.now (length image.old) }
    ensures { Performs (fill size to (carried size image.old from (entry_for layout.now item contents.now) (items_of layout.now)) (board.next_status (board.status_of size image.old from))) size budget result image.old image.new }
{
    let status = image[from * size];
    let following = partition_status::next_status(status);
    let blank = flash::erase_unit(image, to, size, budget);
    let filled = partition_items::carry_items(image, size, from, to, layout, item, contents, blank);
    let left = flash::program_byte(image, to * size, following, filled);
    finished(budget, left, filled, 1)
}

// A write where a partition is the newest: in place if the item's bytes there are all 255.
fn write_newest(
    image: &mut [u8],
    partitions: usize,
    partition: usize,
    layout: &[u8],
    at: usize,
    item: u8,
    contents: &[u8],
    budget: u64,
) -> Written
    requires { Known partitions layout.now image.old item at (length contents.now) × (partition < partitions) }
    ensures { Performs (write_steps partitions (length image.old / partitions) (items_of layout.now) image.old (board.newest partition) (entry_for layout.now item contents.now)) (length image.old / partitions) budget result image.old image.new }
{
    let size = image.len() / partitions;
    let place = partition * size + at;
    if partition_items::item_erased(image, place, contents.len()) {
        return write_in_place(image, place, item, contents, budget);
    }
    let next = partition_status::next_partition(partitions, partition);
    write_next(image, size, partition, next, layout, item, contents, budget)
}

// Writes by the newest partition.
fn write_found(
    image: &mut [u8],
    partitions: usize,
    layout: &[u8],
    at: usize,
    item: u8,
    contents: &[u8],
    budget: u64,
) -> Written
    requires { Known partitions layout.now image.old item at (length contents.now) }
    ensures { wrote result image.new ≡ worked_in (length image.old / partitions) (write_on partitions (length image.old / partitions) (items_of layout.now) image.old (board.newest_in partitions (length image.old / partitions) image.old) (entry_for layout.now item contents.now)) image.old budget }
{
    let size = image.len() / partitions;
    match partition_status::find_newest(image, partitions, size) {
        Ok(None) => write_first(image, size, at, item, contents, budget),
        Ok(Some(partition)) => write_newest(
            image, partitions, partition, layout, at, item, contents, budget,
        ),
        Err(NoRun) => refused(Reply::Statuses),
    }
}

// Writes an item.
pub fn write(
    image: &mut [u8],
    partitions: usize,
    layout: &[u8],
    item: u8,
    contents: &[u8],
    budget: u64,
) -> Written
    ensures { wrote result image.new ≡ write_outcome partitions layout.now image.old item contents.now budget }
{
    match find(image, partitions, layout, item) {
        Ok(place) => {
            if contents.len() != place.length {
                return refused(Reply::Mismatch);
            }
            write_found(
                image,
                partitions,
                layout,
                place.offset,
                item,
                contents,
                budget,
            )
        }
        Err(answer) => refused(answer),
    }
}
