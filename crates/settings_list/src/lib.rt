// The list of a board: its newest partition and the items of its layout table, in a lent buffer.
#![tactic(auto)]

ghost use Rattle.std.specs.Prelude.{◌≡◌, ◌/◌, ◌≤◌, length};
ghost use Rattle.text.specs.Buffer.{Wrote};
ghost use Rattle.partitions.specs.Partitions as board;
ghost use Rattle.partitions.specs.Answers.{read_outcome};
ghost use Rattle.qbx_lines.specs.Lines.{said};
ghost use Rattle.settings_item_lines.specs.ItemLines.{item_lines, most_layout};
ghost use Rattle.settings_list.specs.BoardList.{partition_line, list_on, list_outcome};
ghost use Rattle.settings_list.specs.Listing.{most_list, Right, Lists};

use partition_status::NoRun;
use partitions::Reply;
use qbx_lines::{Line, add, add_count, empty};
use settings_item_lines::{add_line, item_lines};

// The most bytes of a list; `most_list` in specs/.
pub const MOST_LIST: usize = 180224;

// The line of the newest partition.
fn partition_line(partition: usize, status: u8) -> Line
    ensures { (said result ≡ partition_line partition status) × (result.count ≤ 60) }
{
    let named = add_count(empty(), b"partition ", partition as u64);
    let told = add_count(named, b" status ", status as u64);
    add(told, b"\n")
}

// The lines of the items behind a first line.
fn list_items(text: &mut [u8], at: usize, image: &[u8], partitions: usize, layout: &[u8]) -> usize
    requires { (at ≤ 1000) × (length layout.now ≤ most_layout) }
    ensures { Wrote (item_lines (read_outcome partitions layout.now image.now) image.now layout.now) text.old at text.new result × (result ≤ most_list) }
{
    item_lines(text, at, image, partitions, layout)
}

// The list of a board whose P and table are right, by its newest partition.
#[tactic(auto, unfolding(partition_status::specs::Said::said))]
fn list_board(
    text: &mut [u8],
    image: &[u8],
    partitions: usize,
    layout: &[u8],
) -> Result<usize, Reply>
    requires { Right partitions layout.now image.now }
    ensures { Lists (list_on partitions layout.now image.now (board.newest_in partitions (length image.now / partitions) image.now)) result text.old text.new }
{
    let size = image.len() / partitions;
    match partition_status::find_newest(image, partitions, size) {
        Ok(None) => {
            let begun = text::add(text, 0, b"nothing written\n");
            Ok(list_items(text, begun, image, partitions, layout))
        }
        Ok(Some(partition)) => {
            let status = partition_status::status_of(image, size, partition);
            let begun = add_line(text, 0, partition_line(partition, status));
            Ok(list_items(text, begun, image, partitions, layout))
        }
        Err(NoRun) => Err(Reply::Statuses),
    }
}

// The list of a board: how long it is. P, image and table are tested as a request tests them, and a list that is refused has no text.
pub fn list(text: &mut [u8], image: &[u8], partitions: usize, layout: &[u8]) -> Result<usize, Reply>
    ensures { Lists (list_outcome partitions layout.now image.now) result text.old text.new }
{
    if !partition_status::partitions_ok(partitions) {
        return Err(Reply::Partitions);
    }
    if image.len() % partitions != 0 {
        return Err(Reply::Partitions);
    }
    if !partition_layout::layout_ok(layout, image.len() / partitions) {
        return Err(Reply::Layout);
    }
    list_board(text, image, partitions, layout)
}
