// The lines of the items of a layout table, each with what a read of the item gives, added to a text.
#![tactic(auto)]

ghost use Rattle.std.specs.Prelude.{◌≡◌, ◌+◌, ◌*◌, ◌≤◌, length};
ghost use Rattle.text.specs.Buffer.{Wrote, most_text};
ghost use Rattle.partitions.specs.Answers.{read_outcome};
ghost use Rattle.qbx_lines.specs.Lines.{most_line, said};
ghost use Rattle.settings_item_lines.specs.ItemLines.{item_head, written_line, unwritten_line, item_line, item_lines, most_layout};

use qbx_lines::{Line, add, add_count, empty};

// An item's line up to what is told of its data.
fn item_head(identifier: u8, size: u8) -> Line
    ensures { (said result ≡ item_head identifier size) × (result.count ≤ 50) }
{
    let named = add_count(empty(), b"item ", identifier as u64);
    add_count(named, b" len ", size as u64)
}

// A line added to a text.
pub fn add_line(text: &mut [u8], at: usize, line: Line) -> usize
    requires { (at ≤ most_text) × (line.count ≤ most_line) }
    ensures { Wrote (said line) text.old at text.new result × (result ≡ at + line.count) }
{
    let bytes = line.bytes;
    let n = line.count;
    text::add(text, at, &bytes[..n])
}

// The line of an item whose data are at an offset.
fn written_line(
    text: &mut [u8],
    at: usize,
    identifier: u8,
    size: u8,
    offset: usize,
    stored: &[u8],
) -> usize
    requires { (at + 700 ≤ most_text) × (length stored.now ≤ 255) }
    ensures { Wrote (written_line identifier size offset stored.now) text.old at text.new result × (result ≤ at + 700) }
{
    let placed = add_count(item_head(identifier, size), b" offset ", offset as u64);
    let begun = add_line(text, at, add(placed, b" data "));
    let shown = settings_hex::add_hex(text, begun, stored);
    text::add(text, shown, b"\n")
}

// The line of an item that is not written.
fn unwritten_line(text: &mut [u8], at: usize, identifier: u8, size: u8) -> usize
    requires { at + 700 ≤ most_text }
    ensures { Wrote (unwritten_line identifier size) text.old at text.new result × (result ≤ at + 700) }
{
    add_line(text, at, add(item_head(identifier, size), b" unwritten\n"))
}

// The line of an item, by what a read of it gives.
fn item_line(
    text: &mut [u8],
    at: usize,
    image: &[u8],
    partitions: usize,
    layout: &[u8],
    identifier: u8,
    size: u8,
) -> usize
    requires { at + 700 ≤ most_text }
    ensures { Wrote (item_line image.now identifier size (read_outcome partitions layout.now image.now identifier)) text.old at text.new result × (result ≤ at + 700) }
{
    let spot = partition_store::read(image, partitions, layout, identifier);
    let answer = spot.answer;
    let offset = spot.offset;
    let count = spot.length;
    if u64::from(answer) == 0 {
        let stored = qbx_images::piece(image, offset, count);
        return written_line(text, at, identifier, size, offset, stored);
    }
    unwritten_line(text, at, identifier, size)
}

// One line for each pair of a table.
pub fn item_lines(
    text: &mut [u8],
    at: usize,
    image: &[u8],
    partitions: usize,
    layout: &[u8],
) -> usize
    requires { (at ≤ 1000) × (length layout.now ≤ most_layout) }
    ensures { Wrote (item_lines (read_outcome partitions layout.now image.now) image.now layout.now) text.old at text.new result × (result ≤ at + 350 * length layout.now) }
{
    let mut end = at;
    for i in 0..layout.len() / 2 {
        end = item_line(
            text,
            end,
            image,
            partitions,
            layout,
            layout[2 * i],
            layout[2 * i + 1],
        );
    }
    end
}
