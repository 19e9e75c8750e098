// The layout table of a board with the older partition format (request #109), tested and searched. Nothing is required of who
// made the table: it is tested at every request.
#![tactic(auto)]

ghost use Rattle.std.specs.Prelude.{◌≡◌, ◌%◌, ◌≤◌, length};
ghost use Rattle.partitions.specs.Layout.{items_of, bytes_used, layout_ok};
ghost use Rattle.partition_layout.specs.Places.{Placed};

// An item's identifier byte before the item is written, and so no identifier.
const NO_IDENTIFIER: usize = 255;

// Items stand behind a partition's status byte.
const STATUS_BYTES: usize = 1;

// Where an item stands in a partition, and the length of its data.
#[derive(Clone, Copy)]
pub struct Place {
    pub offset: usize,
    pub length: usize,
}

// Whether a table is right, for partitions of so many bytes. What the items leave of a partition is counted down: all of their
// bytes may be more than a number holds.
pub fn layout_ok(layout: &[u8], size: usize) -> bool
    ensures { result ≡ layout_ok size layout.now }
{
    if layout.len() % 2 != 0 {
        return false;
    }
    if size == 0 {
        return false;
    }
    let mut left = size - STATUS_BYTES;
    let mut met = [false; 256];
    for pair in layout.chunks_exact(2) {
        let identifier = usize::from(pair[0]);
        let length = usize::from(pair[1]);
        if identifier == NO_IDENTIFIER {
            return false;
        }
        if met[identifier] {
            return false;
        }
        if length == 0 {
            return false;
        }
        let bytes = 1 + length;
        if left < bytes {
            return false;
        }
        left -= bytes;
        met[identifier] = true;
    }
    true
}

// Where the item with an identifier stands, if the table has one.
pub fn find_item(layout: &[u8], item: u8) -> Option<Place>
    requires { (length layout.now % 2 ≡ 0) × (bytes_used (items_of layout.now) ≤ 18446744073709551615) }
    ensures { Placed layout.now item result }
{
    let mut offset = STATUS_BYTES;
    for pair in layout.chunks_exact(2) {
        let length = usize::from(pair[1]);
        if pair[0] == item {
            return Some(Place { offset, length });
        }
        offset += 1 + length;
    }
    None
}
