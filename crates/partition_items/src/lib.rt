// The items of a partition (request #109), programmed, tested, and carried to another partition under a budget.
#![tactic(auto)]

ghost use Rattle.std.specs.Prelude.{◌≡◌, [], ◌∷◌, ◌++◌, ◌+◌, ◌≤◌, length, take, drop};
ghost use Rattle.model.specs.Chip.{program};
ghost use Rattle.model.specs.Header.{is_blank};
ghost use Rattle.model.specs.Steps.{programs};
ghost use Rattle.flash.specs.Ran.{Programmed};
ghost use Rattle.flash.specs.Units.{RanIn};
ghost use Rattle.partitions.specs.Layout.{items_of};
ghost use Rattle.partitions.specs.Writes.{write_items, carried, entry_for};
ghost use Rattle.partition_items.specs.Carrying.{carry_steps, Disjoint, CarryOne, Carry};

// ---- one item

// Programs an item whose identifier byte stands at an offset: the data first, so that the byte which makes them count is the
// last step.
pub fn write_item(image: &mut [u8], at: usize, item: u8, contents: &[u8], budget: u64) -> u64
    requires { at + 1 + length contents.now ≤ length image.old }
    ensures { Programmed (programs (at + 1) contents.now ++ (program at item ∷ [])) budget result image.old image.new }
{
    let left = flash::program_run(image, at + 1, contents, budget);
    flash::program_byte(image, at, item, left)
}

// Whether its identifier byte and its data are all 255.
pub fn item_erased(image: &[u8], at: usize, size: usize) -> bool
    requires { at + 1 + size ≤ length image.now }
    ensures { result ≡ is_blank (take (1 + size) (drop at image.now)) }
{
    let end = at + 1 + size;
    let test = blank::blank_test(&image[at..end]);
    test.blank
}

// Programs bytes that stand elsewhere in the image, as `flash::program_run` does.
fn copy_data(image: &mut [u8], from: usize, to: usize, size: usize, budget: u64) -> u64
    requires { (from + size ≤ length image.old) × (to + size ≤ length image.old) × Disjoint from to size }
    ensures { Programmed (programs to (take size (drop from image.old))) budget result image.old image.new }
{
    let covered = (budget as usize).min(size);
    let mut left = budget;
    for i in 0..covered {
        let o = to + i;
        image[o] = image[o] & image[from + i];
        left -= 1;
    }
    left
}

// ---- the items of a partition

// One item of the table, with its identifier and the length of its data, on the way from an offset to another: the new data if
// it is the item that is written, otherwise its old data if it has any.
fn carry_item(
    image: &mut [u8],
    from: usize,
    to: usize,
    identifier: u8,
    size: usize,
    item: u8,
    contents: &[u8],
    budget: u64,
) -> u64
    requires { CarryOne from to identifier size item contents.now (length image.old) }
    ensures { Programmed (carry_steps image.old from to identifier size item contents.now) budget result image.old image.new }
{
    if identifier == item {
        return write_item(image, to, identifier, contents, budget);
    }
    if image[from] != identifier {
        return budget;
    }
    let left = copy_data(image, from + 1, to + 1, size, budget);
    flash::program_byte(image, to, identifier, left)
}

// Programs the written items of one partition into another, in the order of the table, the new one in its item's place.
pub fn carry_items(
    image: &mut [u8],
    size: usize,
    from: usize,
    to: usize,
    layout: &[u8],
    item: u8,
    contents: &[u8],
    budget: u64,
) -> u64
    requires { Carry size from to layout.now item contents.now (length image.old) }
    ensures { RanIn (write_items size to (carried size image.old from (entry_for layout.now item contents.now) (items_of layout.now))) size budget result image.old image.new }
{
    let source = from * size;
    let target = to * size;
    let mut left = budget;
    let mut at = 1;
    for pair in layout.chunks_exact(2) {
        let length = usize::from(pair[1]);
        left = carry_item(
            image,
            source + at,
            target + at,
            pair[0],
            length,
            item,
            contents,
            left,
        );
        at += 1 + length;
    }
    left
}
