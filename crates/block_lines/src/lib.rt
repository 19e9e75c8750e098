// The lines of the blocks of an account, added to a text.
#![tactic(auto)]

ghost use Rattle.std.specs.Prelude.{◌++◌, ◌+◌, ◌*◌, ◌<◌, ◌≤◌, length};
ghost use Rattle.flash.specs.Pages.{Sized};
ghost use Rattle.text.specs.Text.{text as ascii};
ghost use Rattle.text.specs.Buffer.{Wrote, most_text};
ghost use Rattle.account_text.specs.Account.{block_text, block_lines, by_block};
ghost use Rattle.index.specs.Tables.{Chain, AllStand, of_block, list_of, Indexed};

use index::Tables;
use model::Geometry;

// Of a live slot, its line but for the end.
pub fn block_text(
    text: &mut [u8],
    at: usize,
    block: u32,
    length: u32,
    segment: u32,
    slot: u32,
) -> usize
    requires { at + 80 ≤ most_text }
    ensures { Wrote (block_text block length segment slot) text.old at text.new result × (result ≤ at + 62) }
{
    let blocks = text::add_labelled(text, at, b"block ", block);
    let lengths = text::add_labelled(text, blocks, b" len ", length);
    let segments = text::add_labelled(text, lengths, b" seg ", segment);
    text::add_labelled(text, segments, b" slot ", slot)
}

// The whole line, of an account.
fn block_line(text: &mut [u8], at: usize, block: u32, length: u32, segment: u32, slot: u32) -> usize
    requires { at + 80 ≤ most_text }
    ensures { Wrote (block_text block length segment slot ++ ascii "\n") text.old at text.new result × (result ≤ at + 80) }
{
    let end = block_text(text, at, block, length, segment, slot);
    text::add(text, end, b"\n")
}

// One for each live slot of a block, from the first page on. The image is named by the contract alone: what is written
// comes from the tables. It is never made part of its caller: there the two loops share their test, and passing over the blocks
// that are not stored takes twice the time.
#[inline(never)]
fn chain_lines(
    image: &[u8],
    geometry: Geometry,
    tables: &Tables,
    first: u16,
    block: u32,
    text: &mut [u8],
    at: usize,
) -> usize
    requires { Sized geometry.segments geometry.slots (length image.now) × (block < 65536) × Chain geometry.slots tables.now.nexts tables.now.lengths first (of_block block (list_of geometry.segments geometry.slots image.now)) × AllStand geometry.segments geometry.slots (of_block block (list_of geometry.segments geometry.slots image.now)) × (length (of_block block (list_of geometry.segments geometry.slots image.now)) < 65536) × (at + 80 * (length (of_block block (list_of geometry.segments geometry.slots image.now)) + 1) ≤ most_text) }
    ensures { Wrote (block_lines (of_block block (list_of geometry.segments geometry.slots image.now))) text.old at text.new result × (result ≤ at + 80 * length (of_block block (list_of geometry.segments geometry.slots image.now))) }
{
    let pages = geometry.slots as u32 + 1;
    let mut page = usize::from(first);
    let mut end = at;
    while page != 0 {
        let length = u32::from(tables.lengths[page]);
        let place = page as u32;
        let segment = place / pages;
        let slot = place % pages;
        end = block_line(text, end, block, length, segment, slot);
        page = usize::from(tables.nexts[page]);
    }
    end
}

// One for each live slot, by rising block number.
#[tactic(auto, unfolding(account_text::specs::Account::block_lines))]
pub fn block_lines(
    image: &[u8],
    geometry: Geometry,
    tables: &Tables,
    text: &mut [u8],
    at: usize,
) -> usize
    requires { Sized geometry.segments geometry.slots (length image.now) × Indexed geometry.segments geometry.slots image.now tables.now × (at ≤ 100000) }
    ensures { Wrote (block_lines (by_block (list_of geometry.segments geometry.slots image.now))) text.old at text.new result × (result ≤ at + 80 * 65536) }
{
    let mut end = at;
    for block in 0..65536 {
        let first = tables.firsts[block];
        if first != 0 {
            end = chain_lines(image, geometry, tables, first, block as u32, text, end);
        }
    }
    end
}
