// The lines of salvage's report: the candidates given, one for each block number that has any.
#![tactic(auto)]

ghost use Rattle.std.specs.Prelude.{◌≡◌, cond, true, ◌+◌, ◌*◌, ◌≤◌};
ghost use mathlib.Core.List.{◌++◌, flat_map};
ghost use Rattle.model.specs.Chip.{right_size};
ghost use Rattle.model.specs.State.{segments_of};
ghost use Rattle.text.specs.Text.{text as ascii};
ghost use Rattle.text.specs.Buffer.{Wrote, most_text};
ghost use Rattle.account_text.specs.Account.{block_text, by_block};
ghost use Rattle.salvage.specs.Salvage.{candidates, given, given_line};
ghost use Rattle.candidates.specs.Gathered.{Gathered};

use meeting::Sheet;
use model::Geometry;

// One line: the candidate given of a block, and whether another disagrees.
fn given_line(
    text: &mut [u8],
    at: usize,
    block: u32,
    length: u32,
    segment: u32,
    slot: u32,
    differs: bool,
) -> usize
    requires { at + 80 ≤ most_text }
    ensures { Wrote (block_text block length segment slot ++ cond differs (ascii " differs\n") (ascii " same\n")) text.old at text.new result × (result ≤ at + 80) }
{
    let end = block_lines::block_text(text, at, block, length, segment, slot);
    if differs {
        return text::add(text, end, b" differs\n");
    }
    text::add(text, end, b" same\n")
}

// One for each block number that has a candidate, by rising number. The image is named by the contract alone: what is
// written comes from the tables.
// Kept: the number jumps over the entries that are empty, and a `for` over all of them is slower (docs/PROVING.md, "Speed").
pub fn given_lines(
    image: &[u8],
    geometry: Geometry,
    sheet: &Sheet,
    text: &mut [u8],
    at: usize,
) -> usize
    requires { (right_size geometry.segments geometry.slots image.now ≡ true) × Gathered geometry.segments geometry.slots image.now sheet.now × (at ≤ 100000) }
    ensures { Wrote (flat_map (given_line (candidates geometry.segments (segments_of geometry.segments geometry.slots image.now))) (by_block (given (candidates geometry.segments (segments_of geometry.segments geometry.slots image.now))))) text.old at text.new result × (result ≤ at + 80 * 65536) }
{
    let pages = geometry.slots as u32 + 1;
    let mut end = at;
    let mut block: usize = 0;
    while block < 65536 {
        let place = sheet.places[block];
        if place == 0 {
            block = skipping::pass_empty(&sheet.places, block + 1);
            continue;
        }
        let page = place / 256;
        end = given_line(
            text,
            end,
            block as u32,
            u32::from(sheet.lengths[block]),
            page / pages,
            page % pages,
            sheet.differs[block],
        );
        block += 1;
    }
    end
}
