// The account of an image (request #101), and its picture, handed on from `pictures`, each in a lent buffer. Neither has a
// `requires`: any bytes, any N and B. A text is put together twice, once where nothing holds it, so that its length is known
// before its first byte is written.
#![tactic(auto)]

ghost use Rattle.std.specs.Prelude.{◌≡◌, true, map, ◌+◌, ◌≤◌, length, take};
ghost use Rattle.model.specs.Chip.{right_size};
ghost use Rattle.model.specs.State.{segments_of};
ghost use Rattle.flash.specs.Pages.{Sized};
ghost use Rattle.scan.specs.Surveys.{survey_of};
ghost use Rattle.text.specs.Buffer.{printed, print_in, Wrote, most_text};
ghost use Rattle.account_text.specs.Account.{shown, account_on, account_text};
ghost use Rattle.index.specs.Shows.{shown_of};
ghost use Rattle.index.specs.Tables.{Indexed};
ghost use Rattle.prognosis.specs.Foretold.{prognosis_of};
ghost use Rattle.accounts.specs.Foretells.{foretold};

use index::{Shown, Tables};
use model::{Geometry, MOST_SEGMENTS};
pub use pictures::map;
use prognosis::FailedCondition;
use scan::Surveyed;
use text::Printed;

#[tactic(auto, unfolding(crate::specs::Foretells::foretold))]
fn last_line(text: &mut [u8], at: usize, prognosis: Result<u32, FailedCondition>) -> usize
    requires { at + 80 ≤ most_text }
    ensures { Wrote (foretold prognosis) text.old at text.new result × (result ≤ at + 80) }
{
    match prognosis {
        Ok(steps) => printing::recover_line(text, at, steps),
        Err(FailedCondition(place)) => printing::fails_line(text, at, place),
    }
}

// The whole text, from the buffer's front on.
fn compose(
    image: &[u8],
    geometry: Geometry,
    table: [Shown; MOST_SEGMENTS],
    tables: &Tables,
    prognosis: Result<u32, FailedCondition>,
    text: &mut [u8],
) -> usize
    requires { Sized geometry.segments geometry.slots (length image.now) × (take geometry.segments table ≡ map shown_of (shown geometry.segments geometry.slots (segments_of geometry.segments geometry.slots image.now))) × Indexed geometry.segments geometry.slots image.now tables.now × (prognosis ≡ prognosis_of geometry.segments geometry.slots (segments_of geometry.segments geometry.slots image.now)) }
    ensures { Wrote (account_on geometry.segments geometry.slots (segments_of geometry.segments geometry.slots image.now)) text.old 0 text.new result × (result ≤ most_text) }
{
    let listed = printing::segment_lines(text, 0, table, geometry.segments);
    let blocks = block_lines::block_lines(image, geometry, tables, text, listed);
    last_line(text, blocks, prognosis)
}

// The survey of an image, in a frame of its own: the set of block numbers that it takes is gone before the tables are there.
#[inline(never)]
fn survey(image: &[u8], geometry: Geometry) -> Surveyed
    requires { right_size geometry.segments geometry.slots image.now ≡ true }
    ensures { result ≡ survey_of geometry.segments geometry.slots (segments_of geometry.segments geometry.slots image.now) }
{
    scan::survey(image, geometry)
}

// The account of an image: one line for each segment by index and one for each live slot by rising block number, then what
// recovery would answer, or the first condition that fails.
pub fn account(image: &[u8], segments: usize, slots: usize, text: &mut [u8]) -> Printed
    ensures { (printed result text.new ≡ print_in (account_text segments slots image.now) text.old) × (result.length ≤ most_text) }
{
    let geometry = Geometry { segments, slots };
    if !request::right_size(image.len(), segments, slots) {
        return printing::wrong_size(text);
    }
    let survey = survey(image, geometry);
    let prognosis = prognosis::foretell(image, geometry, survey);
    let mut tables = Tables {
        firsts: [0; 65536],
        nexts: [0; 65536],
        lengths: [0; 65536],
    };
    let table = listing::list(image, geometry, survey, &mut tables);
    // shorter than any text, so that nothing of it matters
    let mut none = [0u8; 1];
    let length = compose(image, geometry, table, &tables, prognosis, &mut none);
    if length > text.len() {
        return text::short();
    }
    text::done(compose(image, geometry, table, &tables, prognosis, text))
}
