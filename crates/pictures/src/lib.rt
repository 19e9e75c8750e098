// The picture of an image, for who would rather look than read, in a lent buffer. It has no `requires`, and is put together
// twice, as an account is.
#![tactic(auto)]

ghost use Rattle.std.specs.Prelude.{◌≡◌, map as each, length, take};
ghost use Rattle.model.specs.State.{segments_of, next_number};
ghost use Rattle.flash.specs.Pages.{Sized};
ghost use Rattle.text.specs.Buffer.{printed, print_in, Wrote};
ghost use Rattle.account_text.specs.Account.{shown};
ghost use Rattle.account_text.specs.Map.{map_on, map_text};
ghost use Rattle.index.specs.Shows.{uncounted};

use index::Shown;
use model::{Geometry, MOST_SEGMENTS};
use text::Printed;

// The whole text, from the buffer's front on.
fn draw(
    image: &[u8],
    geometry: Geometry,
    table: [Shown; MOST_SEGMENTS],
    next: usize,
    text: &mut [u8],
) -> usize
    requires { Sized geometry.segments geometry.slots (length image.now) × (take geometry.segments table ≡ each uncounted (shown geometry.segments geometry.slots (segments_of geometry.segments geometry.slots image.now))) × (next ≡ next_number (shown geometry.segments geometry.slots (segments_of geometry.segments geometry.slots image.now))) }
    ensures { Wrote (map_on geometry.segments geometry.slots (segments_of geometry.segments geometry.slots image.now)) text.old 0 text.new result }
{
    let rows = mapping::map_rows(image, geometry, table, next, text, 0);
    mapping::add_legend(text, rows)
}

// One row for each segment by index, with its state and number, and one character for each slot of those in use; the
// active segment is marked, and a legend is at the end.
pub fn map(image: &[u8], segments: usize, slots: usize, text: &mut [u8]) -> Printed
    ensures { printed result text.new ≡ print_in (map_text segments slots image.now) text.old }
{
    let geometry = Geometry { segments, slots };
    if !request::right_size(image.len(), segments, slots) {
        return printing::wrong_size(text);
    }
    let survey = scan::survey(image, geometry);
    let table = listing::see(image, geometry, survey);
    let next = listing::next_number(table, segments);
    let mut none = [0u8; 1];
    let length = draw(image, geometry, table, next, &mut none);
    if length > text.len() {
        return text::short();
    }
    text::done(draw(image, geometry, table, next, text))
}
