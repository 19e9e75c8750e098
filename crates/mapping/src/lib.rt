// The rows of a picture of an image, added to a text: one for each segment by index.
#![tactic(auto)]

mod row;

ghost use Rattle.std.specs.Prelude.{◌≡◌, map, ◌+◌, ◌*◌, ◌≤◌, length, take};
ghost use Rattle.model.specs.State.{segments_of, next_number};
ghost use Rattle.flash.specs.Pages.{Sized};
ghost use Rattle.text.specs.Buffer.{Wrote};
ghost use Rattle.account_text.specs.Account.{shown};
ghost use Rattle.account_text.specs.Map.{all_rows, legend};
ghost use Rattle.index.specs.Shows.{uncounted};

use index::Shown;
use model::{Geometry, MOST_SEGMENTS};

// The table has the segments as they are shown; their counts are not looked at. `next` is the number after the top's.
pub fn map_rows(
    image: &[u8],
    geometry: Geometry,
    table: [Shown; MOST_SEGMENTS],
    next: usize,
    text: &mut [u8],
    at: usize,
) -> usize
    requires { Sized geometry.segments geometry.slots (length image.now) × (take geometry.segments table ≡ map uncounted (shown geometry.segments geometry.slots (segments_of geometry.segments geometry.slots image.now))) × (next ≡ next_number (shown geometry.segments geometry.slots (segments_of geometry.segments geometry.slots image.now))) × (at ≤ 100) }
    ensures { Wrote (all_rows geometry.segments geometry.slots (segments_of geometry.segments geometry.slots image.now)) text.old at text.new result × (result ≤ at + 6000 * geometry.segments) }
{
    let mut end = at;
    for i in 0..geometry.segments {
        end = row::map_row(image, geometry, i, next, table[i], text, end);
    }
    end
}

// What the characters mean.
pub fn add_legend(text: &mut [u8], at: usize) -> usize
    requires { at ≤ 2000000 }
    ensures { Wrote legend text.old at text.new result × (result ≤ at + 100) }
{
    text::add(
        text,
        at,
        b"# live  x dead  / cut  ~ torn  ! wrong  . empty  > active segment\n",
    )
}
