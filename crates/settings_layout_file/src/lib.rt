// A file of a layout table, read: its text has the identifier and the length of an item to a line. Lines and words are parted as
// those of a file of shares.
#![tactic(auto)]

ghost use Rattle.std.specs.Prelude.{◌≡◌, length};
ghost use Rattle.qbx_share_file.specs.AnyFile.{listing, over};
ghost use Rattle.settings_layout_file.specs.LayoutFile.{layout_line, quiet, layout_in};

use qbx_share_file::{Lines, OddLine, WrongLine, read_lines, word};
use settings_numbers::byte;

// The lines of a file of a layout table.
struct Layout;

impl Lines<2> for Layout {
    type Number = u8;

    ghost says = { layout_line };

    // A line's pair, if that is what it says.
    fn read_line(line: &[u8]) -> Result<Option<[u8; 2]>, OddLine> {
        if word(line, 0).is_empty() {
            return Ok(None);
        }
        if !word(line, 2).is_empty() {
            return Err(OddLine);
        }
        let identifier = byte(word(line, 0)).ok_or(OddLine)?;
        let length = byte(word(line, 1)).ok_or(OddLine)?;
        Ok(Some([identifier, length]))
    }

    ghost quiet = { quiet };
}

// The table that a file's text lists, in a lent slice; bytes that it does not hold are left out.
#[tactic(auto, unfolding(crate::specs::LayoutFile::layout_in))]
pub fn read_layout(text: &[u8], layout: &mut [u8]) -> Result<usize, WrongLine>
    ensures { (result ≡ listing (length layout.old) (layout_in text.now)) × (layout.new ≡ over (layout_in text.now).numbers layout.old) }
{
    read_lines::<2, Layout>(text, layout)
}
