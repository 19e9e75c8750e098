// A file of shares, read: its text has the first block, the last block and the quota of a tenant to a line.
#![tactic(auto)]

mod lines;

ghost use Rattle.std.specs.Prelude.{◌≡◌, [], ◌∷◌, ◌+◌, ◌≤◌, length, drop, get_or};
ghost use Rattle.qbx_share_file.specs.ShareFile.{is_blank, words_of, share_line, share_quiet, said_in};
ghost use Rattle.qbx_share_file.specs.AnyFile.{listing, over};
ghost use Rattle.qbx_share_file.specs.Steps.{reach};

pub use lines::{Lines, OddLine, WrongLine, read_lines};
use qbx_numbers::number32;

// Whether a byte is a space, a tab or a carriage return.
#[tactic(auto, unfolding(crate::specs::ShareFile::is_blank))]
fn is_blank(byte: u8) -> bool
    ensures { result ≡ is_blank byte }
{
    matches!(byte, b' ' | b'\t' | b'\r')
}

// Where the next blank is; at the line's end if there is none.
fn blank_from(line: &[u8], at: usize) -> usize
    requires { at ≤ length line.now }
    ensures { (result ≡ at + reach is_blank (drop at line.now)) × (result ≤ length line.now) }
{
    for i in at..line.len() {
        if is_blank(line[i]) {
            return i;
        }
    }
    line.len()
}

// The word behind so many others; empty if there are not so many.
pub fn word(line: &[u8], k: usize) -> &[u8]
    ensures { result.now ≡ get_or (words_of line.now) k [] }
{
    let mut at = 0;
    let mut left = k;
    while at < line.len() {
        let end = blank_from(line, at);
        if end == at {
            at += 1;
        } else {
            if left == 0 {
                return &line[at..end];
            }
            left -= 1;
            at = end;
        }
    }
    &line[at..at]
}

// The lines of a file of shares.
struct Shares;

impl Lines<3> for Shares {
    type Number = u32;

    ghost says = { share_line };

    // A line's share, if that is what it says.
    #[tactic(auto, unfolding(crate::specs::ShareFile::share_of))]
    fn read_line(line: &[u8]) -> Result<Option<[u32; 3]>, OddLine> {
        if word(line, 0).is_empty() {
            return Ok(None);
        }
        if !word(line, 3).is_empty() {
            return Err(OddLine);
        }
        let first = number32(word(line, 0)).ok_or(OddLine)?;
        let last = number32(word(line, 1)).ok_or(OddLine)?;
        let quota = number32(word(line, 2)).ok_or(OddLine)?;
        Ok(Some([first, last, quota]))
    }

    ghost quiet = { share_quiet };
}

// The shares that a file's text lists, in a lent slice; numbers that it does not hold are left out.
#[tactic(auto, unfolding(crate::specs::ShareFile::said_in))]
pub fn read_shares(text: &[u8], shares: &mut [u32]) -> Result<usize, WrongLine>
    ensures { (result ≡ listing (length shares.old) (said_in text.now)) × (shares.new ≡ over (said_in text.now).numbers shares.old) }
{
    read_lines::<3, Shares>(text, shares)
}
