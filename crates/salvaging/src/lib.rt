// The report of salvage (request #113), in a lent buffer: the candidates given, of any image of a right size. Nothing is
// required of a caller, and the image is only read. The text is put together twice, once where nothing holds it, so that its
// length is known before its first byte is written.
#![tactic(auto)]

ghost use Rattle.std.specs.Prelude.{◌≡◌, true, ◌≤◌};
ghost use Rattle.model.specs.Chip.{right_size};
ghost use Rattle.text.specs.Buffer.{printed, Wrote, most_text};
ghost use Rattle.salvage.specs.Salvage.{salvage_text, salvage_outcome};
ghost use Rattle.candidates.specs.Gathered.{Gathered};

use meeting::Sheet;
use model::{Answer, Geometry};
use text::Printed;

// The whole text, from the buffer's front on.
fn compose(image: &[u8], segments: usize, slots: usize, sheet: &Sheet, text: &mut [u8]) -> usize
    requires { (right_size segments slots image.now ≡ true) × Gathered segments slots image.now sheet.now }
    ensures { Wrote (salvage_text segments slots image.now) text.old 0 text.new result × (result ≤ most_text) }
{
    let geometry = Geometry { segments, slots };
    let head = text::add(text, 0, b"salvage promises nothing\n");
    given_lines::given_lines(image, geometry, sheet, text, head)
}

// The report on an image, whatever its damage: for each block number the candidate in the highest segment number, within a
// segment the last, and whether another disagrees with it in contents. The tables are 384 KiB of stack.
pub fn salvage(image: &[u8], segments: usize, slots: usize, text: &mut [u8]) -> Printed
    ensures { (printed result text.new ≡ salvage_outcome segments slots image.now text.old) × (result.length ≤ most_text) }
{
    let geometry = Geometry { segments, slots };
    if !request::right_size(image.len(), segments, slots) {
        return Printed {
            answer: Answer::Size,
            length: 0,
        };
    }
    let mut sheet = Sheet {
        places: [0; 65536],
        lengths: [0; 65536],
        differs: [false; 65536],
    };
    candidates::gather(image, geometry, &mut sheet);
    // shorter than any text, so that nothing of it matters
    let mut none = [0u8; 1];
    let length = compose(image, segments, slots, &sheet, &mut none);
    if length > text.len() {
        return text::short();
    }
    text::done(compose(image, segments, slots, &sheet, text))
}
