// Flash steps under a budget. Each function that writes takes the budget and returns what is left of it.
#![tactic(auto)]

ghost use Rattle.std.specs.Prelude.{◌≡◌, [], ◌∷◌, ◌+◌, ◌*◌, ◌<◌, ◌≤◌, length};
ghost use Rattle.model.specs.Chip.{program, erase};
ghost use Rattle.model.specs.Steps.{programs, program_part};
ghost use Rattle.flash.specs.Ran.{Ran, Programmed};
ghost use Rattle.flash.specs.Units.{RanIn};

// Programs one byte.
pub fn program_byte(image: &mut [u8], at: usize, value: u8, budget: u64) -> u64
    requires { at < length image.old }
    ensures { Programmed (program at value ∷ []) budget result image.old image.new }
{
    if budget == 0 {
        return 0;
    }
    image[at] = image[at] & value;
    budget - 1
}

// Programs bytes one after the other. How far the budget goes is found out before, so that nothing in the loop keeps the
// compiler from clearing many bytes at a time.
pub fn program_run(image: &mut [u8], at: usize, bytes: &[u8], budget: u64) -> u64
    requires { at + length bytes.now ≤ length image.old }
    ensures { Programmed (programs at bytes.now) budget result image.old image.new }
{
    let covered = (budget as usize).min(bytes.len());
    let mut left = budget;
    for i in 0..covered {
        let o = at + i;
        image[o] = image[o] & bytes[i];
        left -= 1;
    }
    left
}

// Programs some bytes of a page that was made up, where they belong.
pub fn program_part(page: &mut [u8], made: &[u8], at: usize, count: usize, budget: u64) -> u64
    requires { (at + count ≤ length made.now) × (length made.now ≡ length page.old) }
    ensures { Programmed (program_part made.now at count) budget result page.old page.new }
{
    let end = at + count;
    program_run(page, at, &made[at..end], budget)
}

// Erases a unit of so many bytes, as one step.
pub fn erase_unit(image: &mut [u8], index: usize, bytes: usize, budget: u64) -> u64
    requires { index * bytes + bytes ≤ length image.old }
    ensures { RanIn (erase index ∷ []) bytes budget result image.old image.new }
{
    if budget == 0 {
        return 0;
    }
    let at = index * bytes;
    image[at..at + bytes].fill(255);
    budget - 1
}

// Erases the segment at an index, as one step.
pub fn erase_segment(image: &mut [u8], index: usize, slots: usize, budget: u64) -> u64
    requires { (index * (slots + 1) + (slots + 1)) * 256 ≤ length image.old }
    ensures { Ran (erase index ∷ []) slots budget result image.old image.new }
{
    erase_unit(image, index, (slots + 1) * 256, budget)
}
