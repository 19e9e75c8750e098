// Numbers in decimal, read from a word.
#![tactic(auto)]

ghost use Rattle.std.specs.Prelude.{◌≡◌};
ghost use Rattle.qbx_numbers.specs.Number.{digit_of, number_of, number16_of, number32_of};

// A tenth of the bound on numbers that are read.
const TENTH: u64 = 1000000000000000000;

// The digit that a byte is.
#[tactic(auto, unfolding(crate::specs::Number::digit_of, crate::specs::Number::is_digit))]
fn digit(byte: u8) -> Option<u64>
    ensures { result ≡ digit_of byte }
{
    match byte {
        b'0'..=b'9' => Some(u64::from(byte - b'0')),
        _ => None,
    }
}

// One digit or more and nothing else is a number, if it is below ten times TENTH.
pub fn number(word: &[u8]) -> Option<u64>
    ensures { result ≡ number_of word.now }
{
    if word.is_empty() {
        return None;
    }
    let mut value: u64 = 0;
    for &b in word {
        let d = digit(b)?;
        if value >= TENTH {
            return None;
        }
        value = 10 * value + d;
    }
    Some(value)
}

// A number as `number` reads it, if it fits 16 bits.
#[tactic(auto, unfolding(crate::specs::Number::number16_of, crate::specs::Number::fits))]
pub fn number16(word: &[u8]) -> Option<u16>
    ensures { result ≡ number16_of word.now }
{
    u16::try_from(number(word)?).ok()
}

// A number as `number` reads it, if it fits 32 bits.
#[tactic(auto, unfolding(crate::specs::Number::number32_of, crate::specs::Number::fits))]
pub fn number32(word: &[u8]) -> Option<u32>
    ensures { result ≡ number32_of word.now }
{
    u32::try_from(number(word)?).ok()
}
