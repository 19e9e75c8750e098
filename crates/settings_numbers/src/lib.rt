// A number that fits a byte, read from a word.
#![tactic(auto)]

ghost use Rattle.std.specs.Prelude.{◌≡◌};
ghost use Rattle.settings_numbers.specs.Byte.{byte_of};

use qbx_numbers::number;

// A number as `number` reads it, if it is 0 to 255.
#[tactic(auto, unfolding(crate::specs::Byte::byte_of, qbx_numbers::specs::Number::fits))]
pub fn byte(word: &[u8]) -> Option<u8>
    ensures { result ≡ byte_of word.now }
{
    u8::try_from(number(word)?).ok()
}
