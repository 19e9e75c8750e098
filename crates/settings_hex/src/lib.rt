// Bytes in hex, added to a text in a lent buffer.
#![tactic(auto)]

ghost use Rattle.std.specs.Prelude.{◌≡◌, ◌+◌, ◌*◌, ◌<◌, ◌≤◌, length};
ghost use Rattle.text.specs.Buffer.{Wrote, most_text};
ghost use Rattle.settings_hex.specs.Hex.{hex_digit, hex};

// The digit that a number below 16 has.
fn digit(n: u8) -> u8
    requires { n < 16 }
    ensures { result ≡ hex_digit n }
{
    if n < 10 {
        return 48 + n;
    }
    87 + n
}

// Two digits for each byte.
pub fn add_hex(text: &mut [u8], at: usize, bytes: &[u8]) -> usize
    requires { at + 2 * length bytes.now ≤ most_text }
    ensures { Wrote (hex bytes.now) text.old at text.new result × (result ≡ at + 2 * length bytes.now) }
{
    let mut end = at;
    for &b in bytes {
        end = text::add(text, end, &[digit(b / 16), digit(b % 16)]);
    }
    end
}
