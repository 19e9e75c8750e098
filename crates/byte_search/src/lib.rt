// Where a byte stands in a part of some bytes.
#![tactic(auto)]

ghost use Rattle.std.specs.Prelude.{◌≡◌, ◌+◌, ◌≤◌, length};
ghost use Rattle.byte_search.specs.Bytes.{index_of, slice};

// Where the byte stands first from `start` on and before `end`; `end` if it stands nowhere there.
pub fn find(bytes: &[u8], start: usize, end: usize, byte: u8) -> usize
    requires order { start ≤ end }
    requires bound { end ≤ length bytes.now }
    ensures value { result ≡ start + index_of byte (slice start end bytes.now) }
    ensures within { result ≤ end }
{
    for i in start..end {
        if bytes[i] == byte {
            return i;
        }
    }
    end
}
