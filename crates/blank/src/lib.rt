// The blank test: whether bytes are as an erase has left them, eight at a time.
#![tactic(auto)]

ghost use Rattle.std.specs.Prelude.{◌≡◌, ◌*◌, ◌/◌, length};
ghost use Rattle.model.specs.Lists.{chunk};
ghost use Rattle.model.specs.Header.{is_blank};
ghost use Rattle.model.specs.Blank.{groups_of, blank_groups};
ghost use Rattle.blank.specs.Leading.{leading_blank};

// What it tells of some bytes: whether each is 255, and how many groups of eight were looked at.
#[derive(Clone, Copy)]
pub struct BlankTest {
    pub blank: bool,
    pub groups: usize,
}

// Whether each byte of a group is 255. Joined by `&`, the eight are loaded as one word.
fn group_blank(group: &[u8]) -> bool
    requires { length group.now ≡ 8 }
    ensures { result ≡ is_blank group.now }
{
    (group[0] & group[1] & group[2] & group[3] & group[4] & group[5] & group[6] & group[7]) == 255
}

// The same of bytes that make no whole group.
fn rest_blank(rest: &[u8]) -> bool
    ensures { result ≡ is_blank rest.now }
{
    let mut joined: u8 = 255;
    for &byte in rest {
        joined &= byte;
    }
    joined == 255
}

// How many of four groups come before the first that differs.
fn leading_four(four: &[u8]) -> usize
    requires { length four.now ≡ 32 }
    ensures { result ≡ leading_blank (chunk 4 8 four.now) }
{
    if !group_blank(&four[0..8]) {
        return 0;
    }
    if !group_blank(&four[8..16]) {
        return 1;
    }
    if !group_blank(&four[16..24]) {
        return 2;
    }
    if !group_blank(&four[24..32]) {
        return 3;
    }
    4
}

// The same of as many times four groups as there are. With four to a turn the loop itself costs little.
fn leading_fours(bytes: &[u8]) -> usize
    ensures { result ≡ leading_blank (chunk (4 * (length bytes.now / 32)) 8 bytes.now) }
{
    let fours = bytes.len() / 32;
    for i in 0..fours {
        let at = i * 32;
        let end = at + 32;
        let k = leading_four(&bytes[at..end]);
        if k < 4 {
            return 4 * i + k;
        }
    }
    4 * fours
}

// The same of all whole groups.
fn leading(bytes: &[u8]) -> usize
    ensures { result ≡ leading_blank (chunk (length bytes.now / 8) 8 bytes.now) }
{
    let whole = bytes.len() / 8;
    let before = leading_fours(bytes);
    if before < 4 * (bytes.len() / 32) {
        return before;
    }
    for groups in before..whole {
        let at = groups * 8;
        let end = at + 8;
        if !group_blank(&bytes[at..end]) {
            return groups;
        }
    }
    whole
}

// The same with a shorter last group. (`leading` is called in two places and so stays a call; the rest is small enough to
// become part of whatever asks for the test.)
fn blank_before(bytes: &[u8]) -> usize
    ensures { result ≡ leading_blank (groups_of bytes.now) }
{
    if bytes.len() % 8 == 0 {
        return leading(bytes);
    }
    if bytes.len() < 8 {
        if rest_blank(bytes) {
            return 1;
        }
        return 0;
    }
    let groups = leading(bytes);
    if groups < bytes.len() / 8 {
        return groups;
    }
    // The last eight bytes end with the shorter group, and those of them before it are 255.
    let last = bytes.len() - 8;
    if group_blank(&bytes[last..]) {
        return groups + 1;
    }
    groups
}

// Looks at one group after the other, up to the first that differs.
pub fn blank_test(bytes: &[u8]) -> BlankTest
    ensures { (result.blank ≡ is_blank bytes.now) × (result.groups ≡ blank_groups bytes.now) }
{
    let all = (bytes.len() + 7) / 8;
    let before = blank_before(bytes);
    BlankTest {
        blank: before == all,
        groups: (before + 1).min(all),
    }
}
