// The words of a script's line.
#![tactic(auto)]

ghost use Rattle.std.specs.Prelude.{◌≡◌};
ghost use Rattle.qbx_script_words.specs.Script.{word_at};

// The word behind so many spaces; empty if there are not so many.
pub fn word(line: &[u8], k: usize) -> &[u8]
    ensures { result.now ≡ word_at k line.now }
{
    let mut at = 0;
    for _i in 0..k {
        let end = byte_search::find(line, at, line.len(), b' ');
        if end == line.len() {
            return &line[end..end];
        }
        at = end + 1;
    }
    let end = byte_search::find(line, at, line.len(), b' ');
    &line[at..end]
}
