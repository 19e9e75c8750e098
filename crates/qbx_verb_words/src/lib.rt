// The word of a verb, read.
#![tactic(auto)]

ghost use Rattle.std.specs.Prelude.{◌≡◌};
ghost use Rattle.model.specs.Lists.{same};
ghost use Rattle.qbx_verb_words.specs.Verb.{verb_of};

use qbx_verbs::Verb;

// Whether a word is a certain one.
pub fn is(word: &[u8], name: &[u8]) -> bool
    ensures { result ≡ same word.now name.now }
{
    word == name
}

// The verb that a word is, if it is one.
pub fn verb_of(word: &[u8]) -> Option<Verb>
    ensures { result ≡ verb_of word.now }
{
    if is(word, b"format") {
        return Some(Verb::Format);
    }
    if is(word, b"put") {
        return Some(Verb::Put);
    }
    if is(word, b"get") {
        return Some(Verb::Get);
    }
    if is(word, b"delete") {
        return Some(Verb::Delete);
    }
    if is(word, b"recover") {
        return Some(Verb::Recover);
    }
    if is(word, b"check") {
        return Some(Verb::Check);
    }
    if is(word, b"account") {
        return Some(Verb::Account);
    }
    if is(word, b"map") {
        return Some(Verb::Map);
    }
    if is(word, b"salvage") {
        return Some(Verb::Salvage);
    }
    None
}
