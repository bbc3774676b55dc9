// What a line asks for.
ghost use Rattle.std.specs.Prelude.{◌≡◌, ◌==◌};
ghost use Rattle.std.specs.List.{list_any, before_first, after_first};
ghost use Rattle.std.specs.Str.{bytes_eq};
ghost use Rattle.sea_drive.specs.Asked.{asked_by as asked_of, is_silent as is_silent_of, later_words, verb_of as verb_in, with_rest as with_rest_of};

use crate::texts::split_word;

/// What a line asks for.
#[derive(Clone, Copy)]
pub enum Verb {
    /// Nothing: it is empty, or begins with `#`.
    Nothing,
    /// It is no UTF-8, or has no form.
    Unknown,
    /// A form that isn't built yet.
    Later,
    /// An operation, whose JSON follows.
    Edit,
    /// A select, whose text follows.
    Select,
    /// A feed, whose two numbers follow.
    Feed,
    /// That the base is found again from its files.
    Reopen,
}

/// The words of the lines that aren't built yet.
const LATER_WORDS: [&str; 15] = [
    "open",
    "read",
    "close",
    "state",
    "archive",
    "put",
    "settle",
    "move",
    "drop",
    "unarchive",
    "save",
    "write",
    "publish",
    "retire",
    "cut",
];

/// What a line without its carriage return asks for, and what stands behind its first word.
pub fn asked_by(text: &[u8]) -> (Verb, &str)
    ensures verb { result.0 ≡ (asked_of text.now).0 }
    ensures rest { result.1.now ≡ (asked_of text.now).1 }
{
    if is_silent(text) {
        return (Verb::Nothing, "");
    }
    let Ok(text) = str::from_utf8(text) else {
        return (Verb::Unknown, "");
    };
    let (word, rest) = split_word(text);
    (verb_of(word, text), rest)
}

// An empty line, or one that begins with `#`.
fn is_silent(text: &[u8]) -> bool
    ensures { result ≡ is_silent_of text.now }
{
    text.is_empty() || text[0] == b'#'
}

// What a line of this first word asks for.
fn verb_of(word: &str, text: &str) -> Verb
    ensures { result ≡ verb_in word.now text.now }
{
    if "op" == word {
        return with_rest(Verb::Edit, word, text);
    }
    if "sql" == word {
        return with_rest(Verb::Select, word, text);
    }
    if "feed" == word {
        return with_rest(Verb::Feed, word, text);
    }
    if "reopen" == text {
        return Verb::Reopen;
    }
    if is_later(word) {
        return Verb::Later;
    }
    Verb::Unknown
}

// What a word asks for that has something behind it, be it one space.
fn with_rest(verb: Verb, word: &str, text: &str) -> Verb
    ensures { result ≡ with_rest_of verb word.now text.now }
{
    if word == text {
        return Verb::Unknown;
    }
    verb
}

fn is_later(word: &str) -> bool
    ensures { result ≡ list_any (bytes_eq word.now) later_words }
{
    is_among(&LATER_WORDS, word)
}

fn is_among(words: &[&str], word: &str) -> bool
    ensures { result ≡ list_any (λ other. bytes_eq word.now other.now) words.now }
{
    words.iter().any(|other| word == *other)
}
