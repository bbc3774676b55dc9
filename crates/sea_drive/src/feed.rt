// What the line `feed` asks for.
ghost use Rattle.std.specs.Prelude.{◌≡◌};
ghost use Rattle.std.specs.Char.{is_ascii_digit};
ghost use Rattle.std.specs.List.{list_all};
ghost use Rattle.sea_drive.specs.Feeds.{feed_words as feed_words_of, number_of as number_in, is_number as is_number_of};

use crate::texts::split_word;

/// The most digits of a number of the line.
const MOST_DIGITS: usize = 18;

/// The most entries of a feed.
const MOST_ENTRIES: u64 = 1_000;

/// The version and the count that a text asks for, or None where it has no such form.
pub fn feed_words(text: &str) -> Option<(u64, u32)>
    ensures { result ≡ feed_words_of text.now }
{
    let (from, most) = split_word(text);
    let Some(from) = number_of(from) else {
        return None;
    };
    let Some(most) = number_of(most) else {
        return None;
    };
    if most < 1 || MOST_ENTRIES < most {
        return None;
    }
    Some((from, most as u32))
}

// The number that a word is.
fn number_of(word: &str) -> Option<u64>
    ensures { result ≡ number_in word.now }
{
    if !is_number(word.as_bytes()) {
        return None;
    }
    match word.parse::<u64>() {
        Ok(number) => Some(number),
        Err(_) => None,
    }
}

// A number of at most 18 digits, without a zero in front of others.
fn is_number(word: &[u8]) -> bool
    ensures { result ≡ is_number_of word.now }
{
    if word.is_empty() || word.len() > MOST_DIGITS {
        return false;
    }
    if word[0] == b'0' && word.len() > 1 {
        return false;
    }
    are_digits(word)
}

fn are_digits(word: &[u8]) -> bool
    ensures { result ≡ list_all is_ascii_digit word.now }
{
    word.iter().all(|byte| byte.is_ascii_digit())
}
