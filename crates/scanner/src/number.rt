// Words that are numbers, and words that are names.
ghost use Rattle.std.specs.Prelude.{◌≡◌, ◌≤◌, length};
ghost use Rattle.scanner.specs.Words.{magnitude, plus, value, word_item};
ghost use Rattle.scanner.specs.Scans.{seen};

use crate::fault::{MOST_WORD, ScanFault};
use crate::token::{Token, Word};

const LEAST: i64 = -8_388_608;

pub const GREATEST: i64 = 8_388_607;

// What digits say, at least one; of other bytes none.
fn magnitude_of(bytes: &[u8]) -> Option<i64>
    requires { length bytes.now ≤ 16 }
    ensures { result ≡ plus (magnitude bytes.now) }
{
    // no digits are no number, though a sum over them would be 0
    if bytes.is_empty() {
        return None;
    }
    // a `for` with `?`: in the closure of a fold the bound of the sum would have to be shown again
    let mut n = 0;
    for &byte in bytes {
        n = n * 10 + i64::from(char::from(byte).to_digit(10)?);
    }
    Some(n)
}

// The value of a word that is a number: digits, or a minus sign and digits.
fn value_of(bytes: &[u8]) -> Option<i64>
    requires { length bytes.now ≤ 16 }
    ensures { result ≡ value bytes.now }
{
    match bytes {
        [b'-', digits @ ..] => magnitude_of(digits).map(|n| -n),
        _ => magnitude_of(bytes),
    }
}

#[tactic(auto, unfolding(crate::specs::Words::word_item))]
pub(crate) fn token_of<'a>(word: Word<'a>) -> Result<Token<'a>, ScanFault>
    ensures { seen result ≡ word_item word.entry.bytes.now word.entry.place }
{
    if word.bytes.len() > MOST_WORD {
        return Err(ScanFault::WordTooLong(word.place));
    }
    match value_of(word.bytes) {
        // a word that is no number is a name, and no error
        None => Ok(Token::Name(word)),
        // `as` loses nothing within these bounds
        Some(value @ LEAST..=GREATEST) => Ok(Token::Number(word, value as i32)),
        Some(_) => Err(ScanFault::OutOfRange(word.place)),
    }
}
