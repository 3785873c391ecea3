// The words of a line, read one after another.
ghost use Rattle.std.specs.Prelude.{◌≤◌};
ghost use Rattle.std.specs.Str.Iter.{split_parts_left};

use crate::error::CaseError;
use std::str::{FromStr, Split};

#[derive(Drop)]
pub(crate) struct Request<'a> {
    // those that are still to be read
    pub(crate) words: Split<'a, char>,
}

impl<'a> Request<'a> {
    pub(crate) fn word(&mut self) -> Result<&'a str, CaseError>
        ensures { split_parts_left self.new.words ≤ split_parts_left self.old.words }
    {
        self.words.next().ok_or(CaseError::Unreadable)
    }

    // The next word, behind which no other may stand: a line with a word left behind is not worked through first.
    pub(crate) fn last_word(&mut self) -> Result<&'a str, CaseError> {
        let word = self.word()?;
        // a word left behind is the error, not its absence, so no `ok_or`
        match self.words.next() {
            Some(_) => Err(CaseError::Unreadable),
            None => Ok(word),
        }
    }

    pub(crate) fn parse<T: FromStr>(&mut self) -> Result<T, CaseError>
    where
        T::Err: Drop,
        ensures { split_parts_left self.new.words ≤ split_parts_left self.old.words }
    {
        self.word()?.parse::<T>().map_err(|_| CaseError::Unreadable)
    }
}
