// An answer, word by word.
ghost use Rattle.std.specs.Iterator.{IsFinite};

use std::alloc::{AllocError, Global};
use std::fmt::{Display, Write};

// A line of answer with blanks between its words.
#[derive(Drop)]
pub(crate) struct Line {
    pub(crate) text: String,
}

impl Line {
    pub(crate) fn new(heap: Global) -> Line {
        Line {
            text: String::new(heap),
        }
    }

    pub(crate) fn word(&mut self, word: impl Display + Drop) -> Result<(), AllocError> {
        if !self.text.is_empty() {
            self.text.push(' ')?;
        }
        write!(self.text, "{word}")
    }

    // `ok` or `no`: the line tells only whether a call did what it was asked.
    pub(crate) fn done<T: Drop, E: Drop>(
        &mut self,
        outcome: Result<T, E>,
    ) -> Result<(), AllocError> {
        self.word(if outcome.is_ok() { "ok" } else { "no" })
    }

    // A match: two closures could not both write to the line.
    pub(crate) fn found(&mut self, number: Option<i32>) -> Result<(), AllocError> {
        match number {
            Some(number) => self.word(number),
            None => self.word("none"),
        }
    }

    // A word for each item, `-` for none.
    pub(crate) fn list<I: Iterator + Drop>(&mut self, items: I) -> Result<(), AllocError>
    where
        I::Item: Display + Drop,
        requires can { I.can_next items }
        requires ends { IsFinite (I.remaining items) }
    {
        let mut items = items.peekable();
        if items.peek().is_none() {
            return self.word("-");
        }
        for item in items {
            self.word(item)?;
        }
        Ok(())
    }

    // `refused N`, the number that a call gave.
    pub(crate) fn refused(&mut self, number: u8) -> Result<(), AllocError> {
        self.word("refused")?;
        self.word(number)
    }
}
