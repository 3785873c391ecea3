// What the text of a definition says. All of it borrows from the text.
ghost use Rattle.std.specs.Prelude.{◌≡◌};
ghost use Rattle.std.specs.Iterator.{item_count, YieldsFirstBy};
ghost use Rattle.reader.specs.Definitions.{keyword_of, names_of, word_of};

use crate::keyword::Keyword;
use scanner::scanner::Scanner;
use scanner::token::{Token, Word};

// The names of a list that are still to come.
#[derive(Clone, Copy)]
pub struct Names<'a> {
    pub(crate) list: Scanner<'a>,
}

#[derive(Clone, Copy)]
pub struct Function<'a> {
    pub name: Word<'a>,
    pub formals: Names<'a>,
    pub locals: Names<'a>,
    // it stands before the one expression that is the body
    pub body: Scanner<'a>,
}

// The names stand for the first number, the next, and so on.
#[derive(Clone, Copy)]
pub struct Enumeration<'a> {
    pub first: i32,
    pub names: Names<'a>,
}

#[derive(Clone, Copy)]
pub enum Definition<'a> {
    Function(Function<'a>),
    Global(Word<'a>),
    Enumeration(Enumeration<'a>),
}

impl<'a> Iterator for Names<'a> {
    type Item = Word<'a>;

    ghost next_gives = { YieldsFirstBy word_of names_of };

    ghost remaining = { item_count names_of };

    fn next(&mut self) -> Option<Word<'a>> {
        let mut ahead = self.list;
        let Some(Token::Name(word)) = ahead.token() else {
            return None;
        };
        self.list = ahead;
        Some(word)
    }
}

impl Definition<'_> {
    // The word with which its form begins.
    pub fn keyword(&self) -> Keyword
        ensures { result ≡ keyword_of self.now }
    {
        match self {
            Definition::Function(_) => Keyword::Def,
            Definition::Global(_) => Keyword::Let,
            Definition::Enumeration(_) => Keyword::Enum,
        }
    }
}
