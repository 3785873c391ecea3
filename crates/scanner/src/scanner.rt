// The scanner: one token after another, or what is wrong in its place.
ghost use Rattle.std.specs.Prelude.{◌≡◌};
ghost use Rattle.std.specs.Iterator.{YieldsFirstBy, item_count};
ghost use Rattle.scanner.specs.Scans.{ahead, coming, items_of, left, lexeme, Next, seen};

use crate::class::{Class, class_of};
use crate::fault::ScanFault;
use crate::number::token_of;
use crate::token::{Token, Word};

// Where the scanner stands before a byte: matched together with the byte's class.
#[derive(Clone, Copy)]
enum State {
    Between,
    // since this place
    InWord(usize),
    InComment,
}

// It is its text, how far it has come and whether it stands in a comment there: no answer leaves it in a word. To look
// ahead, copy it.
#[derive(Clone, Copy)]
pub struct Scanner<'a> {
    text: &'a [u8],
    at: usize,
    in_comment: bool,
}

impl<'a> Scanner<'a> {
    pub fn new(text: &'a [u8]) -> Scanner<'a>
        ensures { left result ≡ items_of text.now }
    {
        Scanner {
            text,
            at: 0,
            in_comment: false,
        }
    }

    // The next token, past any fault.
    pub fn token(&mut self) -> Option<Token<'a>>
        ensures { Next (ahead self.old) result (ahead self.new) }
    {
        self.find_map(Result::ok)
    }

    // The tokens ahead.
    pub fn tokens(self) -> Tokens<'a>
        ensures { coming result ≡ ahead self.entry }
    {
        Tokens(self)
    }
}

// The tokens of a scanner, one after another, past any fault. A type with a name, since no function can return a chain without
// one.
#[derive(Clone, Copy)]
pub struct Tokens<'a>(Scanner<'a>);

impl<'a> Iterator for Tokens<'a> {
    type Item = Token<'a>;

    ghost next_gives = { YieldsFirstBy lexeme coming };

    ghost remaining = { item_count coming };

    fn next(&mut self) -> Option<Token<'a>> {
        self.0.token()
    }
}

impl<'a> Iterator for Scanner<'a> {
    type Item = Result<Token<'a>, ScanFault>;

    ghost next_gives = { YieldsFirstBy seen left };

    ghost remaining = { item_count left };

    fn next(&mut self) -> Option<Self::Item> {
        let mut state = if self.in_comment {
            State::InComment
        } else {
            State::Between
        };
        for &byte in self.text.get(self.at..)? {
            // an answer leaves it behind this byte, so `at` moves anyway: a zip with the places would count them twice
            let here = self.at;
            self.at += 1;
            self.in_comment = matches!(state, State::InComment);
            match (state, class_of(byte)) {
                (State::InWord(_), Class::Letter) => {}
                (State::InWord(place), _) => {
                    self.at = here;
                    let bytes = &self.text[place..here];
                    return Some(token_of(Word { bytes, place }));
                }
                (_, Class::Foreign) => return Some(Err(ScanFault::ForeignByte(here))),
                (State::InComment, Class::LineFeed) => state = State::Between,
                (State::InComment, _) => {}
                (State::Between, Class::Blank | Class::LineFeed) => {}
                (State::Between, Class::Semicolon) => state = State::InComment,
                (State::Between, Class::Letter) => state = State::InWord(here),
                (State::Between, Class::Open) => return Some(Ok(Token::Open(here))),
                (State::Between, Class::Close) => return Some(Ok(Token::Close(here))),
            }
        }
        match state {
            State::InWord(place) => {
                let bytes = &self.text[place..];
                Some(token_of(Word { bytes, place }))
            }
            _ => None,
        }
    }
}
