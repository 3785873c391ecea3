// The text of a definition in its file.
use scanner::scanner::Scanner;
use scanner::token::Token;
use source::location::{Location, locate};
use source::texts;

// The text of one definition, or what stands in the place of one, and the file that it is a part of.
#[derive(Clone, Copy)]
pub(crate) struct Text<'a> {
    pub(crate) path: &'a str,
    pub(crate) file: &'a [u8],
    pub(crate) part: texts::Text<'a>,
}

impl Text<'_> {
    // The place in the file of a place in the text.
    pub(crate) fn place(self, place: usize) -> usize {
        self.part.place.saturating_add(place)
    }

    pub(crate) fn locate(self, place: usize) -> Location {
        locate(self.file, self.place(place))
    }

    // Where the first token stands; None if there is none.
    pub(crate) fn first_place(self) -> Option<usize> {
        match Scanner::new(self.part.bytes).token()? {
            Token::Open(place) | Token::Close(place) => Some(place),
            Token::Name(word) | Token::Number(word, _) => Some(word.place),
        }
    }
}
