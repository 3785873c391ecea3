// Definitions in a file, one after another.
ghost use Rattle.std.specs.Prelude.{◌≡◌, ◌+◌, ◌-◌, ◌<◌, ◌≤◌, false, length, drop, IfSome};
ghost use Rattle.std.specs.Iterator.{at_most};
ghost use Rattle.std.specs.Option.{option_map};
ghost use Rattle.scanner.specs.Scans.{lexemes_of};
ghost use Rattle.source.specs.Cuts.{cut, first_text};
ghost use Rattle.source.specs.Texts.{TakesText};

use scanner::scanner::Scanner;
use scanner::token::Token;

// Where the next token stands: matched together with it.
#[derive(Clone, Copy)]
enum Standing {
    // nothing came yet
    First,
    // behind words that belong to no form
    Stray,
    // so many parentheses are open
    Inside(usize),
}

// Where the text of the first definition ends: behind the parenthesis that closes it, or before a form that
// follows words that belong to none, or at the end of the file.
fn first_end(text: &[u8]) -> usize
    ensures answer { result ≡ cut 0 false (length text.now) (lexemes_of text.now) }
    ensures within { result ≤ length text.now }
{
    let mut standing = Standing::First;
    for token in Scanner::new(text).tokens() {
        standing = match (standing, token) {
            (Standing::First, Token::Open(_)) => Standing::Inside(1),
            (Standing::Stray, Token::Open(place)) => return place,
            (Standing::Inside(open), Token::Open(_)) => Standing::Inside(open + 1),
            (Standing::Inside(open), Token::Close(_)) if open > 1 => Standing::Inside(open - 1),
            (_, Token::Close(place)) => return place + 1,
            (Standing::Inside(open), Token::Name(_) | Token::Number(..)) => Standing::Inside(open),
            _ => Standing::Stray,
        };
    }
    text.len()
}

// The text of the definition that begins at this place of the file; None at its end.
pub fn text_at(file: &[u8], place: usize) -> Option<&[u8]>
    ensures answer { option_map (λ x. x.now) result ≡ first_text (drop place file.now) }
    ensures within { IfSome result (λ text. (0 < length text.now) × (place + length text.now ≤ length file.now)) }
{
    let rest = file.get(place..)?;
    // an empty rest has not even one byte
    rest.get(..first_end(rest).max(1))
}

// The text of a definition, and the place of the file at which it begins. Not the scanner's `Word`, whose place is one of
// the text.
#[derive(Clone, Copy)]
pub struct Text<'a> {
    pub bytes: &'a [u8],
    pub place: usize,
}

// The texts of a file from this place on.
#[derive(Clone, Copy)]
pub struct Texts<'a> {
    pub file: &'a [u8],
    pub place: usize,
}

impl<'a> Texts<'a> {
    pub fn new(file: &'a [u8]) -> Texts<'a>
        ensures file { result.file.now ≡ file.now }
        ensures place { result.place ≡ 0 }
    {
        Texts { file, place: 0 }
    }
}

impl<'a> Iterator for Texts<'a> {
    type Item = Text<'a>;

    ghost next_gives = { TakesText };

    ghost remaining = { λ s. at_most (length s.file.now - s.place) };

    fn next(&mut self) -> Option<Text<'a>> {
        let place = self.place;
        let bytes = text_at(self.file, place)?;
        self.place += bytes.len();
        Some(Text { bytes, place })
    }
}
