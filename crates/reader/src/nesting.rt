// Whether the tokens of a text are one closed form.
ghost use Rattle.std.specs.Prelude.{◌≡◌, length};
ghost use Rattle.scanner.specs.Scans.{lexeme, lexemes_of};
ghost use Rattle.reader.specs.Nests.{first_of, nest_faults, turn, turn_faults};
ghost use Rattle.reader.specs.declared.nesting.Nesting.TheVariants.{Before};

use crate::fault::FormFault;
use scanner::scanner::Scanner;
use scanner::token::Token;

pub const DEEPEST: u32 = 32;

// Where a token stands: matched together with the token.
#[derive(Clone, Copy)]
pub(crate) enum Nesting {
    Before,
    // so many parentheses are open
    Inside(u32),
    After,
}

impl Nesting {
    // Where the next token stands.
    fn past(self, token: Token) -> Result<Nesting, FormFault>
        ensures { result ≡ first_of (turn_faults self (lexeme token.entry)) (turn self (lexeme token.entry)) }
    {
        match (self, token) {
            (Nesting::Before, Token::Open(_)) => Ok(Nesting::Inside(1)),
            (Nesting::Inside(open), Token::Open(place)) if open >= DEEPEST => {
                Err(FormFault::TooDeep(place))
            }
            (Nesting::Inside(open), Token::Open(_)) => Ok(Nesting::Inside(open + 1)),
            (Nesting::Inside(open), Token::Close(_)) if open <= 1 => Ok(Nesting::After),
            (Nesting::Inside(open), Token::Close(_)) => Ok(Nesting::Inside(open - 1)),
            (Nesting::Inside(_), Token::Name(_) | Token::Number(..)) => Ok(self),
            (Nesting::After, Token::Open(place)) | (_, Token::Close(place)) => {
                Err(FormFault::NotOneForm(place))
            }
            (_, Token::Name(word) | Token::Number(word, _)) => {
                Err(FormFault::NotOneForm(word.place))
            }
        }
    }
}

pub(crate) fn nest(text: &[u8]) -> Result<(), FormFault>
    ensures { result ≡ first_of (nest_faults Before (length text.now) (lexemes_of text.now)) tt }
{
    let mut nesting = Nesting::Before;
    for token in Scanner::new(text).tokens() {
        nesting = nesting.past(token)?;
    }
    match nesting {
        Nesting::After => Ok(()),
        _ => Err(FormFault::NotOneForm(text.len())),
    }
}
