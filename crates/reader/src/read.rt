// The reader: a text to its definition, or the refusal.
ghost use Rattle.std.specs.Prelude.{◌≡◌};
ghost use Rattle.reader.specs.Definitions.{shown};
ghost use Rattle.reader.specs.Spacing.{SpacingIsFree};
ghost use Rattle.reader.specs.Spelling.{NothingIsLost};
ghost use Rattle.reader.specs.Faults.{reading};

use crate::definition::Definition;
use crate::fault::FormFault;
use crate::form::Form;
use crate::nesting::nest;
use scanner::scan::scan;
use scanner::scanner::Scanner;
use scanner::token::Token;

// The refusal is the least of the faults.
#[tactic(auto, using(crate::proofs::Spaced::spacing_is_free, crate::proofs::Spelled::nothing_is_lost))]
pub fn read(text: &[u8]) -> Result<Definition<'_>, FormFault>
    ensures answer { shown result ≡ reading text.now }
    ensures spelling { NothingIsLost text.now }
    ensures spacing { SpacingIsFree text.now }
{
    scan(text)?;
    nest(text)?;
    let mut rest = Scanner::new(text);
    match rest.token() {
        Some(Token::Open(place)) => Form { place, rest }.definition(),
        _ => unreachable!(),
    }
}
