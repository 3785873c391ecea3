// A form, part by part: each kind of definition from behind the head on.
ghost use Rattle.std.specs.Prelude.{◌≡◌, ◌-◌, pos, ◌+ℤ◌, int_le};
ghost use Rattle.reader.specs.Forms.{forest_ahead, Readable};

use crate::definition::{Definition, Enumeration, Function, Names};
use crate::elements::elements;
use crate::fault::FormFault;
use crate::keyword::Keyword;
use crate::list::List;
use crate::nesting::DEEPEST;
use scanner::number::GREATEST;
use scanner::scanner::Scanner;
use scanner::token::{Token, Word};

const MOST_FORMALS: usize = 15;

const MOST_VARIABLES: usize = 64;

// Whether the last of so many numbers is one that a text may say.
fn counts_in_range(first: i32, count: usize) -> bool
    ensures { result ≡ int_le (first +ℤ pos (count - 1)) (pos 8388607) }
{
    // `as`, which loses nothing: no `From` goes from a usize to an i128
    i128::from(first) + count.saturating_sub(1) as i128 <= i128::from(GREATEST)
}

// What is still to come of the form whose opening parenthesis stands at the place.
#[derive(Clone, Copy)]
pub(crate) struct Form<'a> {
    pub(crate) place: usize,
    pub(crate) rest: Scanner<'a>,
    ghost readable: { Readable 31 (forest_ahead rest) },
}

impl<'a> Form<'a> {
    ghost use Rattle.reader.specs.Definitions.{defined, definition_faults, enumeration_defined, enumeration_faults, function_defined, function_faults, global_defined, global_faults};
    ghost use Rattle.reader.specs.Parts.{ReadsAs, TakesList, TakesName};

    // By a copy of the rest, here and in `list`: an error leaves the form as it was, which its ghost field asks.
    fn name(&mut self) -> Result<Word<'a>, FormFault>
        ensures { TakesName self.old result self.new }
    {
        let mut rest = self.rest;
        let Some(Token::Name(word)) = rest.token() else {
            return Err(FormFault::NoShape(self.place));
        };
        self.rest = rest;
        Ok(word)
    }

    fn list(&mut self) -> Result<List<'a>, FormFault>
        ensures { TakesList self.old result self.new }
    {
        let mut rest = self.rest;
        let Some(Token::Open(place)) = rest.token() else {
            return Err(FormFault::NoShape(self.place));
        };
        let names = Names { list: rest };
        let found = elements(&mut rest, DEEPEST - 2);
        self.rest = rest;
        Ok(List {
            place,
            names,
            found,
        })
    }

    // Behind `let`: a name.
    fn global(mut self) -> Result<Definition<'a>, FormFault>
        ensures { ReadsAs global_faults global_defined self.entry result }
    {
        let name = self.name()?;
        match self.rest.token() {
            None | Some(Token::Close(_)) => Ok(Definition::Global(name)),
            Some(_) => Err(FormFault::NoShape(self.place)),
        }
    }

    // Behind `enum`: a number, and names, at least one.
    fn enumeration(mut self) -> Result<Definition<'a>, FormFault>
        ensures { ReadsAs enumeration_faults enumeration_defined self.entry result }
    {
        let Some(Token::Number(word, first)) = self.rest.token() else {
            return Err(FormFault::NoShape(self.place));
        };
        let names = Names { list: self.rest };
        let found = elements(&mut self.rest, DEEPEST - 1);
        if !found.only_names || found.count == 0 {
            return Err(FormFault::NoShape(self.place));
        }
        if !counts_in_range(first, found.count) {
            return Err(FormFault::LastOutOfRange(word.place));
        }
        Ok(Definition::Enumeration(Enumeration { first, names }))
    }

    // Behind `def`: a name, the formals, the locals and the body. Faults of the whole come first.
    #[tactic(auto, using(crate::proofs::Misfits::first_misfit, crate::proofs::Misfits::no_misfit))]
    fn function(mut self) -> Result<Definition<'a>, FormFault>
        ensures { ReadsAs function_faults function_defined self.entry result }
    {
        let name = self.name()?;
        let formals = self.list()?;
        let locals = self.list()?;
        let body = self.rest;
        let found = elements(&mut self.rest, DEEPEST - 1);
        if found.count != 1 {
            return Err(FormFault::NoShape(self.place));
        }
        formals.admit(MOST_FORMALS)?;
        locals.admit(MOST_VARIABLES - formals.found.count)?;
        if let Some(place) = found.misfit {
            return Err(FormFault::NoShape(place));
        }
        Ok(Definition::Function(Function {
            name,
            formals: formals.names,
            locals: locals.names,
            body,
        }))
    }

    pub(crate) fn definition(mut self) -> Result<Definition<'a>, FormFault>
        ensures { ReadsAs definition_faults defined self.entry result }
    {
        let head = self.name()?;
        match Keyword::of(head.bytes) {
            Some(Keyword::Def) => self.function(),
            Some(Keyword::Let) => self.global(),
            Some(Keyword::Enum) => self.enumeration(),
            _ => Err(FormFault::NoShape(self.place)),
        }
    }
}
