// The expression reader and the element-list reader, which call each other.
ghost use Rattle.std.specs.Prelude.{◌≡◌, ◌+◌, ◌≤◌, true};
ghost use Rattle.scanner.specs.Scans.{lexeme};
ghost use Rattle.reader.specs.Forms.{begins, behind, both, count, fits, forest_ahead, leading, of_one, out, pile_ahead, pile_from, Readable, survey, survey_first};

use crate::keyword::Keyword;
use crate::shape::{Leading, shape_of};
use scanner::scanner::Scanner;
use scanner::token::Token;

// What was found of elements: how many, whether all are names, and the place of the first form without a shape. A bool for
// the second, since it guards no value: the count holds either way.
#[derive(Clone, Copy)]
pub(crate) struct Survey {
    pub(crate) count: usize,
    pub(crate) only_names: bool,
    pub(crate) misfit: Option<usize>,
}

impl Survey {
    const NOTHING: Survey = Survey {
        count: 0,
        only_names: true,
        misfit: None,
    };

    // Of one element.
    fn of_one(is_name: bool, misfit: Option<usize>) -> Survey
        ensures { result ≡ of_one is_name misfit }
    {
        Survey {
            count: 1,
            only_names: is_name,
            misfit,
        }
    }

    // This, and then `next`.
    fn and(self, next: Survey) -> Survey
        requires { self.count + next.count ≤ 8192 }
        ensures { result ≡ both self next }
    {
        Survey {
            count: self.count + next.count,
            only_names: self.only_names && next.only_names,
            misfit: self.misfit.or(next.misfit),
        }
    }
}

// What stands next in a list: a look ahead that takes nothing, and so no `From` of a token.
fn leading_of(scanner: &Scanner) -> Leading
    ensures { result ≡ leading (forest_ahead scanner.now) }
{
    let mut scanner = *scanner;
    match scanner.token() {
        None | Some(Token::Close(_)) => Leading::Nothing,
        Some(Token::Name(_)) => Leading::Name,
        Some(Token::Number(_, n)) => Leading::Number(n),
        Some(Token::Open(_)) => Leading::Form,
    }
}

// Whether the elements of a form, of which there are so many, make an expression.
fn has_shape(elements: &Scanner, number: usize) -> bool
    requires { number ≡ count (forest_ahead elements.now) }
    ensures { result ≡ fits (forest_ahead elements.now) }
{
    let mut scanner = *elements;
    // a question, so without a name at the head the answer is no, and no error
    let Some(Token::Name(head)) = scanner.token() else {
        return false;
    };
    // Not by `is_some_and`: with the look at what stands next inside of it the proof stays open (tried), and before it that is
    // scanned in vain where the head has no shape.
    let Some(shape) = shape_of(Keyword::of(head.bytes)) else {
        return false;
    };
    shape.takes(leading_of(&scanner), number - 1)
}

// Reads the elements of a list up to its closing parenthesis, of which `room` may be opened.
#[cycle(elements_expression)]
pub(crate) fn elements(scanner: &mut Scanner, room: u32) -> Survey
    requires { Readable room (forest_ahead scanner.old) }
    ensures found { result ≡ survey (forest_ahead scanner.old) }
    ensures past { pile_ahead scanner.new ≡ out (pile_ahead scanner.old) }
{
    let mut found = Survey::NOTHING;
    // no `for`: what reads an element goes on with the same scanner
    while let Some(token) = scanner.token() {
        if matches!(token, Token::Close(_)) {
            break;
        }
        found = found.and(expression(scanner, token, room));
    }
    found
}

// Reads the expression that begins with `token`.
#[cycle(elements_expression)]
pub(crate) fn expression(scanner: &mut Scanner, token: Token, room: u32) -> Survey
    requires begins { begins (lexeme token) ≡ true }
    requires readable { Readable room (pile_from token scanner.old).here }
    ensures found { result ≡ survey_first (pile_from token.entry scanner.old).here }
    ensures past { pile_ahead scanner.new ≡ behind (pile_from token.entry scanner.old) }
{
    match token {
        Token::Name(_) => Survey::of_one(true, None),
        Token::Number(..) => Survey::of_one(false, None),
        Token::Close(_) => Survey::NOTHING,
        Token::Open(place) => {
            let start = *scanner;
            let inside = elements(scanner, room - 1);
            let fits = has_shape(&start, inside.count);
            Survey::of_one(false, if fits { inside.misfit } else { Some(place) })
        }
    }
}
