// The shapes of expressions, in one table.
ghost use Rattle.std.specs.Prelude.{◌≡◌};
ghost use Rattle.reader.specs.Shapes.{counts, shape, takes, takes_lead};

use crate::keyword::Keyword;

// What has to stand first behind the head.
#[derive(Clone, Copy)]
pub enum Lead {
    Expression,
    Variable,
    SystemCall,
}

#[derive(Clone, Copy)]
pub enum Operands {
    Exactly(usize),
    AnyNumber,
}

#[derive(Clone, Copy)]
pub struct Shape {
    pub lead: Lead,
    pub operands: Operands,
}

// What stands first behind the head.
#[derive(Clone, Copy)]
pub enum Leading {
    Nothing,
    Name,
    Number(i32),
    Form,
}

// The shape of a form with this head; None if it has none. A head that is no keyword is the name of a call.
pub fn shape_of(head: Option<Keyword>) -> Option<Shape>
    ensures { result ≡ shape head }
{
    // pairs, and one early return: a `Some` of a whole shape in each row would hide the table
    let (lead, operands) = match head {
        Some(Keyword::If) => (Lead::Expression, Operands::Exactly(3)),
        Some(Keyword::While) => (Lead::Expression, Operands::Exactly(2)),
        Some(Keyword::Do) => (Lead::Expression, Operands::AnyNumber),
        Some(Keyword::Set | Keyword::Vec) => (Lead::Variable, Operands::Exactly(2)),
        Some(Keyword::Setv) => (Lead::Variable, Operands::Exactly(3)),
        Some(Keyword::New) => (Lead::Expression, Operands::Exactly(1)),
        Some(Keyword::Sys) => (Lead::SystemCall, Operands::Exactly(2)),
        Some(Keyword::Add | Keyword::Sub | Keyword::Eq | Keyword::Lt | Keyword::Gt) => {
            (Lead::Expression, Operands::Exactly(2))
        }
        Some(Keyword::Def | Keyword::Let | Keyword::Enum) => return None,
        None => (Lead::Expression, Operands::AnyNumber),
    };
    Some(Shape { lead, operands })
}

impl Lead {
    fn takes(self, leading: Leading) -> bool
        ensures { result ≡ takes_lead self leading }
    {
        match self {
            Lead::Expression => true,
            Lead::Variable => matches!(leading, Leading::Name),
            Lead::SystemCall => matches!(leading, Leading::Number(1..=3)),
        }
    }
}

impl Operands {
    fn takes(self, count: usize) -> bool
        ensures { result ≡ counts self count }
    {
        match self {
            Operands::Exactly(n) => count == n,
            Operands::AnyNumber => true,
        }
    }
}

impl Shape {
    // Whether so many elements, with this one first, fit.
    pub fn takes(self, leading: Leading, count: usize) -> bool
        ensures { result ≡ takes self leading count }
    {
        self.operands.takes(count) && self.lead.takes(leading)
    }
}
