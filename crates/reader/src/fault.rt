// Why a text is no definition.
ghost use Rattle.std.specs.Prelude.{◌≡◌, Some};
ghost use Rattle.reader.specs.Faults.{form_refusal, form_words};
ghost use Rattle.reader.specs.declared.fault.FormFault.TheVariants.{Scan};

use scanner::fault::{Refusal, ScanFault};
use std::error::Error;
use std::fmt;

#[derive(Clone, Copy, Debug, PartialEq, Eq)]
pub enum FormFault {
    // the scanner's fault, whole
    Scan(ScanFault),
    // what stands at this place belongs to no form, or the text ends there before its form is closed
    NotOneForm(usize),
    // the parenthesis at this place would be the 33rd open
    TooDeep(usize),
    // the form or list whose parenthesis stands at this place fits no shape
    NoShape(usize),
    // an enumeration that begins with the number at this place would count past 8,388,607
    LastOutOfRange(usize),
}

impl From<ScanFault> for FormFault {
    ghost from_gives = { λ f r. r ≡ Scan f };

    fn from(fault: ScanFault) -> FormFault {
        Self::Scan(fault)
    }
}

impl FormFault {
    // The rules list these numbers for the caller; the kinds are the enum.
    pub fn refusal(self) -> Refusal
        ensures { result ≡ form_refusal self }
    {
        let (number, place, pass) = match self {
            FormFault::Scan(fault) => return fault.refusal(),
            FormFault::NotOneForm(place) => (5, place, 3),
            FormFault::TooDeep(place) => (6, place, 3),
            FormFault::NoShape(place) => (7, place, 4),
            FormFault::LastOutOfRange(place) => (4, place, 4),
        };
        Refusal {
            number,
            place,
            pass,
        }
    }
}

// Of a text that ends before its form is closed only the caller can say so, who has the text.
impl fmt::Display for FormFault {
    ghost output = { λ f. Some (form_words f) };

    fn fmt<W: fmt::Write>(&self, f: &mut fmt::Formatter<W>) -> fmt::Result {
        match self {
            FormFault::Scan(fault) => fault.fmt(f),
            FormFault::NotOneForm(_) => f.write_str("this belongs to no form"),
            FormFault::TooDeep(_) => f.write_str("with this one over 32 parentheses are open"),
            FormFault::NoShape(_) => f.write_str("this form or list fits no shape"),
            FormFault::LastOutOfRange(_) => f.write_str(
                "the last name of this enumeration would stand for more than 8,388,607",
            ),
        }
    }
}

impl Error for FormFault {}
