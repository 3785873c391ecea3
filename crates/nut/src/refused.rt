// A text that is no definition.
use crate::excerpt::Excerpt;
use crate::hint::hint;
use crate::text::Text;
use reader::fault::FormFault;
use scanner::fault::{Refusal, ScanFault};
use source::location::Location;
use std::fmt;

#[derive(Clone, Copy)]
pub(crate) struct Refused<'a> {
    pub(crate) text: Text<'a>,
    pub(crate) fault: FormFault,
}

impl Refused<'_> {
    // A text without a token, as behind the last definition, is no definition; a byte in it that stands in no text is
    // told all the same.
    pub(crate) fn is_blank(self) -> bool {
        !matches!(self.fault, FormFault::Scan(ScanFault::ForeignByte(_)))
            && self.text.first_place().is_none()
    }

    // Whether the text ends before its form is closed: the fault has the place alone.
    fn is_unclosed(self) -> bool {
        matches!(self.fault, FormFault::NotOneForm(place) if place >= self.text.part.bytes.len())
    }

    // Why.
    fn write_why<W: fmt::Write>(self, f: &mut fmt::Formatter<W>) -> fmt::Result {
        if self.is_unclosed() {
            return f.write_str("the text ends here, before its form is closed");
        }
        let fault = self.fault;
        write!(f, "{fault}")
    }

    // What helps to mend it, if there is something to say.
    fn write_help<W: fmt::Write>(self, f: &mut fmt::Formatter<W>) -> fmt::Result {
        let first = self.text.first_place().unwrap_or(0);
        if self.is_unclosed() {
            let line = self.text.locate(first).line;
            return write!(f, "\n    the form begins on line {line}");
        }
        match self.fault {
            FormFault::NoShape(place) if place < self.text.part.bytes.len() => {
                let words = hint(&self.text.part.bytes[place..], place == first);
                write!(f, "\n    {words}")
            }
            _ => Ok(()),
        }
    }
}

// What is wrong and where, with the line and a caret.
impl fmt::Display for Refused<'_> {
    fn fmt<W: fmt::Write>(&self, f: &mut fmt::Formatter<W>) -> fmt::Result {
        let Refused { text, fault } = *self;
        let refusal = fault.refusal();
        let location = text.locate(refusal.place);
        let path = text.path;
        let Location { line, column, .. } = location;
        let Refusal { number, pass, .. } = refusal;
        let excerpt = Excerpt {
            file: text.file,
            location,
            place: text.place(refusal.place),
        };
        write!(
            f,
            "{path}:{line}:{column}: refused with {number} (pass {pass}): "
        )?;
        self.write_why(f)?;
        write!(f, "\n{excerpt}")?;
        self.write_help(f)
    }
}
