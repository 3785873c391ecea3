// The kind of a definition and what it names.
use reader::definition::Definition;
use std::{fmt, str};

#[derive(Clone, Copy)]
pub(crate) struct Title<'a>(pub(crate) Definition<'a>);

// Words are ASCII, so they are text, and never an error. The whole at once: a letter at a time, each takes a call of its own.
fn write_word<W: fmt::Write>(word: &[u8], f: &mut fmt::Formatter<W>) -> fmt::Result {
    f.write_char(' ')?;
    f.write_str(str::from_utf8(word).map_err(|_| fmt::Error)?)
}

impl fmt::Display for Title<'_> {
    fn fmt<W: fmt::Write>(&self, f: &mut fmt::Formatter<W>) -> fmt::Result {
        let keyword = self.0.keyword();
        write!(f, "{keyword}")?;
        match self.0 {
            Definition::Function(function) => write_word(function.name.bytes, f),
            Definition::Global(name) => write_word(name.bytes, f),
            Definition::Enumeration(enumeration) => {
                for name in enumeration.names {
                    write_word(name.bytes, f)?;
                }
                Ok(())
            }
        }
    }
}
