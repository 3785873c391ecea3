// What is told of the definitions of a file.
use crate::refused::Refused;
use crate::text::Text;
use crate::title::Title;
use reader::definition::Definition;
use reader::read::read;
use std::alloc::{AllocError, Global};
use std::fmt::Write;

#[derive(Drop)]
pub(crate) struct Report {
    lines: String,
    accepted: usize,
    refused: usize,
}

impl Report {
    pub(crate) fn new(heap: Global) -> Report {
        Report {
            lines: String::new(heap),
            accepted: 0,
            refused: 0,
        }
    }

    // Reads one text of the file.
    pub(crate) fn add(&mut self, text: Text<'_>) -> Result<(), AllocError> {
        match read(text.part.bytes) {
            Ok(definition) => self.add_accepted(text, definition),
            Err(fault) => self.add_refused(Refused { text, fault }),
        }
    }

    fn add_accepted(
        &mut self,
        text: Text<'_>,
        definition: Definition<'_>,
    ) -> Result<(), AllocError> {
        self.accepted = self.accepted.saturating_add(1);
        let path = text.path;
        let line = text.locate(text.first_place().unwrap_or(0)).line;
        let title = Title(definition);
        writeln!(self.lines, "{path}:{line}: ok {title}")
    }

    fn add_refused(&mut self, refused: Refused<'_>) -> Result<(), AllocError> {
        if refused.is_blank() {
            return Ok(());
        }
        self.refused = self.refused.saturating_add(1);
        writeln!(self.lines, "{refused}")
    }

    pub(crate) fn sum_up(&mut self, path: &str) -> Result<(), AllocError> {
        match (self.accepted, self.refused) {
            (0, 0) => writeln!(self.lines, "{path}: no definitions"),
            (accepted, refused) => {
                writeln!(self.lines, "{path}: {accepted} ok, {refused} refused")
            }
        }
    }

    pub(crate) fn text(&self) -> &str {
        self.lines.as_str()
    }

    pub(crate) fn has_refused(&self) -> bool {
        self.refused > 0
    }
}
