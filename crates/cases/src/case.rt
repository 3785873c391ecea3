// A case: what a line asks, and what is answered.
use crate::error::CaseError;
use crate::line::Line;
use crate::request::Request;
use std::alloc::{AllocError, Global};

// How many bytes are turned to digits at once.
const PART_BYTES: usize = 1024;

#[derive(Drop)]
pub(crate) struct Case<'a> {
    pub(crate) heap: Global,
    pub(crate) request: Request<'a>,
    pub(crate) line: Line,
}

impl<'a> Case<'a> {
    pub(crate) fn new(heap: Global, asked: &'a str) -> Case<'a> {
        Case {
            heap,
            request: Request {
                words: asked.split(' '),
            },
            line: Line::new(heap),
        }
    }

    // The bytes of the line's last word.
    pub(crate) fn last_bytes(&mut self) -> Result<Vec<u8>, CaseError> {
        let word = self.request.last_word()?;
        self.bytes_of(word)
    }

    // Two hexadecimal digits a byte, `-` for none.
    pub(crate) fn bytes_of(&self, word: &str) -> Result<Vec<u8>, CaseError> {
        match word {
            "" => Err(CaseError::Unreadable),
            "-" => Ok(Vec::new(self.heap)),
            digits => Ok(hex::decode(self.heap, digits)?),
        }
    }

    // Part by part, so that no second text of the whole stands beside the line.
    pub(crate) fn tell_bytes(&mut self, bytes: &[u8]) -> Result<(), AllocError> {
        if bytes.is_empty() {
            return self.line.word("-");
        }
        // the blank before it
        self.line.word("")?;
        for part in bytes.chunks(PART_BYTES) {
            self.line
                .text
                .push_str(hex::encode(self.heap, part)?.as_str())?;
        }
        Ok(())
    }
}
