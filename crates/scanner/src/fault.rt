// Why a text has no tokens, and what a refusal tells.
ghost use Rattle.std.specs.Prelude.{◌≡◌, Some};
ghost use Rattle.scanner.specs.Faults.{scan_refusal, scan_words};

use std::error::Error;
use std::fmt;

pub const MOST_TEXT: usize = 8192;

pub const MOST_WORD: usize = 16;

// A refusal as the rules list it for the caller, by numbers; the kinds are the enum of faults. The place is a byte
// offset into the text.
#[derive(Clone, Copy, Debug, PartialEq, Eq)]
pub struct Refusal {
    pub number: u8,
    pub place: usize,
    pub pass: u8,
}

#[derive(Clone, Copy, Debug, PartialEq, Eq)]
pub enum ScanFault {
    // the text has over 8,192 bytes
    TextTooLong,
    // the byte at this place stands in no text
    ForeignByte(usize),
    // the word at this place has over 16 bytes
    WordTooLong(usize),
    // the number at this place is not from -8,388,608 to 8,388,607
    OutOfRange(usize),
}

impl ScanFault {
    // The rules list these numbers for the caller; the kinds are the enum.
    pub fn refusal(self) -> Refusal
        ensures { result ≡ scan_refusal self }
    {
        let (number, place, pass) = match self {
            ScanFault::TextTooLong => (1, 0, 1),
            ScanFault::ForeignByte(place) => (2, place, 2),
            ScanFault::WordTooLong(place) => (3, place, 2),
            ScanFault::OutOfRange(place) => (4, place, 2),
        };
        Refusal {
            number,
            place,
            pass,
        }
    }
}

impl fmt::Display for ScanFault {
    ghost output = { λ f. Some (scan_words f) };

    fn fmt<W: fmt::Write>(&self, f: &mut fmt::Formatter<W>) -> fmt::Result {
        f.write_str(match self {
            ScanFault::TextTooLong => "the text of a definition has over 8,192 bytes",
            ScanFault::ForeignByte(_) => "this byte may not stand in a text, not even in a comment",
            ScanFault::WordTooLong(_) => "this word has over 16 bytes",
            ScanFault::OutOfRange(_) => "this number is not from -8,388,608 to 8,388,607",
        })
    }
}

impl Error for ScanFault {}
