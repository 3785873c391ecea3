// Numbers with a rule of their own.
use crate::error::CaseError;
use hex::FromHex;
use std::fmt;
use std::str::FromStr;

// The most cells, words or bytes that a line may ask for.
const MOST_ROOM: usize = 1_000_000;

// A length that the bench is ready to set up.
#[derive(Clone, Copy)]
pub(crate) struct Room(pub(crate) usize);

impl FromStr for Room {
    type Err = CaseError;

    fn from_str(text: &str) -> Result<Room, CaseError> {
        match text.parse::<usize>()? {
            length @ 0..=MOST_ROOM => Ok(Room(length)),
            _ => Err(CaseError::Unreadable),
        }
    }
}

// A word of S-code, in exactly eight hexadecimal digits.
#[derive(Clone, Copy)]
pub(crate) struct HexWord(pub(crate) u32);

impl FromStr for HexWord {
    type Err = CaseError;

    fn from_str(digits: &str) -> Result<HexWord, CaseError> {
        let bytes = <[u8; 4] as FromHex>::from_hex(digits)?;
        Ok(HexWord(u32::from_be_bytes(bytes)))
    }
}

impl fmt::Display for HexWord {
    fn fmt<W: fmt::Write>(&self, f: &mut fmt::Formatter<W>) -> fmt::Result {
        write!(f, "{:08x}", self.0)
    }
}
