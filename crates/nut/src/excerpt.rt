// The line of a place, with a caret under the place.
use crate::letter::letter;
use source::location::Location;
use std::{fmt, str};

// The most bytes shown before the place, and from it on.
const BEFORE: usize = 60;

const BEHIND: usize = 40;

// How many letters are written at once: one by one, each takes a call of its own.
const LETTERS_AT_ONCE: usize = 32;

// The line around the place, cut if it is long, and below it a caret under the place.
#[derive(Clone, Copy)]
pub(crate) struct Excerpt<'a> {
    pub(crate) file: &'a [u8],
    pub(crate) location: Location,
    pub(crate) place: usize,
}

// One ASCII letter a byte, so that the caret stands under its byte.
fn shown(byte: u8) -> u8 {
    match byte {
        b'\t' => b'\t',
        b'\r' => b' ',
        _ if letter(byte).is_some() => byte,
        _ => b'?',
    }
}

// Blanks as wide as the bytes; a tab stays a tab.
fn margin(byte: u8) -> u8 {
    if byte == b'\t' { b'\t' } else { b' ' }
}

// An ASCII letter for each byte.
fn write_letters<W: fmt::Write, L: Fn(u8) -> u8 + Drop>(
    f: &mut fmt::Formatter<W>,
    bytes: &[u8],
    letter: L,
) -> fmt::Result
    requires { L.IsAlwaysCallable letter }
{
    for part in bytes.chunks(LETTERS_AT_ONCE) {
        let mut letters = [b' '; LETTERS_AT_ONCE];
        for (out, byte) in letters.iter_mut().zip(part) {
            *out = letter(*byte);
        }
        // by `get`, since the proof does not see that a part is no longer than this
        let letters = letters.get(..part.len()).unwrap_or(&letters);
        f.write_str(str::from_utf8(letters).map_err(|_| fmt::Error)?)?;
    }
    Ok(())
}

impl fmt::Display for Excerpt<'_> {
    fn fmt<W: fmt::Write>(&self, f: &mut fmt::Formatter<W>) -> fmt::Result {
        let from = self.location.start.max(self.place.saturating_sub(BEFORE));
        let to = self.location.end.min(self.place.saturating_add(BEHIND));
        let before = self.file.get(from..self.place).unwrap_or(&[]);
        let behind = self.file.get(self.place..to).unwrap_or(&[]);
        f.write_str("    ")?;
        write_letters(f, before, shown)?;
        write_letters(f, behind, shown)?;
        f.write_str("\n    ")?;
        write_letters(f, before, margin)?;
        f.write_char('^')
    }
}
