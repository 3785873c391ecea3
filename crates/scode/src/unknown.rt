// A number that stands for nothing.
ghost use Rattle.std.specs.Prelude.{Some};
ghost use Rattle.scode.specs.Unknown.{unknown_number_text};

use std::error::Error;
use std::fmt;

// No opcode, or no system call, has this number.
#[derive(Clone, Copy, Debug, PartialEq, Eq)]
pub struct UnknownNumber(pub i32);

impl fmt::Display for UnknownNumber {
    ghost output = { λ e. Some (unknown_number_text e) };

    fn fmt<W: fmt::Write>(&self, f: &mut fmt::Formatter<W>) -> fmt::Result {
        write!(f, "the number {} stands for nothing", self.0)
    }
}

impl Error for UnknownNumber {}
