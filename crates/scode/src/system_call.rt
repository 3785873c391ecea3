// What sys asks of the host, and its numbers.
ghost use Rattle.std.specs.Prelude.{◌≡◌, pos};
ghost use Rattle.scode.specs.SystemCall.{NamesSystemCall, system_number};

use crate::unknown::UnknownNumber;

#[derive(Clone, Copy)]
pub enum SystemCall {
    Number = 1,
    Byte = 2,
    Fact = 3,
}

impl TryFrom<i32> for SystemCall {
    type Error = UnknownNumber;

    ghost try_from_gives = { NamesSystemCall };

    fn try_from(number: i32) -> Result<Self, UnknownNumber> {
        match number {
            1 => Ok(SystemCall::Number),
            2 => Ok(SystemCall::Byte),
            3 => Ok(SystemCall::Fact),
            _ => Err(UnknownNumber(number)),
        }
    }
}

impl From<SystemCall> for i32 {
    ghost from_gives = { λ call number. number ≡ pos (system_number call) };

    fn from(call: SystemCall) -> i32 {
        // the discriminant, which only `as` gives
        call as i32
    }
}
