// The opcodes of S-code and their numbers.
ghost use Rattle.std.specs.Prelude.{◌≡◌};
ghost use Rattle.scode.specs.Opcode.{NamesOpcode, number_of};

use crate::unknown::UnknownNumber;

#[derive(Clone, Copy)]
pub enum Opcode {
    New = 5,
    Add = 6,
    Sub = 7,
    Eq = 10,
    Lt = 11,
    Gt = 12,
    Call = 13,
    Get = 14,
    Put = 15,
    Lit = 16,
    Ldx = 17,
    Stx = 18,
    Fun = 19,
    Sys = 20,
    Ld = 25,
    St = 26,
    Ldy = 27,
    Sty = 28,
    Jmp = 33,
    Jf = 34,
    Pop = 35,
    Ret = 36,
}

impl TryFrom<u8> for Opcode {
    type Error = UnknownNumber;

    ghost try_from_gives = { NamesOpcode };

    fn try_from(number: u8) -> Result<Self, UnknownNumber> {
        match number {
            5 => Ok(Opcode::New),
            6 => Ok(Opcode::Add),
            7 => Ok(Opcode::Sub),
            10 => Ok(Opcode::Eq),
            11 => Ok(Opcode::Lt),
            12 => Ok(Opcode::Gt),
            13 => Ok(Opcode::Call),
            14 => Ok(Opcode::Get),
            15 => Ok(Opcode::Put),
            16 => Ok(Opcode::Lit),
            17 => Ok(Opcode::Ldx),
            18 => Ok(Opcode::Stx),
            19 => Ok(Opcode::Fun),
            20 => Ok(Opcode::Sys),
            25 => Ok(Opcode::Ld),
            26 => Ok(Opcode::St),
            27 => Ok(Opcode::Ldy),
            28 => Ok(Opcode::Sty),
            33 => Ok(Opcode::Jmp),
            34 => Ok(Opcode::Jf),
            35 => Ok(Opcode::Pop),
            36 => Ok(Opcode::Ret),
            _ => Err(UnknownNumber(i32::from(number))),
        }
    }
}

impl From<Opcode> for u8 {
    ghost from_gives = { λ opcode number. number ≡ number_of opcode };

    fn from(opcode: Opcode) -> u8 {
        // the discriminant, which only `as` gives
        opcode as u8
    }
}
