// The instructions of S-code and their names.
ghost use Rattle.std.specs.Prelude.{◌≡◌};
ghost use Rattle.scode.specs.Instructions.{name_of};

pub use crate::system_call::SystemCall;

// Nothing compares instructions, and a proof that a derived `==` means `≡` met the check's limit.
#[derive(Clone, Copy)]
pub enum Instruction {
    New,
    Add,
    Sub,
    Eq,
    Lt,
    Gt,
    // the address of a word
    Call(u32),
    // the distance of a variable, 1 to 64
    Get(u8),
    Put(u8),
    Lit(i32),
    Ldx(u8),
    Stx(u8),
    // at most 15 formals among at most 64 variables
    Fun { formals: u8, variables: u8 },
    Sys(SystemCall),
    // an address of memory
    Ld(u32),
    St(u32),
    Ldy(u32),
    Sty(u32),
    // how far to go from the word itself
    Jmp(i32),
    Jf(i32),
    Pop,
    // how many variables go, 0 to 64
    Ret(u8),
    // a word that no run could perform, kept whole
    Bad(u32),
}

impl Instruction {
    // Not `Display`: the name alone is a text, and what is printed of an instruction has its argument too.
    pub fn mnemonic(&self) -> &'static str
        ensures { result.now ≡ name_of self.now }
    {
        match self {
            Instruction::New => "new",
            Instruction::Add => "add",
            Instruction::Sub => "sub",
            Instruction::Eq => "eq",
            Instruction::Lt => "lt",
            Instruction::Gt => "gt",
            Instruction::Call(_) => "call",
            Instruction::Get(_) => "get",
            Instruction::Put(_) => "put",
            Instruction::Lit(_) => "lit",
            Instruction::Ldx(_) => "ldx",
            Instruction::Stx(_) => "stx",
            Instruction::Fun { .. } => "fun",
            Instruction::Sys(_) => "sys",
            Instruction::Ld(_) => "ld",
            Instruction::St(_) => "st",
            Instruction::Ldy(_) => "ldy",
            Instruction::Sty(_) => "sty",
            Instruction::Jmp(_) => "jmp",
            Instruction::Jf(_) => "jf",
            Instruction::Pop => "pop",
            Instruction::Ret(_) => "ret",
            Instruction::Bad(_) => "bad",
        }
    }
}
