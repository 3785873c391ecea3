// Words and instructions, one from the other.
ghost use Rattle.std.specs.Prelude.{◌≡◌, IfSome, Some};
ghost use Rattle.scode.specs.Instructions.{bare, count_argument, count_in, decoded, encoded, fields_of, fun_in, head_argument, is_head, known_as, place_argument, place_in, unknown_fields};

use crate::instruction::Instruction;
use crate::opcode::Opcode;
use crate::system_call::SystemCall;
use crate::words::{Fields, MOST_ARGUMENT, join, split};

// A function's formals are the first of its variables. The reader has these limits too, and neither crate stands on the other.
const MOST_FORMALS: u8 = 15;

const MOST_VARIABLES: u8 = 64;

fn bare(argument: i32, instruction: Instruction) -> Option<Instruction>
    ensures { result ≡ bare argument instruction }
{
    (argument == 0).then_some(instruction)
}

// How many variables: a distance is at least 1, and a return may drop none.
fn count_in(least: u8, argument: i32) -> Option<u8>
    ensures { result ≡ count_in least argument }
{
    let count = u8::try_from(argument).ok()?;
    (least..=MOST_VARIABLES).contains(&count).then_some(count)
}

fn place_in(argument: i32) -> Option<u32>
    ensures { result ≡ place_in argument }
{
    u32::try_from(argument).ok()
}

// Two numbers, as the public variant of the instruction has them.
fn is_head(formals: u8, variables: u8) -> bool
    ensures { result ≡ is_head formals variables }
{
    formals <= MOST_FORMALS && variables <= MOST_VARIABLES && formals <= variables
}

// 256 times the formals, plus the variables.
fn fun_in(argument: i32) -> Option<Instruction>
    ensures { result ≡ fun_in argument }
{
    let packed = place_in(argument)?;
    let formals = u8::try_from(packed / 256).ok()?;
    // `as` loses nothing of a remainder
    let variables = (packed % 256) as u8;
    is_head(formals, variables).then_some(Instruction::Fun { formals, variables })
}

// The instruction that the fields say, if a run could perform it.
fn known(fields: Fields) -> Option<Instruction>
    ensures { result ≡ known_as fields }
{
    let argument = fields.argument;
    match Opcode::try_from(fields.opcode).ok()? {
        Opcode::New => bare(argument, Instruction::New),
        Opcode::Add => bare(argument, Instruction::Add),
        Opcode::Sub => bare(argument, Instruction::Sub),
        Opcode::Eq => bare(argument, Instruction::Eq),
        Opcode::Lt => bare(argument, Instruction::Lt),
        Opcode::Gt => bare(argument, Instruction::Gt),
        Opcode::Call => place_in(argument).map(Instruction::Call),
        Opcode::Get => count_in(1, argument).map(Instruction::Get),
        Opcode::Put => count_in(1, argument).map(Instruction::Put),
        Opcode::Lit => Some(Instruction::Lit(argument)),
        Opcode::Ldx => count_in(1, argument).map(Instruction::Ldx),
        Opcode::Stx => count_in(1, argument).map(Instruction::Stx),
        Opcode::Fun => fun_in(argument),
        Opcode::Sys => SystemCall::try_from(argument).ok().map(Instruction::Sys),
        Opcode::Ld => place_in(argument).map(Instruction::Ld),
        Opcode::St => place_in(argument).map(Instruction::St),
        Opcode::Ldy => place_in(argument).map(Instruction::Ldy),
        Opcode::Sty => place_in(argument).map(Instruction::Sty),
        Opcode::Jmp => Some(Instruction::Jmp(argument)),
        Opcode::Jf => Some(Instruction::Jf(argument)),
        Opcode::Pop => bare(argument, Instruction::Pop),
        Opcode::Ret => count_in(0, argument).map(Instruction::Ret),
    }
}

// Not `From` and `TryFrom`: two facts with names of their own read better than the one member of a trait.
#[tactic(auto, using(crate::proofs::Codes::encoded_decoded))]
pub fn decode(word: u32) -> Instruction
    ensures answer { result ≡ decoded word }
    ensures again { encoded result ≡ Some word }
{
    known(split(word)).unwrap_or(Instruction::Bad(word))
}

fn count_argument(least: u8, count: u8) -> Option<i32>
    ensures { result ≡ count_argument least count }
{
    (least..=MOST_VARIABLES)
        .contains(&count)
        .then_some(i32::from(count))
}

fn place_argument(at: u32) -> Option<i32>
    ensures { result ≡ place_argument at }
{
    i32::try_from(at).ok().filter(|at| *at <= MOST_ARGUMENT)
}

fn head_argument(formals: u8, variables: u8) -> Option<i32>
    ensures { result ≡ head_argument formals variables }
{
    is_head(formals, variables).then_some(256 * i32::from(formals) + i32::from(variables))
}

// A word that says another instruction is not bad.
fn unknown_fields(word: u32) -> Option<Fields>
    ensures { result ≡ unknown_fields word }
{
    let fields = split(word);
    known(fields).is_none().then_some(fields)
}

fn fields_of(instruction: Instruction) -> Option<Fields>
    ensures { result ≡ fields_of instruction }
{
    let (opcode, argument) = match instruction {
        Instruction::New => (Opcode::New, 0),
        Instruction::Add => (Opcode::Add, 0),
        Instruction::Sub => (Opcode::Sub, 0),
        Instruction::Eq => (Opcode::Eq, 0),
        Instruction::Lt => (Opcode::Lt, 0),
        Instruction::Gt => (Opcode::Gt, 0),
        Instruction::Call(at) => (Opcode::Call, place_argument(at)?),
        Instruction::Get(k) => (Opcode::Get, count_argument(1, k)?),
        Instruction::Put(k) => (Opcode::Put, count_argument(1, k)?),
        Instruction::Lit(value) => (Opcode::Lit, value),
        Instruction::Ldx(k) => (Opcode::Ldx, count_argument(1, k)?),
        Instruction::Stx(k) => (Opcode::Stx, count_argument(1, k)?),
        Instruction::Fun { formals, variables } => (
            Opcode::Fun,
            head_argument(formals, variables)?,
        ),
        Instruction::Sys(call) => (Opcode::Sys, i32::from(call)),
        Instruction::Ld(at) => (Opcode::Ld, place_argument(at)?),
        Instruction::St(at) => (Opcode::St, place_argument(at)?),
        Instruction::Ldy(at) => (Opcode::Ldy, place_argument(at)?),
        Instruction::Sty(at) => (Opcode::Sty, place_argument(at)?),
        Instruction::Jmp(by) => (Opcode::Jmp, by),
        Instruction::Jf(by) => (Opcode::Jf, by),
        Instruction::Pop => (Opcode::Pop, 0),
        Instruction::Ret(dropped) => (Opcode::Ret, count_argument(0, dropped)?),
        Instruction::Bad(word) => return unknown_fields(word),
    };
    Some(Fields {
        opcode: u8::from(opcode),
        argument,
    })
}

pub fn encode(instruction: Instruction) -> Option<u32>
    ensures answer { result ≡ encoded instruction }
    ensures again { IfSome result (λ w. decoded w ≡ instruction) }
{
    join(fields_of(instruction)?)
}
