// S-code: its words and its instructions.
#![tactic(auto)]

pub mod code;
pub mod instruction;
pub mod opcode;
pub mod system_call;
pub mod unknown;
pub mod words;
