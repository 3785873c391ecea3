// What a run stands on: the memory and the host by their meaning, the stops, and the data operations that both engines share.
#![tactic(auto)]

pub mod host;
pub mod in_use;
pub mod in_use_mut;
pub mod memory;
pub mod operator;
pub mod stop;
pub mod system;
