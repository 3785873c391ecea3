// The host that a rehearsal carries in itself.
#![tactic(auto)]

mod filled;
pub mod rehearsal;
