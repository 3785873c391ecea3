// The host of a real push: a push record for its facts, the caller's buffer for its report.
#![tactic(auto)]

pub mod live;
pub mod record;
