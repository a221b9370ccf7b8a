// The memory of a call at rest: as a call finds it, and the saved state that a call leaves.
#![tactic(auto)]

pub mod awaken;
pub mod tidy;
