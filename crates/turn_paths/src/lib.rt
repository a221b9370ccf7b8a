// Where a node's phase runs in the root's: definitions and theorems, no code.
#![tactic(auto)]
