// Theorems only: what holds of a whole call. The state that it leaves fits again; where it makes no change, every byte stays; and it
// does no more than so many steps and events. What is said stands in specs/, the proofs in proofs/.
#![tactic(auto)]
