// Definitions and theorems only: statuses, the saved state, the turn rules and the entry points in specs/, what holds within a turn in proofs/.
#![tactic(auto)]
