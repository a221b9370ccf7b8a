// Definitions and theorems only: a policy as text, read and printed, in specs/; that what is printed is read back, in proofs/.
#![tactic(auto)]
