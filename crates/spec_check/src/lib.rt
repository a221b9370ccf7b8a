// Definitions and theorems only: the check's rules 1 to 10 in specs/, what they give in proofs/.
#![tactic(auto)]
