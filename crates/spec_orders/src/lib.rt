// Theorems only: the third demand, stated in specs/ and proved in proofs/.
#![tactic(auto)]
