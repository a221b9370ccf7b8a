// Theorems only: the passes of the check find what the paper says of a leaf, and a file that passes holds a lawful tree. What is said of rule 7
// stands in specs/, the proofs in proofs/.
#![tactic(auto)]
