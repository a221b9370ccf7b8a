// Definitions and theorems only: a policy run over a trace, from the single calls' definitions, in specs/; that its calls are the single calls, in proofs/.
#![tactic(auto)]
