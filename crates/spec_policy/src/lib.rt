// Definitions only, in specs/: the file, its records, and the policy that they hold.
#![tactic(auto)]
