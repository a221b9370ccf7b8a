// Definitions and theorems only: the file that the writer makes of two buffers of records in specs/, that it is read back and written again in proofs/.
#![tactic(auto)]
