// Demand 2, "what we write, we read back equal": theorems over the definitions of the crates below, in proofs/. No code.
#![tactic(auto)]
