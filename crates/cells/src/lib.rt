// A list of cells that do not see each other, served in any order; theorems only (proofs/Cells.antt).
#![tactic(auto)]
