// Demand 3: any order of replies, time-ups and fetches of first frames gets what the crates get one by one. Theorems only: the claim is in
// specs/AnyOrder.antt.
#![tactic(auto)]
