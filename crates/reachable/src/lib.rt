// The states that a board reaches from power-up, what holds in each of them, and what holds through any calls. Theorems only.
#![tactic(auto)]
