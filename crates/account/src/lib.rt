// Demand 3 in one piece, and the twelve cases of document 01. Theorems alone (specs/, proofs/).
#![tactic(auto)]
