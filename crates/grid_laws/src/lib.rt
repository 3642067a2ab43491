// What holds of the peaks of a grid: definitions and laws alone (specs/, proofs/).
#![tactic(auto)]
