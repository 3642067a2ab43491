// What holds of the peaks of a row: definitions and laws alone (specs/, proofs/).
#![tactic(auto)]
