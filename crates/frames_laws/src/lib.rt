// What holds of an index that is built frame by frame: definitions and laws alone (specs/, proofs/).
#![tactic(auto)]
