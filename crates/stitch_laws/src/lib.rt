// What holds of a list that was stitched, over its words: definitions and laws alone (specs/, proofs/).
#![tactic(auto)]
