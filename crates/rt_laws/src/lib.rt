// What holds of the listed apexes of a retention trace and of their records: definitions and laws alone (specs/, proofs/).
#![tactic(auto)]
