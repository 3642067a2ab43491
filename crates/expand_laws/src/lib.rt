// What holds of the retention peaks of a mobility peak. Theorems alone (specs/, proofs/).
#![tactic(auto)]
