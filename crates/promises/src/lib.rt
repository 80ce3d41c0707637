#![tactic(auto)]
// What holds of search and judge together stands in proofs/.
