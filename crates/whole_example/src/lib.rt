#![tactic(auto)]
// Document 01's whole example, computed from the definitions, stands in proofs/.
