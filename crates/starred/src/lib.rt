#![tactic(auto)]
// Document 01's starred examples are a table in specs/ and a proof in proofs/: there is nothing to run.
