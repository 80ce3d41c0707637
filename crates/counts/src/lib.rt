#![tactic(auto)]
// Definitions and laws only: there is nothing to run.
