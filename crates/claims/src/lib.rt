// The claims at the table that runs.
// There is no code here: see specs/ and proofs/.
#![tactic(auto)]
