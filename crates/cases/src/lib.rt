// The rules at 64-bit labels, over bare tables: the claims with nothing left to assume, and document 01's worked cases.
// There is no code here: see specs/ and proofs/.
#![tactic(auto)]
