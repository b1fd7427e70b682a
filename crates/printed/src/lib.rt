// Document 01's watering round as it is printed there, from its text to its output.
// There is no code here: see specs/ and proofs/.
#![tactic(auto)]
