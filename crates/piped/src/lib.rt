// What hubaudit writes for hubtally to read: a refusal is never taken for records.
// There is no code here: see specs/ and proofs/.
#![tactic(auto)]
