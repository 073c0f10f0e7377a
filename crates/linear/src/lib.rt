// Demand 3: the answered calls of a run can be put in one order that the atomic linked word plays with their answers.
//
// This library has no function: what it gives to other crates are the definitions in specs/ and the
// theorems on them in proofs/.
#![tactic(auto)]
