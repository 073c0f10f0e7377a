// What is proved of every run of the machine with reused numbers: how its tags are chosen, and demand 3.
//
// This library has no function: what it gives to other crates are the definitions in specs/ and the
// theorems on them in proofs/.
#![tactic(auto)]
