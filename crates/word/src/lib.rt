// The atomic linked word, and when calls on such words can be put in one order.
//
// This library has no function: what it gives to other crates are the definitions in specs/ and the
// theorems on them in proofs/. No machine stands in it.
#![tactic(auto)]
