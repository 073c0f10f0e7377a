// No function: for every public function of the crates below, specs/ and proofs/ say that its promise leaves one answer.
#![tactic(auto)]
