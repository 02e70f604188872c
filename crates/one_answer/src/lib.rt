// No code: proofs/Law says what "no second answer" is, of any function's contract, and has the laws by which each
// crate shows it of its own functions.
#![tactic(auto)]
