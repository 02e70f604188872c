// No code: specs/Lines says what the program salvage prints, proofs/ how long its lines are at most, and the page's
// examples. (The lines printed: crate salvage_print.)
#![tactic(auto)]
