// No code: specs/ holds the machine with its pending exceptions, as definitions over document 01's machine, proofs/ what
// follows from them. (The code: crate kernel_state.)
#![tactic(auto)]
