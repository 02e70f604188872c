// No code: specs/ holds the draws of document 01 as definitions over its machine, proofs/ what follows from them.
#![tactic(auto)]
