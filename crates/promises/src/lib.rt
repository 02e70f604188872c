// No code: what three engineers were promised, as theorems over the functions that are shipped.
#![tactic(auto)]
