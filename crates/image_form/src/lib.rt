// No code: specs/Layout says which bytes a state is, and which state bytes hold, proofs/ that the two are each
// other's. (Reading and writing them: crate image_layout.)
#![tactic(auto)]
