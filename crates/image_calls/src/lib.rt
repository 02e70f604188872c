// No code: specs/Calls says what each call from C answers and leaves, proofs/ what follows from that. (The calls:
// crate image.)
#![tactic(auto)]
