// No code: specs/Report says what the program judge prints of a tape, proofs/ that no report is longer than its room,
// and the page's examples. (The report: crate report.)
#![tactic(auto)]
