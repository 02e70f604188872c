// What C is told of a judgement, as a type, no code: specs/Call says what the call answers and leaves, proofs/ what
// follows from that. (The call: crate judge_c.)
#![tactic(auto)]

// The answer of the call, and the numbers that it writes.
#[derive(Clone, Copy)]
pub struct Reply {
    pub code: u32,
    pub numbers: [u64; 4],
}
