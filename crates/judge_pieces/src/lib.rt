// A tape that comes in pieces, no code but the type: specs/Onward says where a judge stands behind a record more,
// specs/Bytes where behind a byte and a piece more, proofs/ what follows from that. (The judge: crate judging.)
#![tactic(auto)]

use judge_verdict::Verdict;
use kernel::Kernel;

// The records judged so far: the machine behind them, and the place of the next one, which is 16 times its number.
#[derive(Clone, Copy)]
pub struct Run {
    pub kernel: Kernel,
    pub place: usize,
    pub seed: u64,
    pub verdict: Option<Verdict>,
}
