// Where a walk stands, as types, no code: specs/Walk says what the program walk prints, of all its input and of its
// input in pieces; proofs/ that these are the same.
#![tactic(auto)]

use kernel::Kernel;
use text::Held;

// Where a walk stands: the state, what is held of a line that has begun, and how many lines there were.
#[derive(Clone, Copy)]
pub struct Walk {
    pub kernel: Kernel,
    pub held: Held,
    pub n: u64,
}

// The walk behind a piece, and how many bytes were printed.
#[derive(Clone, Copy)]
pub struct Fed {
    pub walk: Walk,
    pub at: usize,
}
