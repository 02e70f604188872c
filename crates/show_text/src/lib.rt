// Where the program show stands, as types, no code: specs/Block says what it prints of a state, specs/Show what it
// prints of its input, whole and in pieces; proofs/ that its rows are walk's.
#![tactic(auto)]

use kernel_state::State;
use queue_chip::Queue;
use text::Held;

// Where a show stands: the state, the chip's queue beside it, what is held of a line that has begun, and how many lines
// there were.
#[derive(Clone, Copy)]
pub struct Showing {
    pub state: State,
    pub queue: Queue,
    pub held: Held,
    pub n: u64,
}

// The show behind a piece, and how many bytes were printed.
#[derive(Clone, Copy)]
pub struct Fed {
    pub showing: Showing,
    pub at: usize,
}
