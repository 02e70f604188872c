// What is got from a torn tape, as types, no code: specs/Torn says what is kept and what is dropped, specs/Pieces the
// same of a tape that comes in pieces, proofs/ what follows from that.
#![tactic(auto)]

// A dropped stretch: its first byte on the old tape, and how many bytes it has.
#[derive(Clone, Copy)]
pub struct Stretch {
    pub first: u64,
    pub size: u64,
}

// A whole tape's salvage: how many records are kept, how many stretches dropped, and whether a header was kept.
#[derive(Clone, Copy)]
pub struct Salvaged {
    pub records: usize,
    pub stretches: usize,
    pub headed: bool,
}

// A salvage between two pieces of its tape: the place of the first byte that is not decided, where the open dropped
// stretch begins (`place` where none is open), and whether a header was kept.
#[derive(Clone, Copy)]
pub struct Torn {
    pub place: u64,
    pub from: u64,
    pub headed: bool,
}

// What a piece came to: the salvage behind it, how many bytes are decided, how many of them are kept, and how many
// numbers are listed, two for each stretch that ended.
#[derive(Clone, Copy)]
pub struct Fed {
    pub torn: Torn,
    pub done: usize,
    pub kept: usize,
    pub cells: usize,
}
