// Text stands in specs/, as definitions: command lines, the first line of draw, lines out of pieces, and what the
// programs print; in proofs/ stands what follows from them. Here are only the types that definitions and code share.
#![tactic(auto)]

// What a line says: code 0 and a command, or 14 and zeros.
#[derive(Clone, Copy)]
pub struct Spoken {
    pub code: u8,
    pub op: u8,
    pub a: u8,
    pub b: u8,
    pub value: u64,
}

// Code 0 and the seed, or 17 and 0.
#[derive(Clone, Copy)]
pub struct SeedText {
    pub code: u8,
    pub seed: u32,
}

// The first line of draw: code 0 and its numbers, or 14, 17 or 18 and zeros.
#[derive(Clone, Copy)]
pub struct FirstLine {
    pub code: u8,
    pub seed: u32,
    pub span: u32,
    pub weights: [u32; 8],
    pub count: u32,
}

// What follows the seed's word.
#[derive(Clone, Copy)]
pub struct Settings {
    pub valid: bool,
    pub span: u32,
    pub weights: [u32; 8],
    pub count: u32,
}

// The first bytes of a line: up to 128, or 129 of a line that is longer.
#[derive(Clone, Copy)]
pub struct Held {
    pub bytes: [u8; 129],
    pub count: usize,
}

// A whole line is held, or all that there was and more is needed; and the place behind it.
#[derive(Clone, Copy)]
pub struct Cut {
    pub whole: bool,
    pub held: Held,
    pub next: usize,
}

// What a reader of commands gets: a whole line's command, and nothing held; or more is needed.
#[derive(Clone, Copy)]
pub struct NextCommand {
    pub whole: bool,
    pub spoken: Spoken,
    pub held: Held,
    pub next: usize,
}

// What a line shows. Walk leaves out a, b and value.
#[derive(Clone, Copy)]
pub struct Row {
    pub n: u64,
    pub op: u8,
    pub a: u8,
    pub b: u8,
    pub value: u64,
    pub code: u8,
    pub running: u8,
    pub released: u8,
    pub clock: u64,
}
