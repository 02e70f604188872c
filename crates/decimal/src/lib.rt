// Unsigned decimals without needless zeros stand in specs/, as definitions, and what follows from them in proofs/.
// Here is only what a word reads as: definitions and code have the same type.
#![tactic(auto)]

// What a word reads as: a number, or (not valid, with 0) none.
#[derive(Clone, Copy)]
pub struct Reading {
    pub valid: bool,
    pub value: u64,
}
