// What stands at a place of a tape, as a type, no code: specs/ says what writer and reader answer, proofs/ what follows
// from that. (What one record is: crate record.)
#![tactic(auto)]

pub use record::Record;
use rules::Refusal;

// What stands at a place of a tape: a record, and the place behind it; None for the end, at a whole record; or the
// refusal, Record (15) or Seed (17).
pub type Read = Result<Option<(Record, usize)>, Refusal>;
