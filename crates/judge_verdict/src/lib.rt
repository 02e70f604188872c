// The judgement of a tape as a type, and where a judge stands that reads one, no code: specs/Verdict says which
// judgement a tape has, specs/Behind where a judge stands behind a record, proofs/ what follows from the first.
#![tactic(auto)]

pub use kernel_checks::Command;
pub use record_kept::Kept;

// The first record that differs: its number (the header is 0), its command, and of the answers what a record keeps:
// the tape's, and the rules'.
#[derive(Clone, Copy)]
pub struct Difference {
    pub number: usize,
    pub command: Command,
    pub tape: Kept,
    pub rules: Kept,
}

// 15 or 17 as the reader gives them, the record's number, and its byte place.
// Kept (promise): any number fits: what is asked of a judgement answers every one, whoever made it.
#[derive(Clone, Copy)]
pub struct RefusedAt {
    pub code: u8,
    pub number: usize,
    pub place: usize,
}

#[derive(Clone, Copy)]
pub enum Verdict {
    // every answer is the rules': the number of command records
    Agrees(usize),
    Differs(Difference),
    Refused(RefusedAt),
}

// The header's seed, and the verdict. Of a header that is refused for its seed (17) that is shown too; where there is
// no header it is 0.
#[derive(Clone, Copy)]
pub struct Judgement {
    pub seed: u64,
    pub verdict: Verdict,
}

// Where a judge stands beside its machine: the place of the next record, which is 16 times its number, the seed that
// is shown, and the verdict: None while all is right, and behind it no record is looked at any more.
#[derive(Clone, Copy)]
pub struct Head {
    pub place: usize,
    pub seed: u64,
    pub verdict: Option<Verdict>,
}
