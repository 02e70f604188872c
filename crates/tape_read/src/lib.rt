// What stands at a place of a tape: a record, the end, or a refusal. (What the answers are: crate tape_form.)
#![tactic(auto)]

ghost use Rattle.std.specs.Prelude.{◌≡◌, ◌+◌, ◌<◌, ◌^◌};
ghost use Rattle.tape_form.specs.Read.{judged, end_of, read_of, place_of};

use record::{RECORD_BYTES, Record, fault};
use record_bytes::{is_marked, record_of};
use rules::Refusal;
pub use tape_form::Read;

#[tactic(auto, using(tape_form::proofs::Reading::judged_fault))]
fn judge(p: &[u8], at: usize) -> Read
    requires { at + 16 < 2 ^ 64 }
    ensures { result ≡ judged at p.now }
{
    if !is_marked(p) {
        return Err(Refusal::Record);
    }
    let r = record_of(p);
    fault(at, r)?;
    Ok(Some((r, at + RECORD_BYTES)))
}

#[tactic(auto, unfolding(tape_form::specs::Read::end_of))]
fn at_end(n: usize) -> Read
    ensures { result ≡ end_of n }
{
    if n == 0 {
        return Err(Refusal::Record);
    }
    Ok(None)
}

// The record at a place, the end, or the refusal.
#[tactic(auto, unfolding(tape_form::specs::Read::read_of))]
pub fn read_at(tape: &[u8], at: usize) -> Read
    ensures { result ≡ read_of tape.now at }
{
    let n = tape.len();
    if at % RECORD_BYTES != 0 {
        return Err(Refusal::Record);
    }
    if n < at {
        return Err(Refusal::Record);
    }
    if at == n {
        return at_end(n);
    }
    if n - at < RECORD_BYTES {
        return Err(Refusal::Record);
    }
    let next = at + RECORD_BYTES;
    judge(&tape[at..next], at)
}

// The place behind what was read at `at`: the record's end, or the same place where there is no record.
// Kept (promise): any refusal fits, by its name or by a number, whichever that is.
pub fn place<E: Drop>(at: usize, r: Result<Option<(Record, usize)>, E>) -> usize
    ensures { result ≡ place_of at r }
{
    match r {
        Ok(Some((_, next))) => next,
        Ok(None) => at,
        Err(_) => at,
    }
}
