// The tape of document 01: records of 16 bytes one behind another, the header first. (What one record is: crate
// record.)
//
// `write_at` writes a record at a place of a lent buffer. `read_at` says what stands at a place of a tape, and
// `part_at` hands back a record's own 16 bytes. Every buffer, place and byte string gets an answer: no public function
// has a `requires`. tape_form/specs says what each answer is. (The writer's checks: crate tape_checks. What stands at a
// place: crate tape_read. The reader that holds its tape: crate tape_reader.)
#![tactic(auto)]

ghost use Rattle.std.specs.Prelude.{◌≡◌, ◌++◌, ◌≤◌, ℕ, length, drop};
ghost use Rattle.rules.specs.Numbers.{number_of};
ghost use Rattle.tape_form.specs.Write.{Written};
ghost use Rattle.tape_form.specs.Read.{number_by, code_at, next_at, PartAt};

use record::RECORD_BYTES;
pub use record::{Record, header};
use record_bytes::bytes_of;
pub use record_bytes::record_of;
pub use rules::Refusal;
use tape_checks::write_code;
pub use tape_form::Read;
pub use tape_read::{place, read_at};

// A record's bytes at the front of a part. They are stored as one array: where the compiler has to see that two buffers
// lie apart, as of a slice that is copied, a write took three times as long.
fn put(part: &mut [u8], p: [u8; 16])
    requires { 16 ≤ length part.old }
    ensures { part.new ≡ p ++ drop 16 part.old }
{
    if let Some(cells) = part.first_chunk_mut::<RECORD_BYTES>() {
        *cells = p;
    }
}

// Writes a record, the header at place 0 and a command record elsewhere, into the part of the buffer that follows the
// last one. A refusal, 15, 17 or 16, leaves the buffer as it was.
#[tactic(auto, using(tape_form::proofs::Writing::accepted), unfolding(tape_form::specs::Write::write_of))]
pub fn write_at(out: &mut [u8], at: usize, r: Record) -> Result<(), Refusal>
    ensures { Written out.old at r result out.new }
{
    write_code(out.len(), at, r)?;
    put(&mut out[at..], bytes_of(r));
    Ok(())
}

// What a refusal comes as: by its name, or by a number.
pub trait Numbered: Drop {
    ghost numbered: { Self → ℕ };

    fn numbered(self) -> u8
        ensures { result ≡ numbered self };
}

impl Numbered for Refusal {
    ghost numbered = { number_of };

    fn numbered(self) -> u8 {
        self.number()
    }
}

impl Numbered for u8 {
    ghost numbered = { λ n. n };

    fn numbered(self) -> u8 {
        self
    }
}

// Document 01's number of an answer: 0 for a record and for the end.
// Kept (promise): any refusal fits, by its name or by a number, whichever that is.
pub fn number<E: Numbered>(r: Result<Option<(Record, usize)>, E>) -> u8
    ensures { result ≡ number_by E.numbered r }
{
    match r {
        Ok(_) => 0,
        Err(refusal) => refusal.numbered(),
    }
}

// The number of what stands at a place: 0 for a record and for the end, 15, 17.
#[tactic(auto, unfolding(tape_form::specs::Read::code_at))]
pub fn code_at(tape: &[u8], at: usize) -> u8
    ensures { result ≡ code_at tape.now at }
{
    number(read_at(tape, at))
}

// The place behind the record, or the same place where there is none.
#[tactic(auto, unfolding(tape_form::specs::Read::next_at))]
pub fn next_at(tape: &[u8], at: usize) -> usize
    ensures { result ≡ next_at tape.now at }
{
    place(at, read_at(tape, at))
}

// The record's own 16 bytes of the tape, no copy; an empty part where there is none. The contract gives the contents
// and where the part lies.
#[tactic(auto, using(tape_form::proofs::Reading::found_at), unfolding(tape_form::specs::Read::part_at, tape_form::specs::Read::start_at))]
pub fn part_at(tape: &[u8], at: usize) -> &[u8]
    ensures { PartAt tape.entry at result }
{
    match read_at(tape, at) {
        Ok(Some((_, next))) => &tape[at..next],
        Ok(None) => &tape[0..0],
        Err(_) => &tape[0..0],
    }
}
