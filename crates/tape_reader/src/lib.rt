// The reader that holds its tape: a tape and a place on it. It gives the answers of the whole tape, one after another.
// (What stands at a place: crate tape.)
//
// No public function has a `requires`. specs/Reader says what each answer is.
#![tactic(auto)]

ghost use Rattle.tape_reader.specs.Reader.{Opened, Next};

use tape::{Refusal, next_at, part_at, read_at};

// A tape and a place on it.
#[derive(Drop)]
pub struct Reader<'a> {
    pub tape: &'a [u8],
    pub at: usize,
}

// A reader at the start of a tape.
pub fn open<'a>(tape: &'a [u8]) -> Reader<'a>
    ensures { Opened tape.entry result }
{
    Reader { tape, at: 0 }
}

// The next record's own 16 bytes, and none at the end; or the refusal, 15 or 17. The reader's place moves behind the
// record, and is kept at the end and on a refusal.
#[tactic(auto, unfolding(tape_form::specs::Read::next_at))]
pub fn next<'s, 'a>(r: &'s mut Reader<'a>) -> Result<&'a [u8], Refusal>
    ensures { Next r.old result r.new }
{
    let tape = r.tape;
    let at = r.at;
    read_at(tape, at)?;
    r.at = next_at(tape, at);
    Ok(part_at(tape, at))
}
