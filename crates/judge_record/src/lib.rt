// One record of a tape, judged: where a judge stands behind it. (The machine that its command is carried out on, and
// the pieces in which a tape comes: crate judging.)
//
// No public function has a `requires`. judge_verdict/specs/Behind says what each answer is.
#![tactic(auto)]

ghost use Rattle.std.specs.Prelude.{◌≡◌};
ghost use Rattle.judge_verdict.specs.Verdict as said;
ghost use Rattle.judge_verdict.specs.Behind as behind;

use judge_verdict::{Difference, Head, RefusedAt, Verdict};
use kernel_checks::Command;
use record::{RECORD_BYTES, Record};
use record_kept::Kept;

// The place behind a record. The last places of 64 bits are followed by themselves: no tape is so long.
fn beyond(place: usize) -> usize
    ensures { result ≡ behind.beyond place }
{
    place.checked_add(RECORD_BYTES).unwrap_or(place)
}

// The byte at which a record begins. No tape has the records from 2^60 on.
pub fn place_of(number: usize) -> usize
    ensures { result ≡ behind.place_of number }
{
    number << 4
}

fn seed_shown(code: u8, value: u64, seed: u64) -> u64
    ensures { result ≡ said.seed_shown code value seed }
{
    if code == 17 { value } else { seed }
}

fn refused_at(code: u8, place: usize) -> Verdict
    ensures { result ≡ behind.refused_at code place }
{
    Verdict::Refused(RefusedAt {
        code,
        number: place >> 4,
        place,
    })
}

// The command of a record.
pub fn command_of(t: Record) -> Command
    ensures { result ≡ said.command_shown t }
{
    Command {
        op: t.op,
        a: t.a,
        b: t.b,
        value: t.value,
    }
}

// Behind a record that is none, of that value: 15 or 17 is the verdict.
pub fn refused(h: Head, code: u8, value: u64) -> Head
    ensures { result ≡ behind.refused h code value }
{
    let place = h.place;
    Head {
        place,
        seed: seed_shown(code, value, h.seed),
        verdict: Some(refused_at(code, place)),
    }
}

// Behind the header: its seed is kept to be shown.
pub fn headed(h: Head, seed: u64) -> Head
    ensures { result ≡ behind.headed h seed }
{
    Head {
        place: beyond(h.place),
        seed,
        verdict: None,
    }
}

// Behind a command record, beside what a record keeps of the rules' answer: on to the next place, or the first that
// differs.
#[tactic(auto, unfolding(judge_verdict::specs::Behind::compared))]
pub fn compared(h: Head, t: Record, rules: Kept) -> Head
    ensures { result ≡ behind.compared h t rules }
{
    let place = h.place;
    let tape = Kept::from(t);
    if !tape.same(rules) {
        let number = place >> 4;
        let found = Verdict::Differs(Difference {
            number,
            command: command_of(t),
            tape,
            rules,
        });
        return Head {
            place,
            seed: h.seed,
            verdict: Some(found),
        };
    }
    Head {
        place: beyond(place),
        seed: h.seed,
        verdict: None,
    }
}

// The verdict at the end of a tape, with so many bytes behind the last record: a record that is not whole is 15, and
// so is a tape without a header.
pub fn at_end(verdict: Option<Verdict>, place: usize, count: usize) -> Verdict
    ensures { result ≡ behind.at_end verdict place count }
{
    if let Some(found) = verdict {
        return found;
    }
    if (place < RECORD_BYTES) | (count != 0) {
        return refused_at(15, place);
    }
    Verdict::Agrees((place >> 4) - 1)
}
