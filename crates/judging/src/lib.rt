// Judges a tape of document 01: runs its commands from the fresh machine, and says whether the answers on the tape are
// the rules'.
//
// `judged` judges a whole tape. A `Judge` is fed a tape in pieces, cut anywhere, and says the same. No public function
// has a `requires`, and every state gets an answer, whoever made it. What each answer is: judge_verdict/specs/Verdict
// says of a whole tape, specs/Pieces of its pieces.
#![tactic(auto)]

ghost use Rattle.std.specs.Prelude.{◌≡◌, ◌++◌, ◌≤◌, min, take, get_or};
ghost use Rattle.kernel.specs.View.{pad};
ghost use Rattle.judge_verdict.specs.Verdict as verdict;
ghost use Rattle.judge_verdict.specs.Behind as behind;
ghost use Rattle.judging.specs.Pieces as pieces;

mod in_place;

pub use judge_pieces::Run;
use judge_record::at_end;
use judge_verdict::Head;
pub use judge_verdict::{Command, Difference, Judgement, Kept, RefusedAt, Verdict};
pub use kernel::Kernel;
use record::RECORD_BYTES;

// A judge that is fed pieces: the whole records so far, and the first bytes of a record that is not whole yet.
#[derive(Clone, Copy)]
pub struct Judge {
    pub run: Run,
    pub held: [u8; 16],
    pub count: usize,
}

// The records that lie whole in a piece, from its start on.
fn records(run: Run, piece: &[u8]) -> Run
    ensures { result ≡ (pieces.through run piece.now).run }
{
    let machine = run.kernel;
    let base = machine.base;
    let ready = machine.ready;
    let delayed = machine.delayed;
    let held = machine.held;
    let way = machine.way;
    let until = machine.until;
    let ceiling = machine.ceiling;
    let waiter = machine.waiter;
    let clock = machine.clock;
    let started = machine.started;
    let head = Head {
        place: run.place,
        seed: run.seed,
        verdict: run.verdict,
    };
    in_place::records(
        base, ready, delayed, held, way, until, ceiling, waiter, clock, started, head, piece,
    )
}

// The same, and what is left of the piece is held.
fn through(run: Run, piece: &[u8]) -> Judge
    ensures { result ≡ pieces.through run piece.now }
{
    let behind = records(run, piece);
    let at = RECORD_BYTES * (piece.len() >> 4);
    let held = together([0; 16], 0, &piece[at..]);
    Judge {
        run: behind,
        held,
        count: piece.len() - at,
    }
}

// Fewer than 16 bytes are held, whoever made the count.
fn held_count(count: usize) -> usize
    ensures { result ≡ min 15 count }
{
    if 15 < count {
        return 15;
    }
    count
}

// The byte at an index of what is held and then comes, 0 past the end.
fn byte_of(held: [u8; 16], n: usize, piece: &[u8], i: usize) -> u8
    requires { n ≤ 15 }
    ensures { result ≡ get_or (take n held ++ piece.now) i 0 }
{
    if i < n {
        return held[i];
    }
    if i - n < piece.len() {
        return piece[i - n];
    }
    0
}

// The first 16 bytes of what is held and then comes, 0 for those that are missing.
fn together(held: [u8; 16], n: usize, piece: &[u8]) -> [u8; 16]
    requires { n ≤ 15 }
    ensures { result ≡ pad 16 (take n held ++ piece.now) }
{
    let mut out = [0; 16];
    let mut i = 0;
    while i < RECORD_BYTES {
        out[i] = byte_of(held, n, piece, i);
        i += 1;
    }
    out
}

impl Judge {
    // Nothing read yet.
    pub fn fresh() -> Judge
        ensures { result ≡ pieces.at_first }
    {
        let kernel = Kernel::fresh();
        let run = Run {
            kernel,
            place: 0,
            seed: 0,
            verdict: None,
        };
        Judge {
            run,
            held: [0; 16],
            count: 0,
        }
    }

    // A piece more of the tape.
    pub fn feed(self, piece: &[u8]) -> Judge
        ensures { result ≡ pieces.fed self piece.now }
    {
        let n = held_count(self.count);
        let held = self.held;
        let first = together(held, n, piece);
        let run = self.run;
        let wanted = RECORD_BYTES - n;
        if piece.len() < wanted {
            return Judge {
                run,
                held: first,
                count: n + piece.len(),
            };
        }
        // The record that was begun is whole now, and is judged alone.
        let whole = records(run, &first);
        through(whole, &piece[wanted..])
    }

    // Whether a verdict is still to come. Behind it no piece changes anything (proofs/Whole, verdict_stays), so
    // nothing more need be read.
    pub fn goes_on(self) -> bool
        ensures { result ≡ behind.to_come self.run.verdict }
    {
        self.run.verdict.is_none()
    }

    // The end of the tape.
    #[tactic(auto, unfolding(crate::specs::Pieces::ended))]
    pub fn end(self) -> Judgement
        ensures { result ≡ pieces.ended self }
    {
        let run = self.run;
        Judgement {
            seed: run.seed,
            verdict: at_end(run.verdict, run.place, self.count),
        }
    }
}

// What the program judge ends with: 0 agrees, 1 differs, 2 refused.
pub fn status(v: Verdict) -> u8
    ensures { result ≡ verdict.status_of v }
{
    match v {
        Verdict::Agrees(_) => 0,
        Verdict::Differs(_) => 1,
        Verdict::Refused(_) => 2,
    }
}

// The judgement of a whole tape.
pub fn judged(tape: &[u8]) -> Judgement
    ensures { result ≡ verdict.verdict_of tape.now }
{
    Judge::fresh().feed(tape).end()
}
