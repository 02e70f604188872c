// The step and the test on lent tables: an accepted command is carried out where they lie, a refused one leaves them as
// they are. (What each op does to them: crates kernel_ops, kernel_close, kernel_time and kernel_wake. When it is
// refused: crate kernel_checks.)
ghost use Rattle.std.specs.Prelude.{ℕ, ◌<◌, ◌^◌, ◌≡◌, length};
ghost use Rattle.rules.specs.Line.{at};
ghost use Rattle.kernel.specs.Lent.{lent, left, seen};
ghost use Rattle.kernel.specs.Public.{Ends, to_rules, is_sound, step_of, running_of};
ghost use Rattle.kernel.specs.Step as step;

use crate::command::Answer;
use kernel_checks::{Command, Kind};
use kernel_line::{POId, TaskID};
use rules::Refusal;

// The answer to a refused command: its number, who runs, and nobody released.
fn refused(code: u8, running: TaskID) -> Answer
    ensures { result ≡ step.refused code running.0 }
{
    Answer {
        code,
        running,
        released: TaskID(0),
    }
}

// The answer to an accepted command: who runs behind it, and who is released.
fn accepted(running: TaskID, released: u8) -> Answer
    ensures { result ≡ step.accepted running.0 released }
{
    Answer {
        code: 0,
        running,
        released: TaskID(released),
    }
}

// An accepted command, carried out: the released task, 0 for nobody.
fn carry(
    base: &mut [u8; 32],
    ready: &mut [u8; 32],
    delayed: &mut [u8; 32],
    held: &mut [u8; 32],
    way: &mut [u8; 32],
    until: &mut [u64; 32],
    ceiling: &mut [u8; 8],
    waiter: &mut [u8; 8],
    clock: &mut u64,
    started: &mut bool,
    k: Kind,
    c: Command,
) -> u8
    ensures { let behind = left base ready delayed held way until ceiling waiter clock started in
        Ends behind (step.accepted (running_of behind) result)
        (step.carried_as k (lent base ready delayed held way until ceiling waiter clock started) (to_rules c)) }
{
    let tops = *ceiling;
    match k {
        Kind::NoKind => 0,
        Kind::Creating => kernel_ops::create(base, ready, tops, held, TaskID(c.a), c.b),
        Kind::Declaring => kernel_ops::declare(ceiling, POId(c.a), c.b),
        Kind::Starting => kernel_ops::begin(started),
        Kind::Delaying => kernel_time::delay(
            base, ready, delayed, held, until, tops, *clock, c.value,
        ),
        Kind::Waking => kernel_wake::wake(base, ready, delayed, held, until, tops, *clock),
        Kind::Advancing => kernel_time::advance(clock, c.value),
        Kind::Opening => kernel_ops::hold(ready, held, way, POId(c.a), rules::FOR_OPEN),
        Kind::Entering => kernel_ops::enter(ready, held, way, waiter, POId(c.a), c.b),
        Kind::Ending(e) => {
            let serves = e.serves & (c.b == 1);
            kernel_close::end(base, ready, held, way, tops, waiter, POId(c.a), serves)
        }
    }
}

// The step that trusts the tables to be those of a sound state, and does not test them. Any tables get one answer,
// which for those of a forged state is no step of document 01.
pub fn step_trusting(
    base: &mut [u8; 32],
    ready: &mut [u8; 32],
    delayed: &mut [u8; 32],
    held: &mut [u8; 32],
    way: &mut [u8; 32],
    until: &mut [u64; 32],
    ceiling: &mut [u8; 8],
    waiter: &mut [u8; 8],
    clock: &mut u64,
    started: &mut bool,
    c: Command,
) -> Answer
    ensures { Ends (left base ready delayed held way until ceiling waiter clock started) result
        (step.stepped_of (lent base ready delayed held way until ceiling waiter clock started) (to_rules c)) }
{
    let tops = *ceiling;
    let waits = *waiter;
    let kind = c.kind();
    let checked = kernel_checks::checked(
        base, ready, held, way, tops, waits, *clock, *started, kind, c,
    );
    match checked {
        Err(refusal) => refused(refusal.number(), kernel_ready::running(*started, ready)),
        Ok(()) => {
            let released = carry(
                base, ready, delayed, held, way, until, ceiling, waiter, clock, started, kind, c,
            );
            accepted(kernel_ready::running(*started, ready), released)
        }
    }
}

// What the types of lent tables say, told to the logic: it knows the length of an array that is looked at as a slice,
// and that each number there fits. It costs nothing.
fn sized(
    base: &[u8; 32],
    ready: &[u8; 32],
    delayed: &[u8; 32],
    held: &[u8; 32],
    way: &[u8; 32],
    until: &[u64; 32],
)
    ensures { (length base.now ≡ 32) × (length ready.now ≡ 32)
        × (length delayed.now ≡ 32) × (length held.now ≡ 32)
        × (length way.now ≡ 32) × (length until.now ≡ 32)
        × ((t : ℕ) → at until.now t < 2 ^ 64) }
{
    let bases: &[u8] = base;
    let readies: &[u8] = ready;
    let sleepers: &[u8] = delayed;
    let hands: &[u8] = held;
    let ways: &[u8] = way;
    let times: &[u64] = until;
    let first = times[0];
}

// The test of a saved state: document 01's conditions hold, and every unused cell is 0.
pub fn sound<'a>(
    base: &'a [u8; 32],
    ready: &'a [u8; 32],
    delayed: &'a [u8; 32],
    held: &'a [u8; 32],
    way: &'a [u8; 32],
    until: &'a [u64; 32],
    ceiling: [u8; 8],
    waiter: [u8; 8],
    clock: u64,
    started: bool,
) -> bool
    ensures { result ≡ is_sound (seen base ready delayed held way until ceiling waiter clock started) }
{
    sized(base, ready, delayed, held, way, until);
    kernel_sound::tested(
        base, ready, delayed, held, way, until, ceiling, waiter, clock, started,
    )
}

// The step: tables that are not those of a sound state are answered 1, 0, 0 and stay as they are.
pub fn step(
    base: &mut [u8; 32],
    ready: &mut [u8; 32],
    delayed: &mut [u8; 32],
    held: &mut [u8; 32],
    way: &mut [u8; 32],
    until: &mut [u64; 32],
    ceiling: &mut [u8; 8],
    waiter: &mut [u8; 8],
    clock: &mut u64,
    started: &mut bool,
    c: Command,
) -> Answer
    ensures { Ends (left base ready delayed held way until ceiling waiter clock started) result
        (step_of (lent base ready delayed held way until ceiling waiter clock started) (to_rules c)) }
{
    let tops = *ceiling;
    let waits = *waiter;
    if !sound(
        base, ready, delayed, held, way, until, tops, waits, *clock, *started,
    ) {
        return refused(Refusal::Shape.number(), TaskID(0));
    }
    step_trusting(
        base, ready, delayed, held, way, until, ceiling, waiter, clock, started, c,
    )
}
