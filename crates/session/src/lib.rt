// What walk and draw share: a line carried out where the tables lie, the state behind it, and the row that is printed
// for it.
#![tactic(auto)]

ghost use Rattle.std.specs.Prelude.{◌≡◌};
ghost use Rattle.kernel.specs.Step.{tables};
ghost use Rattle.session.specs.CarriedOut as carried;

use kernel::{Answer, Command, TaskID, on_tables};
use text::{Row, Spoken};

// The number of the next line.
pub fn following(n: u64) -> u64
    ensures { result ≡ carried.following n }
{
    if n < 18446744073709551615 {
        return n + 1;
    }
    n
}

// The row of a line, its answer, and the clock behind it.
pub fn row_of(n: u64, s: Spoken, answer: Answer, clock: u64) -> Row
    ensures { result ≡ carried.row_of n s answer clock }
{
    Row {
        n,
        op: s.op,
        a: s.a,
        b: s.b,
        value: s.value,
        code: answer.code,
        running: answer.running.0,
        released: answer.released.0,
        clock,
    }
}

// A line that says a command is a step; one that says none changes nothing.
pub fn carry_out(
    base: &mut [u8; 32],
    ready: &mut [u8; 32],
    delayed: &mut [u8; 32],
    held: &mut [u8; 32],
    way: &mut [u8; 32],
    until: &mut [u64; 32],
    ceiling: &mut [u8; 8],
    waiter: &mut [u8; 8],
    clock: &mut u64,
    started: &mut bool,
    n: u64,
    s: Spoken,
) -> Row
    ensures { carried.CarriesOut (tables base.old ready.old delayed.old
        held.old way.old until.old ceiling.old waiter.old
        clock.old started.old) n s result (tables base.new ready.new
        delayed.new held.new way.new until.new ceiling.new
        waiter.new clock.new started.new) }
{
    if s.code != 0 {
        let running = kernel_ready::running(*started, ready);
        let unmoved = Answer {
            code: s.code,
            running,
            released: TaskID(0),
        };
        return row_of(n, s, unmoved, *clock);
    }
    let c = Command {
        op: s.op,
        a: s.a,
        b: s.b,
        value: s.value,
    };
    let answer = on_tables::step(
        base, ready, delayed, held, way, until, ceiling, waiter, clock, started, c,
    );
    row_of(n, s, answer, *clock)
}
