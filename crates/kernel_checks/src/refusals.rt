// The first check that refuses a command: Range first, then the checks of its kind, over the cells that these look at.
ghost use Rattle.std.specs.Prelude.{◌+◌, ◌^◌, ◌≡◌, cond, not, ◌&&◌, ◌||◌, eqb, leb, ltb};
ghost use Rattle.rules.specs.Line.{at, count};
ghost use Rattle.rules.specs.Numbers.{code_of};
ghost use Rattle.kernel_checks.specs.Shown.{to_rules, shown, refusal_as};

use crate::{Command, Kind, formed};
use kernel_line::{POId, TaskID};
use rules::Refusal;

// start
fn starting(started: bool) -> Result<(), Refusal>
    ensures { code_of result ≡ cond started 3 0 }
{
    if started { Err(Refusal::Late) } else { Ok(()) }
}

// wake
fn waking(started: bool) -> Result<(), Refusal>
    ensures { code_of result ≡ cond (not started) 2 0 }
{
    if started { Ok(()) } else { Err(Refusal::Early) }
}

// create: `named` is the base of the task that it names
fn creating(started: bool, a: u8, named: u8) -> Result<(), Refusal>
    ensures { code_of result ≡ cond started 3 (cond (eqb a 0 || not (eqb named 0)) 5 0) }
{
    if started {
        return Err(Refusal::Late);
    }
    if a == 0 || named != 0 {
        return Err(Refusal::Taken);
    }
    Ok(())
}

// object: `ceiling` is that of the object that it names
fn declaring(started: bool, ceiling: u8) -> Result<(), Refusal>
    ensures { code_of result ≡ cond started 3 (cond (not (eqb ceiling 0)) 5 0) }
{
    if started {
        return Err(Refusal::Late);
    }
    if ceiling != 0 {
        return Err(Refusal::Taken);
    }
    Ok(())
}

// delay: `held` is what the runner holds
fn delaying(started: bool, runner: u8, held: u8) -> Result<(), Refusal>
    ensures { code_of result ≡ cond (not started) 2 (cond (eqb runner 0) 7 (cond (not (eqb held 0)) 8 0)) }
{
    if !started {
        return Err(Refusal::Early);
    }
    if runner == 0 {
        return Err(Refusal::Idle);
    }
    if held != 0 {
        return Err(Refusal::Inside);
    }
    Ok(())
}

// advance: the clock may not pass its end
fn advancing(started: bool, clock: u64, ticks: u64) -> Result<(), Refusal>
    ensures { code_of result ≡ cond (not started) 2 (cond (not (ltb (clock + ticks) (2 ^ 64))) 13 0) }
{
    if !started {
        return Err(Refusal::Early);
    }
    if passes_end(clock, ticks) {
        return Err(Refusal::Clock);
    }
    Ok(())
}

// open and entry: the object that it names
fn taking(
    base: &[u8; 32],
    held: &[u8; 32],
    ceiling: [u8; 8],
    started: bool,
    runner: TaskID,
    o: POId,
) -> Result<(), Refusal>
    ensures { let top = at ceiling o.0 in let h = held.now in
        code_of result ≡ cond (not started) 2 (cond (eqb top 0) 6 (cond (eqb runner.0 0) 7
        (cond (not (eqb (at h runner.0) 0)) 8 (cond (ltb top (at base.now runner.0)) 10
        (cond (leb 1 (count o.0 h)) 11 0))))) }
{
    let top = kernel_line::of_object(ceiling, o);
    if !started {
        return Err(Refusal::Early);
    }
    if top == 0 {
        return Err(Refusal::Missing);
    }
    if runner.0 == 0 {
        return Err(Refusal::Idle);
    }
    if kernel_line::of_task(held, runner) != 0 {
        return Err(Refusal::Inside);
    }
    if top < kernel_line::of_task(base, runner) {
        return Err(Refusal::Ceiling);
    }
    if 1 <= kernel_line::holders(held, o) {
        return Err(Refusal::Held);
    }
    Ok(())
}

// the end of a body: the runner holds the object, in the way w
fn giving(
    held: &[u8; 32],
    way: &[u8; 32],
    ceiling: [u8; 8],
    started: bool,
    runner: TaskID,
    o: POId,
    w: u8,
) -> Result<(), Refusal>
    ensures { let x = runner.0 in
        code_of result ≡ cond (not started) 2 (cond (eqb (at ceiling o.0) 0) 6 (cond (eqb x 0) 7
        (cond (not (eqb (at held.now x) o.0 && eqb (at way.now x) w)) 9 0))) }
{
    if !started {
        return Err(Refusal::Early);
    }
    if kernel_line::of_object(ceiling, o) == 0 {
        return Err(Refusal::Missing);
    }
    if runner.0 == 0 {
        return Err(Refusal::Idle);
    }
    if kernel_line::of_task(held, runner) != o.0 || kernel_line::of_task(way, runner) != w {
        return Err(Refusal::Outside);
    }
    Ok(())
}

// entry with barrier 0 while a task waits there
fn full(waiter: [u8; 8], o: POId, b: u8) -> Result<(), Refusal>
    ensures { code_of result ≡ cond (eqb b 0 && not (eqb (at waiter o.0) 0)) 12 0 }
{
    if b == 0 && kernel_line::of_object(waiter, o) != 0 {
        return Err(Refusal::Queue);
    }
    Ok(())
}

// The clock would pass 2^64-1.
fn passes_end(clock: u64, ticks: u64) -> bool
    ensures { result ≡ not (ltb (clock + ticks) (2 ^ 64)) }
{
    u64::MAX - clock < ticks
}

// The first check of that kind that refuses the command. (The caller passes the command's own kind: of another one the
// refusal is of no rule.)
pub fn checked(
    base: &[u8; 32],
    ready: &[u8; 32],
    held: &[u8; 32],
    way: &[u8; 32],
    ceiling: [u8; 8],
    waiter: [u8; 8],
    clock: u64,
    started: bool,
    k: Kind,
    c: Command,
) -> Result<(), Refusal>
    ensures { code_of result ≡ refusal_as k (shown base.now ready.now held.now
        way.now ceiling waiter clock started) (to_rules c) }
{
    if !formed(k, c) {
        return Err(Refusal::Range);
    }
    let r = kernel_ready::runner(ready);
    match k {
        Kind::NoKind => Ok(()),
        Kind::Creating => creating(started, c.a, kernel_line::of_task(base, TaskID(c.a))),
        Kind::Declaring => declaring(started, kernel_line::of_object(ceiling, POId(c.a))),
        Kind::Starting => starting(started),
        Kind::Delaying => delaying(started, r.0, kernel_line::of_task(held, r)),
        Kind::Waking => waking(started),
        Kind::Advancing => advancing(started, clock, c.value),
        Kind::Opening => taking(base, held, ceiling, started, r, POId(c.a)),
        Kind::Entering => {
            taking(base, held, ceiling, started, r, POId(c.a))?;
            full(waiter, POId(c.a), c.b)
        }
        Kind::Ending(e) => giving(held, way, ceiling, started, r, POId(c.a), e.way),
    }
}
