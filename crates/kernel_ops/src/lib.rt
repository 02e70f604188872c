// What the ops of set-up and those that open or enter an object do to the tables, in place: a function is lent the
// tables that it reads or changes, and no other. It answers the task that it releases, which is nobody: 0. (The end of
// a body: crate kernel_close. Delays and the clock: crate kernel_time. A Wake: crate kernel_wake. Which kind of command
// does what: crate kernel. When it is refused: crate kernel_checks.) Each `&` has its own lifetime: with one for several
// a caller could not lend what it was lent itself.
#![tactic(auto)]

ghost use Rattle.std.specs.Prelude.{◌≡◌, true, cond, eqb, set};
ghost use Rattle.rules.specs.Machine.{for_entry};
ghost use Rattle.kernel_ready.specs.Ready.{runner_in, popped, tailed};

use kernel_line::{POId, TaskID};

// ---- set-up

// 1: created, placed at the tail of its base
pub fn create(
    base: &mut [u8; 32],
    ready: &mut [u8; 32],
    ceiling: [u8; 8],
    held: &[u8; 32],
    t: TaskID,
    p: u8,
) -> u8
    ensures { let b = set base.old t.0 p in
        (result ≡ 0) × (base.new ≡ b)
        × (ready.new ≡ tailed b ceiling held.now p t.0 ready.old) }
{
    kernel_line::set_task(base, t, p);
    kernel_ready::put_tail(ready, base, ceiling, held, p, t);
    0
}

// 2: declared
pub fn declare(ceiling: &mut [u8; 8], o: POId, p: u8) -> u8
    ensures { (result ≡ 0) × (ceiling.new ≡ set ceiling.old o.0 p) }
{
    kernel_line::set_object(ceiling, o, p);
    0
}

// 3: the front runs
pub fn begin(started: &mut bool) -> u8
    ensures { (result ≡ 0) × (started.new ≡ true) }
{
    *started = true;
    0
}

// ---- objects

// 7, and 10 with the barrier open: the runner holds the object, in that way
pub fn hold(ready: &[u8; 32], held: &mut [u8; 32], way: &mut [u8; 32], o: POId, w: u8) -> u8
    ensures { let x = runner_in ready.now in
        (result ≡ 0) × (held.new ≡ set held.old x o.0)
        × (way.new ≡ set way.old x w) }
{
    let r = kernel_ready::runner(ready);
    kernel_line::set_task(held, r, o.0);
    kernel_line::set_task(way, r, w);
    0
}

// 10 with the barrier shut: the runner leaves the line and waits on the object
fn queue(ready: &mut [u8; 32], waiter: &mut [u8; 8], o: POId) -> u8
    ensures { let l = ready.old in
        (result ≡ 0) × (ready.new ≡ popped l)
        × (waiter.new ≡ set waiter.old o.0 (runner_in l)) }
{
    let r = kernel_ready::runner(ready);
    kernel_line::set_object(waiter, o, r.0);
    kernel_ready::take_front(ready);
    0
}

// 10: by its barrier, the one or the other
pub fn enter(
    ready: &mut [u8; 32],
    held: &mut [u8; 32],
    way: &mut [u8; 32],
    waiter: &mut [u8; 8],
    o: POId,
    b: u8,
) -> u8
    ensures { let l = ready.old in let h = held.old in let w = way.old in
        let q = waiter.old in
        (result ≡ 0) × (ready.new ≡ cond (eqb b 1) l (popped l))
        × (held.new ≡ cond (eqb b 1) (set h (runner_in l) o.0) h)
        × (way.new ≡ cond (eqb b 1) (set w (runner_in l) for_entry) w)
        × (waiter.new ≡ cond (eqb b 1) q (set q o.0 (runner_in l))) }
{
    if b == 1 {
        hold(ready, held, way, o, rules::FOR_ENTRY)
    } else {
        queue(ready, waiter, o)
    }
}
