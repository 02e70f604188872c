// What the end of a body does to the tables, in place: who waits is served, and the runner closes. A function is lent
// the tables that it reads or changes, and no other. It answers the task that it releases, 0 for nobody. (Opening and
// entering: crate kernel_ops.)
#![tactic(auto)]

ghost use Rattle.std.specs.Prelude.{◌≡◌, cond, eqb, set};
ghost use Rattle.kernel_ready.specs.Ready.{runner_in, to_tail, released_line};
ghost use Rattle.kernel_close.specs.Moves.{waits_in, closed_line};

use kernel_line::{POId, TaskID};

// 8, 9, 11: the runner holds nothing and goes to the head of its base
fn close(
    base: &[u8; 32],
    ready: &mut [u8; 32],
    held: &mut [u8; 32],
    way: &mut [u8; 32],
    ceiling: [u8; 8],
) -> u8
    ensures { let l = ready.old in let h = held.old in
        (result ≡ 0) × (ready.new ≡ closed_line base.now ceiling h l)
        × (held.new ≡ set h (runner_in l) 0) × (way.new ≡ set way.old (runner_in l) 0) }
{
    let r = kernel_ready::runner(ready);
    kernel_line::set_task(held, r, 0);
    kernel_line::set_task(way, r, 0);
    let own = kernel_line::of_task(base, r);
    kernel_ready::take_front(ready);
    kernel_ready::put_head(ready, base, ceiling, held, own, r);
    0
}

// The task to serve: who waits on the object, where the end of the body serves; 0 for nobody.
fn waiting(waiter: &[u8; 8], o: POId, serves: bool) -> u8
    ensures { result ≡ waits_in waiter.now o.0 serves }
{
    if serves {
        kernel_line::of_object(*waiter, o)
    } else {
        0
    }
}

// 8 and 11, where t waits and the barrier is open: it goes to the tail of its base
fn serve(
    base: &[u8; 32],
    ready: &mut [u8; 32],
    held: &[u8; 32],
    ceiling: [u8; 8],
    waiter: &mut [u8; 8],
    o: POId,
    t: TaskID,
) -> u8
    ensures { let l = ready.old in
        (result ≡ t.0) × (ready.new ≡ to_tail base.now ceiling held.now t.0 l)
        × (waiter.new ≡ set waiter.old o.0 0) }
{
    kernel_ready::to_tail(ready, base, ceiling, held, t);
    kernel_line::set_object(waiter, o, 0);
    t.0
}

// 8, 9, 11 and 12 to 15, the end of a body: who waits is served first, where it serves; then the runner closes
pub fn end(
    base: &[u8; 32],
    ready: &mut [u8; 32],
    held: &mut [u8; 32],
    way: &mut [u8; 32],
    ceiling: [u8; 8],
    waiter: &mut [u8; 8],
    o: POId,
    serves: bool,
) -> u8
    ensures { let b = base.now in let h = held.old in let q = waiter.old in
        let t = waits_in q o.0 serves in let l = released_line b ceiling h t ready.old in
        (result ≡ t) × (ready.new ≡ closed_line b ceiling h l)
        × (held.new ≡ set h (runner_in l) 0) × (way.new ≡ set way.old (runner_in l) 0)
        × (waiter.new ≡ cond (eqb t 0) q (set q o.0 0)) }
{
    let t = waiting(waiter, o, serves);
    if t == 0 {
        close(base, ready, held, way, ceiling)
    } else {
        serve(base, ready, held, ceiling, waiter, o, TaskID(t));
        close(base, ready, held, way, ceiling);
        t
    }
}
