// What a Wake does to the tables, in place. It answers the task that it releases, 0 for nobody. (Delays and the clock:
// crate kernel_time.)
#![tactic(auto)]

ghost use Rattle.std.specs.Prelude.{◌≡◌, cond, eqb};
ghost use Rattle.kernel_line.specs.Tables.{pop, with_time};
ghost use Rattle.kernel_ready.specs.Ready.{to_tail, released_line};
ghost use Rattle.kernel_wake.specs.Due.{due_in};

use kernel_line::TaskID;

// The task to wake: the first delay entry, if its time is at most the clock; 0 for nobody.
fn due(delayed: &[u8; 32], until: &[u64; 32], clock: u64) -> u8
    ensures { result ≡ due_in delayed.now until.now clock }
{
    let t = TaskID(delayed[0]);
    if kernel_line::time_of(until, t) <= clock {
        t.0
    } else {
        0
    }
}

// 5, where the first delay entry is due: it goes to the tail of its base
fn rouse(
    base: &[u8; 32],
    ready: &mut [u8; 32],
    delayed: &mut [u8; 32],
    held: &[u8; 32],
    until: &mut [u64; 32],
    ceiling: [u8; 8],
    t: TaskID,
) -> u8
    ensures { let l = ready.old in
        (result ≡ t.0) × (ready.new ≡ to_tail base.now ceiling held.now t.0 l)
        × (delayed.new ≡ pop delayed.old)
        × (until.new ≡ with_time until.old t.0 0) }
{
    kernel_ready::to_tail(ready, base, ceiling, held, t);
    kernel_front::drop_front(delayed);
    kernel_line::set_time(until, t, 0);
    t.0
}

// 5: whoever is due, or nobody
pub fn wake(
    base: &[u8; 32],
    ready: &mut [u8; 32],
    delayed: &mut [u8; 32],
    held: &[u8; 32],
    until: &mut [u64; 32],
    ceiling: [u8; 8],
    clock: u64,
) -> u8
    ensures { let d = delayed.old in let u = until.old in let t = due_in d u clock in
        (result ≡ t)
        × (ready.new ≡ released_line base.now ceiling held.now t ready.old)
        × (delayed.new ≡ cond (eqb t 0) d (pop d))
        × (until.new ≡ cond (eqb t 0) u (with_time u t 0)) }
{
    let t = due(delayed, until, clock);
    if t == 0 {
        return 0;
    }
    rouse(base, ready, delayed, held, until, ceiling, TaskID(t))
}
