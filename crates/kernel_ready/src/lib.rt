// The ready line in its table: who is in front, who is shown as running, the front taken off, a task put at the tail or
// at the head of a priority. No code above this crate looks into the table. (The tests of a saved line: crate
// kernel_order.)
#![tactic(auto)]

ghost use Rattle.std.specs.Prelude.{◌≡◌};
ghost use Rattle.kernel_line.specs.Tables.{lead};
ghost use Rattle.kernel_ready.specs.Ready.{runner_in, running_in, popped, lower, tailed, headed, to_tail, task};

use kernel_line::TaskID;

// Who is in front: 0 for idle.
pub fn runner(ready: &[u8; 32]) -> TaskID
    ensures { result ≡ task (runner_in ready.now) }
{
    TaskID(ready[0])
}

// Who is shown as running: the front, 0 before Start.
pub fn running(started: bool, ready: &[u8; 32]) -> TaskID
    ensures { result ≡ task (running_in started ready.now) }
{
    if started { runner(ready) } else { TaskID(0) }
}

// The front is taken off.
pub fn take_front(ready: &mut [u8; 32])
    ensures { ready.new ≡ popped ready.old }
{
    kernel_front::drop_front(ready);
}

// Whether an entry is a place for the priority p: a task with an active priority below it, or what is no task.
fn is_lower(base: &[u8; 32], ceiling: [u8; 8], held: &[u8; 32], p: u8, x: u8) -> bool
    ensures { result ≡ lower base.now ceiling held.now p x }
{
    32 <= x || kernel_line::level(base, ceiling, held, TaskID(x)) < p
}

// How many stand before the first with an active priority below p.
fn front_level(ready: &[u8; 32], base: &[u8; 32], ceiling: [u8; 8], held: &[u8; 32], p: u8) -> usize
    ensures { result ≡ lead (lower base.now ceiling held.now p) ready.now }
{
    for (i, &x) in ready.iter().enumerate() {
        if is_lower(base, ceiling, held, p, x) {
            return i;
        }
    }
    32
}

// t at the tail of p.
pub fn put_tail(
    ready: &mut [u8; 32],
    base: &[u8; 32],
    ceiling: [u8; 8],
    held: &[u8; 32],
    p: u8,
    t: TaskID,
)
    ensures { ready.new ≡
        tailed base.now ceiling held.now p t.0 ready.old }
{
    let i = front_level(ready, base, ceiling, held, p);
    kernel_place::put_at(ready, i, t);
}

// t at the head of p: the tail of the priority above.
pub fn put_head(
    ready: &mut [u8; 32],
    base: &[u8; 32],
    ceiling: [u8; 8],
    held: &[u8; 32],
    p: u8,
    t: TaskID,
)
    ensures { ready.new ≡
        headed base.now ceiling held.now p t.0 ready.old }
{
    put_tail(ready, base, ceiling, held, p.saturating_add(1), t);
}

// t at the tail of its base.
pub fn to_tail(ready: &mut [u8; 32], base: &[u8; 32], ceiling: [u8; 8], held: &[u8; 32], t: TaskID)
    ensures { ready.new ≡
        to_tail base.now ceiling held.now t.0 ready.old }
{
    let p = kernel_line::of_task(base, t);
    put_tail(ready, base, ceiling, held, p, t);
}
