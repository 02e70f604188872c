// The chip's own delay queue, by value: insertion, search, Wake and "Wakes left". Each function is total, and its
// contract is an equation with a definition of queue_chip/specs/Queue, whatever the queue holds.
#![tactic(auto)]

ghost use Rattle.std.specs.Prelude.{◌≡◌};
ghost use Rattle.rules.specs.Line.{at};
ghost use Rattle.queue_chip.specs.Queue.{older, aged, pushed, tabled, sooner, searched, taken, how_many};
ghost use Rattle.queue_chip.specs.Queue as chip;

use kernel_line::{TaskID, of_task, one_more, set_task, set_time, time_of};
use numbers::choose;
pub use queue_chip::Queue;
use rules::Kind;

// Nobody is delayed.
pub fn none() -> Queue
    ensures { result ≡ chip.none }
{
    Queue {
        task: 0,
        time: 0,
        age: 0,
        times: [0; 32],
        ages: [0; 32],
    }
}

// ---- the table

// An age beside the time m, where one more comes in for the time n.
fn older_by(n: u64, m: u64, age: u8) -> u8
    ensures { result ≡ older n m age }
{
    choose((age != 0) & (m == n), one_more(age), age)
}

// The ages of the table, where one more comes in for the time n.
fn aged_by(n: u64, times: [u64; 32], ages: [u8; 32]) -> [u8; 32]
    ensures { result ≡ aged n times ages }
{
    let mut out = ages;
    let mut i = 0;
    while i < 32 {
        let age = older_by(n, times[i], ages[i]);
        out[i] = age;
        i += 1;
    }
    out
}

// A cell with the time n and the age a stands before one with the time m and the age b.
fn is_sooner(n: u64, a: u8, m: u64, b: u8) -> bool
    ensures { result ≡ sooner n a m b }
{
    (a != 0) & ((b == 0) | (n < m) | ((n == m) & (b < a)))
}

// The search: the task of the table with the least time, of equal times the oldest; 0 where the table has none.
pub fn find(times: [u64; 32], ages: [u8; 32]) -> TaskID
    ensures { result ≡ record { 0 = searched times ages } }
{
    let mut best = 0u8;
    let mut k = 0u8;
    while k < 32 {
        let i = k as usize;
        let j = best as usize;
        if is_sooner(times[i], ages[i], times[j], ages[j]) {
            best = k;
        }
        k += 1;
    }
    TaskID(best)
}

// How many cells of the table stand before one with the time m and the age b.
fn count_sooner(times: [u64; 32], ages: [u8; 32], m: u64, b: u8) -> u8
    ensures { result ≡ how_many 32 (λ u. sooner (at times u) (at ages u) m b) }
{
    let mut n = 0u8;
    let mut i = 0;
    while i < 32 {
        if is_sooner(times[i], ages[i], m, b) {
            n += 1;
        }
        i += 1;
    }
    n
}

// ---- insertion

// What the registers hold goes to the table, and task t, until n, into the registers.
fn push(n: u64, t: TaskID, q: Queue) -> Queue
    ensures { result ≡ pushed n t.0 q }
{
    let mut times = q.times;
    let mut ages = q.ages;
    let task = q.task;
    let time = q.time;
    let age = q.age;
    set_time(&mut times, TaskID(task), time);
    set_task(&mut ages, TaskID(task), age);
    Queue {
        task: t.0,
        time: n,
        age: 1,
        times,
        ages,
    }
}

// Task t goes into the table, as the youngest of the time n.
fn put(n: u64, t: TaskID, q: Queue) -> Queue
    ensures { result ≡ tabled n t.0 q }
{
    let mut times = q.times;
    let held = q.ages;
    let time = q.time;
    let age = q.age;
    let own = older_by(n, time, age);
    let mut ages = aged_by(n, times, held);
    set_time(&mut times, t, n);
    set_task(&mut ages, t, 1);
    Queue {
        task: q.task,
        time,
        age: own,
        times,
        ages,
    }
}

// Task t sleeps until n.
pub fn insert(n: u64, t: TaskID, q: Queue) -> Queue
    ensures { result ≡ chip.insert n t.0 q }
{
    let task = q.task;
    let time = q.time;
    if task == 0 {
        let times = q.times;
        let ages = q.ages;
        return Queue {
            task: t.0,
            time: n,
            age: 1,
            times,
            ages,
        };
    }
    if n < time {
        push(n, t, q)
    } else {
        put(n, t, q)
    }
}

// ---- wake

// The registers are emptied, and filled by the search.
pub fn refill(q: Queue) -> Queue
    ensures { result ≡ taken q }
{
    let mut times = q.times;
    let mut ages = q.ages;
    let s = find(times, ages);
    let time = time_of(&times, s);
    let age = of_task(&ages, s);
    set_time(&mut times, s, 0);
    set_task(&mut ages, s, 0);
    Queue {
        task: s.0,
        time,
        age,
        times,
        ages,
    }
}

// Whom a Wake at that clock releases, 0 for nobody.
pub fn woken(now: u64, q: Queue) -> TaskID
    ensures { result ≡ record { 0 = chip.woken now q } }
{
    let task = q.task;
    let time = q.time;
    TaskID(choose((task != 0) & (time <= now), task, 0))
}

// The queue behind that Wake.
pub fn wake(now: u64, q: Queue) -> Queue
    ensures { result ≡ chip.wake now q }
{
    let task = q.task;
    let time = q.time;
    let due = (task != 0) & (time <= now);
    if due { refill(q) } else { q }
}

// "Wakes left" of a task.
pub fn wakes_left(now: u64, t: TaskID, q: Queue) -> u8
    ensures { result ≡ chip.left now t.0 q }
{
    let times = q.times;
    let ages = q.ages;
    let task = q.task;
    let time = q.time;
    if task == t.0 {
        return choose((task != 0) & (time <= now), 1, 0);
    }
    let m = time_of(&times, t);
    let b = of_task(&ages, t);
    let n = count_sooner(times, ages, m, b);
    let due = (b != 0) & (m <= now);
    choose(due, n + 2, 0)
}

// ---- beside a machine

// The queue behind an accepted command: its kind and its value, and the clock and the runner before it. A delay that is
// not above the clock queues nobody.
pub fn follow(k: Kind, now: u64, value: u64, runner: TaskID, q: Queue) -> Queue
    ensures { result ≡ chip.follow k now value runner.0 q }
{
    match k {
        Kind::Delaying => if now < value {
            insert(value, runner, q)
        } else {
            q
        },
        Kind::Waking => wake(now, q),
        _ => q,
    }
}
