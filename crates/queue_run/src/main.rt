// The chip's delay queue beside the kernel's delay line: 100,000 draws with their steps from each of two seeds, one of
// them above 2^31, with all 31 tasks. In the first run one command in nine leaves all delayed, and many sleep until the
// same time; in the second it grows and falls. Each line tells how far a run is, the running task, the clock and the
// seed, the queue's registers, how many are delayed, and a number that changes with any command, any answer and any
// registers on the way. The last line of a run counts.
#![tactic(auto)]

use generator::{Carried, Profile};
use kernel::{Answer, Command, Kernel, TaskID};
use queue::Queue;
use std::io;

const DELAY: u8 = 4;

const WAKE: u8 = 5;

// What is told of a run, and what is counted: commands that left nobody delayed, and all; insertions for a time that
// was there; the greatest age in the registers; and where the queue did not answer as the line does.
#[derive(Clone, Copy)]
struct Course {
    seed: u32,
    running: u8,
    sum: u64,
    empty: u64,
    full: u64,
    tied: u64,
    oldest: u8,
    differing: u64,
}

// A run: the kernel, and the queue beside it.
#[derive(Clone, Copy)]
struct Beside {
    k: Kernel,
    q: Queue,
    at: Course,
}

// The state behind a draw with its step, and what was drawn and answered.
#[derive(Clone, Copy)]
struct Moved {
    next: Kernel,
    x: Carried,
}

// ---- the sum, and what is counted

fn mixed(sum: u64, x: u64) -> u64 {
    (sum % 4294967296 * 31 + x % 4294967296 + x / 4294967296) % 4294967296
}

fn told(sum: u64, c: Command, code: u8, running: u8, released: u8) -> u64 {
    let asked = mixed(
        mixed(mixed(mixed(sum, c.op as u64), c.a as u64), c.b as u64),
        c.value,
    );
    mixed(
        mixed(mixed(asked, code as u64), running as u64),
        released as u64,
    )
}

fn behind(r: Course, c: Command, a: Answer) -> Course {
    let running = a.running;
    let released = a.released;
    let mut next = r;
    next.running = running.0;
    next.sum = told(r.sum, c, a.code, running.0, released.0);
    next
}

// One more, where it is so.
fn more(n: u64, so: bool) -> u64 {
    if so { n % 4294967296 + 1 } else { n }
}

// What the queue answers goes into the sum. It must be what the line answers.
fn compared(r: Course, by_queue: u8, by_line: u8) -> Course {
    let mut next = r;
    next.sum = mixed(r.sum, by_queue as u64);
    next.differing = more(r.differing, by_queue != by_line);
    next
}

fn registers(r: Course, q: Queue) -> Course {
    let mut next = r;
    next.sum = mixed(mixed(mixed(r.sum, q.task as u64), q.time), q.age as u64);
    next.oldest = numbers::choose(r.oldest < q.age, q.age, r.oldest);
    next
}

// How many sleep until that time.
fn sleepers(until: [u64; 32], time: u64) -> u8 {
    let mut n = 0u8;
    let mut i = 0;
    while i < 32 {
        if until[i] == time {
            n += 1;
        }
        i += 1;
    }
    n
}

// How many are delayed.
fn sleeping(k: Kernel) -> u8 {
    let delayed = k.delayed;
    kernel_line::lead_task(delayed, Kernel::IDLE)
}

// By the line behind the command, and the clock before it.
fn counted(r: Course, c: Command, now: u64, k: Kernel) -> Course {
    let until = k.until;
    let inserts = (c.op == DELAY) & (now < c.value);
    let many = 1 < sleepers(until, c.value);
    let all = sleeping(k);
    let mut next = r;
    next.empty = more(r.empty, all == 0);
    next.full = more(r.full, all == 31);
    next.tied = more(r.tied, inserts & many);
    next
}

// ---- the set-up

fn asked(r: Beside, op: u8, a: u8, b: u8) -> Beside {
    let c = Command { op, a, b, value: 0 };
    let k = r.k;
    let q = r.q;
    let s = k.step(c);
    let next = s.next;
    Beside {
        k: next,
        q,
        at: behind(r.at, c, s.answer),
    }
}

// All tasks, with bases that go round 1..15 in steps of 7.
fn created(b: Beside) -> Beside {
    let mut out = b;
    let mut t = 1u8;
    while t < 32 {
        out = asked(out, 1, t, t * 7 % 15 + 1);
        t += 1;
    }
    out
}

fn new(seed: u32) -> Beside {
    let at = Course {
        seed,
        running: 0,
        sum: 0,
        empty: 0,
        full: 0,
        tied: 0,
        oldest: 0,
        differing: 0,
    };
    Beside {
        k: Kernel::fresh(),
        q: queue::none(),
        at,
    }
}

// The tasks, three objects, and the start.
fn begun(seed: u32) -> Beside {
    let a = created(new(seed));
    asked(asked(asked(asked(a, 2, 1, 15), 2, 4, 8), 2, 7, 12), 3, 0, 0)
}

// ---- a draw with its step, and the queue beside it

fn carried(k: Kernel, seed: u32, p: Profile) -> Moved {
    let mut base = k.base;
    let mut ready = k.ready;
    let mut delayed = k.delayed;
    let mut held = k.held;
    let mut way = k.way;
    let mut until = k.until;
    let mut ceiling = k.ceiling;
    let mut waiter = k.waiter;
    let mut clock = k.clock;
    let mut started = k.started;
    let x = generator::in_place::draw_and_step(
        &mut base,
        &mut ready,
        &mut delayed,
        &mut held,
        &mut way,
        &mut until,
        &mut ceiling,
        &mut waiter,
        &mut clock,
        &mut started,
        seed,
        p,
    );
    let next = Kernel {
        base,
        ready,
        delayed,
        held,
        way,
        until,
        ceiling,
        waiter,
        clock,
        started,
    };
    Moved { next, x }
}

// The code of the draw goes into the sum as well.
fn drawn(r: Course, x: Carried) -> Course {
    let d = x.drawn;
    let mut at = r;
    at.seed = d.seed;
    at.sum = mixed(r.sum, d.code as u64);
    behind(at, d.command, x.answer)
}

// Whom the queue would release, where the command is a Wake.
fn woken(r: Course, c: Command, by_queue: TaskID, a: Answer) -> Course {
    let by_line = a.released;
    if c.op == WAKE {
        compared(r, by_queue.0, by_line.0)
    } else {
        r
    }
}

// The queue behind the command: a refused one leaves it.
fn followed(q: Queue, c: Command, now: u64, runner: u8, a: Answer) -> Queue {
    if a.code == 0 {
        queue::follow(c.kind(), now, c.value, TaskID(runner), q)
    } else {
        q
    }
}

// The clock and the runner are those before the step, for the queue goes by them.
fn stepped(b: Beside, p: Profile) -> Beside {
    let k = b.k;
    let q = b.q;
    let at = b.at;
    let now = k.clock;
    let s = carried(k, at.seed, p);
    let next = s.next;
    let x = s.x;
    let d = x.drawn;
    let c = d.command;
    let after = followed(q, c, now, at.running, x.answer);
    let said = woken(drawn(at, x), c, queue::woken(now, q), x.answer);
    Beside {
        k: next,
        q: after,
        at: counted(registers(said, after), c, now, next),
    }
}

// Every 16th time "Wakes left" of a task is asked of both; 16 and 31 have no common factor, so each task has its turn.
fn questioned(n: u64, b: Beside) -> Beside {
    if n % 16 != 0 {
        return b;
    }
    let k = b.k;
    let q = b.q;
    let t = TaskID((n % 31 + 1) as u8);
    let by_line = k.wakes_left(t);
    let mut at = compared(b.at, queue::wakes_left(k.clock, t, q), by_line.left);
    at.sum = mixed(at.sum, by_line.left as u64);
    Beside { k, q, at }
}

// ---- what is printed

fn number(rt: &impl Print, x: u64) -> io::Result<()> {
    print!(rt; " {x}")
}

fn show(rt: &impl Print, n: u64, b: Beside) -> io::Result<()> {
    let k = b.k;
    let q = b.q;
    let r = b.at;
    print!(rt; "{n}")?;
    number(rt, r.running as u64)?;
    number(rt, k.clock)?;
    number(rt, r.seed as u64)?;
    number(rt, q.task as u64)?;
    number(rt, q.time)?;
    number(rt, q.age as u64)?;
    number(rt, sleeping(k) as u64)?;
    number(rt, r.sum)?;
    println!(rt)
}

// A line for each 10,000 draws.
fn show_some(rt: &impl Print, n: u64, b: Beside) -> io::Result<()> {
    if n % 10000 == 0 {
        show(rt, n, b)?;
    }
    Ok(())
}

fn show_counts(rt: &impl Print, r: Course) -> io::Result<()> {
    print!(rt; "empty, full, tied, oldest, differing:")?;
    number(rt, r.empty)?;
    number(rt, r.full)?;
    number(rt, r.tied)?;
    number(rt, r.oldest as u64)?;
    number(rt, r.differing)?;
    println!(rt)
}

fn run(rt: &impl Print, seed: u32, p: Profile) -> io::Result<()> {
    let mut b = begun(seed);
    let mut n: u64 = 0;
    show(rt, n, b)?;
    while n < 100000 {
        n += 1;
        b = questioned(n, stepped(b, p));
        show_some(rt, n, b)?;
    }
    show_counts(rt, b.at)
}

fn main(rt: HostRuntime) -> io::Result<()> {
    let filling = Profile {
        span: 3,
        weights: [100, 20, 5, 4, 30, 30, 1, 30],
    };
    let swaying = Profile {
        span: 9,
        weights: [60, 50, 12, 6, 20, 20, 1, 20],
    };
    println!(rt; "draws running clock seed task time age delayed sum")?;
    run(&rt, 1, filling)?;
    run(&rt, 4294967295, swaying)
}
