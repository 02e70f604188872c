// A run is a seed: 100,000 draws with their steps, from eight tasks and five objects. Each line tells how far it is,
// the running task, the clock and the seed, and a number that changes with any command and any answer on the way.
#![tactic(auto)]

use generator::{Carried, Profile};
use kernel::{Answer, Command, Kernel};
use std::io;

// What is told of a run.
#[derive(Clone, Copy)]
struct Course {
    seed: u32,
    running: u8,
    sum: u64,
}

// A run that is being set up, with its state.
#[derive(Clone, Copy)]
struct Setup {
    k: Kernel,
    at: Course,
}

fn mixed(sum: u64, x: u64) -> u64 {
    (sum % 4294967296 * 31 + x % 4294967296 + x / 4294967296) % 4294967296
}

fn told(sum: u64, c: Command, code: u8, running: u8, released: u8) -> u64 {
    let asked = mixed(
        mixed(mixed(mixed(sum, c.op as u64), c.a as u64), c.b as u64),
        c.value,
    );
    mixed(
        mixed(mixed(asked, code as u64), running as u64),
        released as u64,
    )
}

fn behind(r: Course, c: Command, a: Answer) -> Course {
    let running = a.running;
    let released = a.released;
    Course {
        seed: r.seed,
        running: running.0,
        sum: told(r.sum, c, a.code, running.0, released.0),
    }
}

fn asked(s: Setup, op: u8, a: u8, b: u8) -> Setup {
    let c = Command { op, a, b, value: 0 };
    let k = s.k;
    let t = k.step(c);
    let next = t.next;
    Setup {
        k: next,
        at: behind(s.at, c, t.answer),
    }
}

// Eight tasks, five objects, and the start.
fn begun(seed: u32) -> Setup {
    let at = Course {
        seed,
        running: 0,
        sum: 0,
    };
    let new = Setup {
        k: Kernel::fresh(),
        at,
    };
    let a = asked(asked(asked(asked(new, 1, 1, 3), 1, 2, 5), 1, 3, 3), 1, 4, 9);
    let b = asked(asked(asked(asked(a, 1, 5, 1), 1, 6, 15), 1, 7, 7), 1, 31, 5);
    let c = asked(asked(asked(b, 2, 1, 4), 2, 2, 9), 2, 3, 15);
    asked(asked(asked(c, 2, 4, 5), 2, 7, 12), 3, 0, 0)
}

// A draw with its step. The code of the draw goes into the sum as well.
fn drawn(r: Course, x: Carried) -> Course {
    let d = x.drawn;
    let sum = mixed(r.sum, d.code as u64);
    let at = Course {
        seed: d.seed,
        running: r.running,
        sum,
    };
    behind(at, d.command, x.answer)
}

fn number(rt: &impl Print, x: u64) -> io::Result<()> {
    print!(rt; " {x}")
}

fn show(rt: &impl Print, n: u64, clock: u64, r: Course) -> io::Result<()> {
    print!(rt; "{n}")?;
    number(rt, r.running as u64)?;
    number(rt, clock)?;
    number(rt, r.seed as u64)?;
    number(rt, r.sum)?;
    println!(rt)
}

// A line for each 10,000 draws.
fn show_some(rt: &impl Print, n: u64, clock: u64, r: Course) -> io::Result<()> {
    if n % 10000 == 0 {
        show(rt, n, clock, r)?;
    }
    Ok(())
}

// The state's tables stand in locals, and each draw is carried out there.
fn run(rt: &impl Print, s: Setup, p: Profile) -> io::Result<()> {
    let k = s.k;
    let mut base = k.base;
    let mut ready = k.ready;
    let mut delayed = k.delayed;
    let mut held = k.held;
    let mut way = k.way;
    let mut until = k.until;
    let mut ceiling = k.ceiling;
    let mut waiter = k.waiter;
    let mut clock = k.clock;
    let mut started = k.started;
    let mut at = s.at;
    let mut n: u64 = 0;
    while n < 100000 {
        let x = generator::in_place::draw_and_step(
            &mut base,
            &mut ready,
            &mut delayed,
            &mut held,
            &mut way,
            &mut until,
            &mut ceiling,
            &mut waiter,
            &mut clock,
            &mut started,
            at.seed,
            p,
        );
        at = drawn(at, x);
        n += 1;
        show_some(rt, n, clock, at)?;
    }
    Ok(())
}

fn main(rt: HostRuntime) -> io::Result<()> {
    let p = Profile {
        span: 1000,
        weights: [10, 30, 20, 10, 10, 10, 20, 10],
    };
    let s = begun(1);
    let k = s.k;
    println!(rt; "draws running clock seed sum")?;
    show(&rt, 0, k.clock, s.at)?;
    run(&rt, s, p)
}
