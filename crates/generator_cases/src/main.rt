// Draws on good and bad input, all of it against all: each row has a state, a seed, a span and the weights of delay and
// wake, and then what `generator::draw` answers. Document 01's order of a draw's checks is 1, 17, 18, 2; a refused draw
// draws nothing and leaves the seed.
#![tactic(auto)]

use generator::{Drawn, Profile};
use kernel::{Command, Kernel};
use std::io;

fn stepped(k: Kernel, op: u8, a: u8, b: u8, value: u64) -> Kernel {
    let s = k.step(Command { op, a, b, value });
    let next = s.next;
    next
}

// create 1 3, create 2 5, create 3 3, object 1 4
fn set_up() -> Kernel {
    let k = stepped(stepped(Kernel::fresh(), 1, 1, 3, 0), 1, 2, 5, 0);
    stepped(stepped(k, 1, 3, 3, 0), 2, 1, 4, 0)
}

// 0 is not started, 1 is; the others are forged: idle has a base, a task stands twice, a task is above 31, an object is
// held that is not declared, a way is left where nothing is held, a waiter is ready.
fn state(n: u64, early: Kernel, on: Kernel) -> Kernel {
    if n == 0 {
        return early;
    }
    let mut k = on;
    match n {
        1 => {}
        2 => k.base[0] = 1,
        3 => k.ready[1] = 2,
        4 => k.ready[3] = 200,
        5 => k.held[2] = 7,
        6 => k.way[1] = 1,
        _ => k.waiter[1] = 1,
    }
    k
}

fn span(n: u64) -> u32 {
    match n {
        0 => 0,
        1 => 1,
        2 => 1000000,
        _ => 1000001,
    }
}

fn number(rt: &impl Print, x: u64) -> io::Result<()> {
    print!(rt; "{x} ")
}

fn show(rt: &impl Print, d: Drawn) -> io::Result<()> {
    let c = d.command;
    number(rt, d.code as u64)?;
    number(rt, c.op as u64)?;
    number(rt, c.a as u64)?;
    number(rt, c.b as u64)?;
    number(rt, c.value)?;
    let left = d.seed;
    println!(rt; "{left}")
}

// Row i: the state is the highest digit of i, wake's weight the lowest.
fn row(rt: &impl Print, i: u64, early: Kernel, on: Kernel) -> io::Result<()> {
    let seed = (i / 16 % 2) as u32;
    let p = Profile {
        span: span(i / 4 % 4),
        weights: [
            100 + (i / 2 % 2) as u32,
            (i % 2) as u32,
            10,
            10,
            10,
            10,
            10,
            10,
        ],
    };
    number(rt, i / 32)?;
    number(rt, seed as u64)?;
    number(rt, p.span as u64)?;
    number(rt, 100 + i / 2 % 2)?;
    number(rt, i % 2)?;
    show(rt, generator::draw(state(i / 32, early, on), seed, p))
}

fn main(rt: HostRuntime) -> io::Result<()> {
    let early = set_up();
    let on = stepped(early, 3, 0, 0, 0);
    println!(rt; "state seed span delay wake code op a b value left")?;
    for i in 0..256u64 {
        row(&rt, i, early, on)?;
    }
    Ok(())
}
