// Cases of the step and of the test of a saved state: a table on standard input, in the file stdin. A line of it is
//
//   fresh                the machine at hand is the fresh one
//   do OP A B VALUE      a command to the machine at hand: it prints code, running, released, 1 if an exception is
//                        shown, else 0, the clock, and 1 if the state is as it was, else 0
//   ask TASK             "Wakes left" of the machine at hand: it prints code and count
//   keep N, take N       the machine at hand is kept as N, 1..4; a kept one is at hand again
//   each OP A B VALUE    one command to each of the four that are kept: it prints code, running, released and the
//                        exception of each
//   put TABLE I VALUE    a cell of the machine at hand is set, which no command does; of `pending` bit I
//   spoil TABLE I VALUE  the same; it prints what is said of that state, and the machine that was kept or taken last is
//                        at hand again
//
// or is passed over. What is said of a state: 1 if it is sound, else 0; code, running, released and the exception of
// `advance 0`, and 1 if the state came back as it was; the code of op 0; code and count of "Wakes left" of task 1. What is printed
// begins with the number of its line in the table. expected.py and host/hostile.c read the same table.
#![tactic(auto)]

use kernel::{Command, Kernel, TaskID};
use kernel_state::State;
use std::io;
use std::io::Read;

mod words;

use words::Words;

// The machine at hand, the one that was kept or taken last, and those that are kept: N stands at N mod 4.
#[derive(Clone, Copy)]
struct Bench {
    hand: State,
    last: State,
    kept: [State; 4],
}

// A word as its bytes, with zeros before them.
type Word = [u8; 8];

fn spelt(word: u64) -> Word {
    word.to_be_bytes()
}

fn command(w: Words) -> Command {
    Command {
        op: (w.a % 256) as u8,
        a: (w.b % 256) as u8,
        b: (w.c % 256) as u8,
        value: w.d,
    }
}

// Each number is written by itself: where a write fails, those before it are out.
fn shown(rt: &impl Print, n: u64) -> io::Result<()> {
    print!(rt; "{n} ")
}

fn shown_last(rt: &impl Print, n: u64) -> io::Result<()> {
    println!(rt; "{n}")
}

// Code, running, released and the exception of a command, and the state after it.
fn answered(rt: &impl Print, k: State, c: Command) -> io::Result<State> {
    let r = k.step(c);
    shown(rt, u64::from(r.answer.code))?;
    shown(rt, u64::from(r.answer.running.0))?;
    shown(rt, u64::from(r.answer.released.0))?;
    shown(rt, u64::from(r.answer.exception))?;
    Ok(r.next)
}

fn done(rt: &impl Print, k: State, c: Command) -> io::Result<State> {
    let next = answered(rt, k, c)?;
    shown(rt, next.kernel.clock)?;
    shown_last(rt, u64::from(k == next))?;
    Ok(next)
}

fn asked(rt: &impl Print, k: State, task: u64) -> io::Result<()> {
    let count = k.wakes_left(TaskID((task % 256) as u8));
    shown(rt, u64::from(count.code))?;
    shown_last(rt, u64::from(count.left))
}

fn each(rt: &impl Print, kept: [State; 4], c: Command) -> io::Result<()> {
    for k in [kept[1], kept[2], kept[3]] {
        answered(rt, k, c)?;
    }
    let r = kept[0].step(c);
    shown(rt, u64::from(r.answer.code))?;
    shown(rt, u64::from(r.answer.running.0))?;
    shown(rt, u64::from(r.answer.released.0))?;
    shown_last(rt, u64::from(r.answer.exception))
}

// Whether a line with that first word prints anything.
fn prints(word: Word) -> bool {
    matches!(
        &word,
        b"\0\0\0\0\0\0do" | b"\0\0\0\0each" | b"\0\0\0\0\0ask" | b"\0\0\0spoil"
    )
}

// A command of that op with no operands.
fn bare(op: u8) -> Command {
    Command {
        op,
        a: 0,
        b: 0,
        value: 0,
    }
}

// What is said of a state.
fn said(rt: &impl Print, k: State) -> io::Result<()> {
    shown(rt, u64::from(k.sound()))?;
    let next = answered(rt, k, bare(6))?;
    shown(rt, u64::from(k == next))?;
    shown(rt, u64::from(k.step(bare(0)).answer.code))?;
    asked(rt, k, 1)
}

// A cell is set. (A place that a table does not have is one that it has.)
fn put_cell(k: Kernel, table: Word, at: u64, value: u64) -> Kernel {
    let mut next = k;
    let t = (at % 32) as usize;
    let o = (at % 8) as usize;
    let v = (value % 256) as u8;
    match &table {
        b"\0\0\0\0base" => next.base[t] = v,
        b"\0\0\0ready" => next.ready[t] = v,
        b"\0delayed" => next.delayed[t] = v,
        b"\0\0\0\0held" => next.held[t] = v,
        b"\0\0\0\0\0way" => next.way[t] = v,
        b"\0\0\0until" => next.until[t] = value,
        b"\0ceiling" => next.ceiling[o] = v,
        b"\0\0waiter" => next.waiter[o] = v,
        b"\0\0\0clock" => next.clock = value,
        _ => next.started = value == 1,
    }
    next
}

// Bit `at` of what is pending is that of the value.
fn put_bit(pending: u32, at: u64, value: u64) -> u32 {
    let bit = 1u32 << (at % 32);
    if value % 2 == 1 {
        pending | bit
    } else {
        pending & !bit
    }
}

fn put(s: State, table: Word, at: u64, value: u64) -> State {
    let mut next = s;
    match &table {
        b"\0pending" => next.pending = put_bit(s.pending, at, value),
        _ => next.kernel = put_cell(s.kernel, table, at, value),
    }
    next
}

// A line is carried out in place: a bench is six states, and a copy of it for each call would take the stack.
impl Bench {
    // The machine at hand, kept as n.
    fn keep(&mut self, n: u64) {
        let i = (n % 4) as usize;
        self.kept[i] = self.hand;
        self.last = self.hand;
    }

    fn take(&mut self, n: u64) {
        let i = (n % 4) as usize;
        self.hand = self.kept[i];
        self.last = self.hand;
    }

    fn spoil(&mut self, rt: &impl Print, w: Words) -> io::Result<()> {
        said(rt, put(self.hand, spelt(w.a), w.b, w.c))?;
        self.hand = self.last;
        Ok(())
    }

    // A line of the table is carried out.
    fn told(&mut self, rt: &impl Print, w: Words) -> io::Result<()> {
        if prints(spelt(w.word)) {
            shown(rt, w.line)?;
        }
        self.carried(rt, w)
    }

    fn carried(&mut self, rt: &impl Print, w: Words) -> io::Result<()> {
        let word = spelt(w.word);
        match &word {
            b"\0\0\0fresh" => self.hand = State::fresh(),
            b"\0\0\0\0\0\0do" => self.hand = done(rt, self.hand, command(w))?,
            b"\0\0\0\0\0put" => self.hand = put(self.hand, spelt(w.a), w.b, w.c),
            b"\0\0\0\0keep" => self.keep(w.a),
            b"\0\0\0\0take" => self.take(w.a),
            b"\0\0\0spoil" => self.spoil(rt, w)?,
            b"\0\0\0\0\0ask" => asked(rt, self.hand, w.a)?,
            b"\0\0\0\0each" => each(rt, self.kept, command(w))?,
            _ => {}
        }
        Ok(())
    }
}

// A byte of the input, or none at its end.
fn byte(input: &mut impl Read) -> Option<u8> {
    let mut one = [0u8; 1];
    match input.read(&mut one) {
        Ok(1) => Some(one[0]),
        _ => None,
    }
}

fn main(rt: HostRuntime) -> io::Result<()> {
    let mut input = rt.stdin();
    let k = State::fresh();
    let mut bench = Bench {
        hand: k,
        last: k,
        kept: [k; 4],
    };
    let mut w = Words::none(1);
    // Nothing says that the input ends, so the turns are as many as no run uses up.
    for _ in 0..u64::MAX {
        match byte(&mut input) {
            Some(b'\n') => {
                bench.told(&rt, w.parted())?;
                w = w.next_line();
            }
            Some(b' ') => w = w.parted(),
            Some(b) => w = w.longer(b),
            None => break,
        }
    }
    Ok(())
}
