// The command that a draw makes, by either edition: what the kinds weigh, which kind is chosen, and its operands.
// The tables are lent to be read, or go by value, and all of them get an answer, whatever they hold.
#![tactic(auto)]

ghost use Rattle.std.specs.Prelude.{◌+◌, ◌%◌, ◌≤◌, ◌^◌, ◌≡◌, cond, ltb, length, get_or};
ghost use Rattle.rules.specs.Line.{at};
ghost use Rattle.generator_draws.specs.Menu.{sift, objects};
ghost use Rattle.generator_draws.specs.Draw.{remainder_if_needed};
ghost use Rattle.generator_menu.specs.Public.{chosen_of, evenly_of};
ghost use Rattle.generator_menu.specs.Tables as tables;

use generator_lent::{choice_from, choice_if_needed};
use kernel_checks::Command;
use kernel_line::POId;
use numbers::wider;

// ---- Numbers

// x mod n; by 0 it is x, as in specs/, so that nothing is asked of n.
fn remainder(x: u64, n: u64) -> u64
    ensures { result ≡ x % n }
{
    if n == 0 { x } else { x % n }
}

// The remainder of a draw, where a number below n is needed; 0 where none is (n = 0).
fn needed(x: u32, n: u64) -> u32
    ensures { result ≡ remainder_if_needed n x }
{
    if n == 0 { 0 } else { (x as u64 % n) as u32 }
}

// ---- The eligible objects

// To a runner of that base: declared, ceiling at least the base, not held.
fn is_eligible(ceiling: [u8; 8], held: &[u8; 32], base: u8, o: u8) -> bool
    ensures { result ≡ tables.eligible_in ceiling held.now base o }
{
    let top = kernel_line::of_object(ceiling, POId(o));
    let n = kernel_line::holders(held, POId(o));
    !(top == 0) & (base <= top) & !(1 <= n)
}

// How many of the objects 1..7 are eligible.
fn count_eligible(ceiling: [u8; 8], held: &[u8; 32], base: u8) -> u64
    ensures { result ≡ length (sift (tables.eligible_in ceiling held.now base) objects) }
{
    let mut n = 0u64;
    let mut o = 1u8;
    while o < 8 {
        if is_eligible(ceiling, held, base, o) {
            n += 1;
        }
        o += 1;
    }
    n
}

// The eligible object number `n`, counted from 0 upward; 0 where there are not so many.
fn nth_eligible(ceiling: [u8; 8], held: &[u8; 32], base: u8, n: u64) -> u8
    ensures { result ≡ get_or (sift (tables.eligible_in ceiling held.now base) objects) n 0 }
{
    let mut left = n;
    let mut o = 1u8;
    while o < 8 {
        if is_eligible(ceiling, held, base, o) {
            if left == 0 {
                return o;
            }
            left -= 1;
        }
        o += 1;
    }
    0
}

// ---- What a draw looks at

// Of the runner: it is not idle and holds nothing, or it is inside an open or an entry; the object that it holds, 0 for
// none; and its base. Of the objects: how many are eligible. Of the clock: the span fits.
#[derive(Clone, Copy)]
struct Sight {
    free: bool,
    opened: bool,
    entered: bool,
    hand: u8,
    level: u8,
    count: u64,
    room: bool,
}

// clock + span is at most 2^64-1, without a wrap.
fn has_room(clock: u64, span: u32) -> bool
    ensures { result ≡ ltb (clock + span) (2 ^ 64) }
{
    wider(span) <= u64::MAX - clock
}

// What the draw sees of the tables.
fn look(
    base: &[u8; 32],
    ready: &[u8; 32],
    held: &[u8; 32],
    way: &[u8; 32],
    ceiling: [u8; 8],
    clock: u64,
    span: u32,
) -> Sight
    ensures { result ≡ tables.sight_in
        base.now ready.now held.now way.now ceiling clock span }
{
    let runner = kernel_ready::runner(ready);
    let level = kernel_line::of_task(base, runner);
    let hand = kernel_line::of_task(held, runner);
    let how = kernel_line::of_task(way, runner);
    let count = count_eligible(ceiling, held, level);
    Sight {
        free: !(runner.0 == 0) & (hand == 0),
        opened: !(hand == 0) & (how == rules::FOR_OPEN),
        entered: !(hand == 0) & (how == rules::FOR_ENTRY),
        hand,
        level,
        count,
        room: has_room(clock, span),
    }
}

// ---- The choice by weights

// The weight of a kind, if it is legal.
fn worth(legal: bool, w: u32) -> u32
    ensures { result ≡ cond legal w 0 }
{
    if legal { w } else { 0 }
}

// What each kind weighs: its weight if it is legal, and else nothing.
fn worths(s: Sight, w: [u32; 8]) -> [u32; 8]
    ensures { result ≡ tables.worths_of s w }
{
    let delay = worth(s.free & s.room, w[0]);
    let advance = worth(s.room, w[2]);
    let some = !(s.count == 0);
    let open = worth(s.free & some, w[3]);
    let closep = worth(s.opened, w[4]);
    let closef = worth(s.opened, w[5]);
    let entry = worth(s.free & some, w[6]);
    let done = worth(s.entered, w[7]);
    [delay, w[1], advance, open, closep, closef, entry, done]
}

// S, the sum of the legal weights.
fn sum(w: [u32; 8]) -> u64
    ensures { result ≡ tables.sum_of w }
{
    let mut s = 0u64;
    let mut i = 0;
    while i < 8 {
        s += wider(w[i]);
        i += 1;
    }
    s
}

// The first whose running sum exceeds d: d less the sum before it is below its weight. 8 where there is none.
fn kind_for(d: u64, w: [u32; 8]) -> u8
    ensures { result ≡ tables.index_of d w }
{
    let mut left = d;
    let mut i = 0u8;
    while i < 8 {
        let j = i as usize;
        let x = wider(w[j]);
        if left < x {
            return i;
        }
        left -= x;
        i += 1;
    }
    8
}

// ---- The command

// A cell of a column of the menu, 0 past its end: a column is indexed by a kind.
fn cell(column: [u8; 8], i: u8) -> u8
    ensures { result ≡ at column i }
{
    if i < 8 {
        let j = i as usize;
        column[j]
    } else {
        0
    }
}

fn long_cell(column: [u64; 8], i: u8) -> u64
    ensures { result ≡ at column i }
{
    if i < 8 {
        let j = i as usize;
        column[j]
    } else {
        0
    }
}

// Below which number the operand of kind i is chosen, 0 for one that is not needed.
fn operand_below(i: u8, s: Sight, span: u32) -> u64
    ensures { result ≡ tables.operand_at s span i }
{
    let count = s.count;
    let ticks = wider(span);
    let times = ticks + 1;
    let column = [times, 0, ticks, count, 0, 0, count, 0];
    long_cell(column, i)
}

// The object that a command of kind i names: the eligible one of that number, or the one that is held; 0 for none.
fn object_for(i: u8, s: Sight, ceiling: [u8; 8], held: &[u8; 32], x: u32) -> u8
    ensures { result ≡ tables.object_at ceiling held.now s i x }
{
    if (i == 3) | (i == 6) {
        nth_eligible(ceiling, held, s.level, wider(x))
    } else {
        let hand = s.hand;
        let column = [0, 0, 0, 0, hand, hand, 0, hand];
        cell(column, i)
    }
}

// Nobody waits on the object.
fn is_quiet(waiter: [u8; 8], o: u8) -> bool
    ensures { result ≡ tables.quiet_at waiter o }
{
    kernel_line::of_object(waiter, POId(o)) == 0
}

// Below which number the barrier is chosen, 0 for one that is not needed: an entry's is 1 where the object has a
// waiter.
fn barrier_below(i: u8, quiet: bool) -> u64
    ensures { result ≡ tables.barrier_at quiet i }
{
    let entry = numbers::choose(quiet, 2, 0);
    let column = [0, 0, 0, 0, 2, 0, entry, 2];
    cell(column, i) as u64
}

// A sum that does not fit is no time: a delay is not legal there.
fn delay_time(clock: u64, x: u32) -> u64
    ensures { result ≡ tables.delay_time clock x }
{
    if has_room(clock, x) {
        clock + wider(x)
    } else {
        0
    }
}

// The command of kind i, by the menu's columns, of an object and the two numbers; no command for 8.
fn command_for(i: u8, clock: u64, object: u8, quiet: bool, x: u32, y: u32) -> Command
    ensures { result ≡ tables.command_at clock object quiet x y i }
{
    let barrier = (y % 256) as u8;
    let at_entry = numbers::choose(quiet, barrier, 1);
    let delay = delay_time(clock, x);
    let advance = 1 + wider(x);
    let ops = [4, 5, 6, 7, 8, 9, 10, 11];
    let seconds = [0, 0, 0, 0, barrier, 0, at_entry, barrier];
    let values = [delay, 0, advance, 0, 0, 0, 0, 0];
    Command {
        op: cell(ops, i),
        a: object,
        b: cell(seconds, i),
        value: long_cell(values, i),
    }
}

// ---- Edition 1

// The command that three draws choose: its kind by the first, its operand by the second, its barrier by the third.
pub fn pick_command(
    base: &[u8; 32],
    ready: &[u8; 32],
    held: &[u8; 32],
    way: &[u8; 32],
    ceiling: [u8; 8],
    waiter: [u8; 8],
    clock: u64,
    span: u32,
    weights: [u32; 8],
    d1: u32,
    d2: u32,
    d3: u32,
) -> Command
    ensures { result ≡ chosen_of
        base.now ready.now held.now way.now
        ceiling waiter clock span weights d1 d2 d3 }
{
    let s = look(base, ready, held, way, ceiling, clock, span);
    let w = worths(s, weights);
    let i = kind_for(remainder(wider(d1), sum(w)), w);
    let x = needed(d2, operand_below(i, s, span));
    let object = object_for(i, s, ceiling, held, x);
    let quiet = is_quiet(waiter, object);
    let y = needed(d3, barrier_below(i, quiet));
    command_for(i, clock, object, quiet, x, y)
}

// ---- Edition 2

// What a draw of edition 2 makes: the command, the seed left behind, and the draws spent.
#[derive(Clone, Copy)]
pub struct Made {
    pub command: Command,
    pub seed: u32,
    pub spent: u8,
}

// Behind the choice of kind i, which left that seed and spent so many draws: operand and barrier are each one even
// choice; what is not needed spends one draw.
fn finish(
    i: u8,
    s: Sight,
    held: &[u8; 32],
    ceiling: [u8; 8],
    waiter: [u8; 8],
    clock: u64,
    span: u32,
    seed: u32,
    spent: u8,
) -> Made
    requires { spent ≤ 8 }
    ensures { result ≡ tables.finished_at held.now ceiling waiter clock span s i seed spent }
{
    let operand = choice_if_needed(seed, operand_below(i, s, span));
    let object = object_for(i, s, ceiling, held, operand.number);
    let quiet = is_quiet(waiter, object);
    let barrier = choice_if_needed(operand.seed, barrier_below(i, quiet));
    let command = command_for(i, clock, object, quiet, operand.number, barrier.number);
    Made {
        command,
        seed: barrier.seed,
        spent: spent + operand.spent + barrier.spent,
    }
}

// Kind, operand and barrier are made one after another, the kind by an even choice too.
pub fn make_evenly(
    base: &[u8; 32],
    ready: &[u8; 32],
    held: &[u8; 32],
    way: &[u8; 32],
    ceiling: [u8; 8],
    waiter: [u8; 8],
    clock: u64,
    span: u32,
    weights: [u32; 8],
    seed: u32,
) -> Made
    ensures { result ≡ evenly_of
        base.now ready.now held.now way.now
        ceiling waiter clock span weights seed }
{
    let s = look(base, ready, held, way, ceiling, clock, span);
    let w = worths(s, weights);
    let kind = choice_from(seed, sum(w));
    let i = kind_for(wider(kind.number), w);
    finish(
        i, s, held, ceiling, waiter, clock, span, kind.seed, kind.spent,
    )
}
