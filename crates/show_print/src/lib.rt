// Walk's row and the block of the state under it, put into a buffer.
//
// The private functions put a part of it at a place where there is room. Each says how many bytes it puts at most. The
// tables go to them by value: a line of the block is a definition of the machine that they show.
#![tactic(auto)]

ghost use Rattle.std.specs.Prelude.{cond, [], ◌++◌, ◌≡◌, ◌+◌, ◌<◌, ◌≤◌, eqb, length};
ghost use Rattle.rules.specs.Line.{at, one_if};
ghost use Rattle.rules_exceptions.specs.Exceptions.{has};
ghost use Rattle.kernel_line.specs.Tables.{level};
ghost use Rattle.kernel.specs.View.{view, nobody_or};
ghost use Rattle.queue_chip.specs.Queue.{in_use};
ghost use Rattle.decimal.specs.Decimal.{decimal};
ghost use Rattle.decimal.specs.Buffer.{contents_after, place_after};
ghost use Rattle.text.specs.Printed.{walk_line, walk_room};
ghost use Rattle.text_print.specs.Put.{Put};
ghost use Rattle.show_text.specs.Block.{number, named, pair, flags_text, tasks_text, ready_text, delay_text};
ghost use Rattle.show_text.specs.Block.{pending_text, holder_below, numbers_text, object_line, object_text};
ghost use Rattle.show_text.specs.Block.{objects_text, entry_text, registers_text, table_text, block, show_room};
ghost use Rattle.show_print.specs.Seen.{Room, seen};

use decimal_print::put_decimal;
use kernel::Kernel;
use kernel_line::{POId, TaskID, of_object, of_task};
use numbers::choose;
use queue_chip::Queue;
use text::Row;
use text_print::{put_text, put_walk_line};

// ---- words and numbers

fn put(out: &mut [u8], at: usize, text: &[u8]) -> usize
    requires { at + length text.now ≤ length out.old }
    ensures { Put (length text.now) out.old at text.now out.new result }
{
    put_text(out, at, text)
}

// A text, and a number behind it.
fn put_number(out: &mut [u8], at: usize, text: &[u8], n: u64) -> usize
    requires { at + (length text.now + 20) ≤ length out.old }
    ensures { Put (length text.now + 20) out.old at (text.now ++ decimal n)
        out.new result }
{
    let next = put(out, at, text);
    put_decimal(out, next, n)
}

fn put_small(out: &mut [u8], at: usize, text: &[u8], n: u8) -> usize
    requires { Room (length text.now + 3) out.old at }
    ensures { Put (length text.now + 3) out.old at (text.now ++ decimal n)
        out.new result }
{
    let next = put(out, at, text);
    put_decimal(out, next, n as u64)
}

// A task and its priority; a task and its time.
fn put_level(out: &mut [u8], at: usize, t: u8, p: u8) -> usize
    requires { Room 8 out.old at }
    ensures { Put 8 out.old at (pair t p) out.new result }
{
    let next = put_small(out, at, b" ", t);
    put_small(out, next, b"/", p)
}

fn put_time(out: &mut [u8], at: usize, t: u8, time: u64) -> usize
    requires { Room 25 out.old at }
    ensures { Put 25 out.old at (pair t time) out.new result }
{
    let next = put_small(out, at, b" ", t);
    put_number(out, next, b"/", time)
}

// ---- the machine

fn flag(b: bool) -> u8
    ensures { result ≡ one_if b }
{
    if b { 1 } else { 0 }
}

fn put_flags(out: &mut [u8], at: usize, started: bool, exception: bool) -> usize
    requires { Room 27 out.old at }
    ensures { Put 27 out.old at (flags_text started exception) out.new result }
{
    let next = put_small(out, at, b" started ", flag(started));
    let end = put_small(out, next, b" exception ", flag(exception));
    put(out, end, b"\n")
}

// A task with its base, if it is created.
fn put_task(out: &mut [u8], at: usize, t: u8, base: u8) -> usize
    requires { Room 8 out.old at }
    ensures { Put 8 out.old at (cond (eqb base 0) [] (pair t base)) out.new result }
{
    if base == 0 {
        return at;
    }
    put_level(out, at, t, base)
}

fn put_tasks(out: &mut [u8], at: usize, k: Kernel) -> usize
    requires { Room 263 out.old at }
    ensures { Put 263 out.old at (tasks_text (view k)) out.new result }
{
    let base = k.base;
    let mut next = put(out, at, b" tasks");
    let mut t = 0u8;
    while t < 32 {
        let i = t as usize;
        next = put_task(out, next, t, base[i]);
        t += 1;
    }
    put(out, next, b"\n")
}

// A task's active priority.
fn active(base: &[u8; 32], ceiling: [u8; 8], held: &[u8; 32], t: TaskID) -> u8
    ensures { result ≡ level base.now ceiling held.now t.0 }
{
    let o = of_task(held, t);
    choose(o == 0, of_task(base, t), of_object(ceiling, POId(o)))
}

// The one function that walks the ready line.
fn put_ready(out: &mut [u8], at: usize, k: Kernel) -> usize
    requires { Room 271 out.old at }
    ensures { Put 271 out.old at (ready_text (view k)) out.new result }
{
    let base = k.base;
    let ceiling = k.ceiling;
    let held = k.held;
    let ready = k.ready;
    let mut next = put(out, at, b" ready");
    let mut i = 0u8;
    let mut t = of_task(&ready, TaskID(0));
    while t != 0 {
        next = put_level(out, next, t, active(&base, ceiling, &held, TaskID(t)));
        i += 1;
        t = of_task(&ready, TaskID(i));
    }
    let idle = put_level(out, next, 0, active(&base, ceiling, &held, TaskID(0)));
    put(out, idle, b"\n")
}

// A task's time, 0 for what is no task.
fn time_at(until: &[u64; 32], t: u8) -> u64
    ensures { result ≡ at until.now t }
{
    let cells: &[u64] = until;
    let i = t as usize;
    if i < 32 { cells[i] } else { 0 }
}

fn put_delay(out: &mut [u8], at: usize, k: Kernel) -> usize
    requires { Room 807 out.old at }
    ensures { Put 807 out.old at (delay_text (view k)) out.new result }
{
    let until = k.until;
    let delayed = k.delayed;
    let mut next = put(out, at, b" delay");
    let mut i = 0u8;
    let mut t = of_task(&delayed, TaskID(0));
    while t != 0 {
        next = put_time(out, next, t, time_at(&until, t));
        i += 1;
        t = of_task(&delayed, TaskID(i));
    }
    put(out, next, b"\n")
}

// ---- pending exceptions

fn is_owed(pending: u32, t: u8) -> bool
    requires { t < 32 }
    ensures { result ≡ has pending t }
{
    (pending >> t) & 1 == 1
}

fn put_owed(out: &mut [u8], at: usize, owed: bool, t: u8) -> usize
    requires { Room 4 out.old at }
    ensures { Put 4 out.old at (cond owed (number t) []) out.new result }
{
    if owed {
        return put_small(out, at, b" ", t);
    }
    at
}

fn put_pending(out: &mut [u8], at: usize, pending: u32) -> usize
    requires { Room 137 out.old at }
    ensures { Put 137 out.old at (pending_text pending) out.new result }
{
    let mut next = put(out, at, b" pending");
    let mut t = 0u8;
    while t < 32 {
        next = put_owed(out, next, is_owed(pending, t), t);
        t += 1;
    }
    put(out, next, b"\n")
}

// ---- objects

// The last task that holds the object, 0 for nobody.
fn holder_of(held: [u8; 32], o: u8) -> u8
    ensures { result ≡ holder_below 32 (seen [] [] held [] []) o }
{
    let mut holder = 0u8;
    let mut t = 0u8;
    while t < 32 {
        let i = t as usize;
        if held[i] == o {
            holder = t;
        }
        t += 1;
    }
    holder
}

fn put_waiter(out: &mut [u8], at: usize, t: u8) -> usize
    requires { Room 4 out.old at }
    ensures { Put 4 out.old at (numbers_text (nobody_or t)) out.new result }
{
    if t == 0 {
        return at;
    }
    put_small(out, at, b" ", t)
}

fn put_places(out: &mut [u8], at: usize, o: u8, ceiling: u8, holder: u8, way: u8) -> usize
    requires { Room 42 out.old at }
    ensures { Put 42 out.old at (named " object" o ++ named " ceiling" ceiling ++
        named " holder" holder ++ named " way" way) out.new result }
{
    let first = put_small(out, at, b" object ", o);
    let second = put_small(out, first, b" ceiling ", ceiling);
    let third = put_small(out, second, b" holder ", holder);
    put_small(out, third, b" way ", way)
}

fn put_line(out: &mut [u8], at: usize, o: u8, ceiling: u8, holder: u8, way: u8, waiter: u8) -> usize
    requires { Room 55 out.old at }
    ensures { Put 55 out.old at (object_line o ceiling holder way (nobody_or waiter))
        out.new result }
{
    let word = put_places(out, at, o, ceiling, holder, way);
    let next = put(out, word, b" waiters");
    let end = put_waiter(out, next, waiter);
    put(out, end, b"\n")
}

// An object, if it is declared.
fn put_object(
    out: &mut [u8],
    at: usize,
    ceiling: [u8; 8],
    held: [u8; 32],
    way: [u8; 32],
    waiter: [u8; 8],
    o: u8,
) -> usize
    requires { Room 55 out.old at }
    ensures { Put 55 out.old at (object_text (seen [] ceiling held way waiter) o)
        out.new result }
{
    let top = of_object(ceiling, POId(o));
    if top == 0 {
        return at;
    }
    let holder = holder_of(held, o);
    let hold = of_task(&way, TaskID(holder));
    put_line(out, at, o, top, holder, hold, of_object(waiter, POId(o)))
}

fn put_objects(out: &mut [u8], at: usize, k: Kernel) -> usize
    requires { Room 440 out.old at }
    ensures { Put 440 out.old at (objects_text (view k)) out.new result }
{
    let ceiling = k.ceiling;
    let held = k.held;
    let way = k.way;
    let waiter = k.waiter;
    let mut next = at;
    let mut o = 0u8;
    while o < 8 {
        next = put_object(out, next, ceiling, held, way, waiter, o);
        o += 1;
    }
    next
}

// ---- the chip's queue

fn put_aged(out: &mut [u8], at: usize, time: u64, age: u8) -> usize
    requires { Room 35 out.old at }
    ensures { Put 35 out.old at (entry_text time age) out.new result }
{
    let next = put_number(out, at, b" time ", time);
    let end = put_small(out, next, b" age ", age);
    put(out, end, b"\n")
}

fn put_registers(out: &mut [u8], at: usize, q: Queue) -> usize
    requires { Room 54 out.old at }
    ensures { Put 54 out.old at (registers_text q) out.new result }
{
    let next = put_small(out, at, b" registers task ", q.task);
    put_aged(out, next, q.time, q.age)
}

// A cell of the table, if it is in use.
fn put_cell(out: &mut [u8], at: usize, t: u8, time: u64, age: u8) -> usize
    requires { Room 50 out.old at }
    ensures { Put 50 out.old at (cond (in_use age) (named " table task" t ++ entry_text time age) [])
        out.new result }
{
    if age == 0 {
        return at;
    }
    let next = put_small(out, at, b" table task ", t);
    put_aged(out, next, time, age)
}

fn put_table(out: &mut [u8], at: usize, q: Queue) -> usize
    requires { Room 1600 out.old at }
    ensures { Put 1600 out.old at (table_text q) out.new result }
{
    let times = q.times;
    let ages = q.ages;
    let mut next = at;
    let mut t = 0u8;
    while t < 32 {
        let i = t as usize;
        next = put_cell(out, next, t, times[i], ages[i]);
        t += 1;
    }
    next
}

// ---- all of it

fn put_machine(out: &mut [u8], at: usize, k: Kernel, exception: bool) -> usize
    requires { Room 1368 out.old at }
    ensures { Put 1368 out.old at (flags_text k.started exception ++ tasks_text (view k) ++
        ready_text (view k) ++ delay_text (view k)) out.new result }
{
    let tasks = put_flags(out, at, k.started, exception);
    let ready = put_tasks(out, tasks, k);
    let delay = put_ready(out, ready, k);
    put_delay(out, delay, k)
}

fn put_block(out: &mut [u8], at: usize, k: Kernel, pending: u32, q: Queue, exception: bool) -> usize
    requires { Room 3599 out.old at }
    ensures { Put 3599 out.old at (block (view k) pending q exception) out.new result }
{
    let owed = put_machine(out, at, k, exception);
    let objects = put_pending(out, owed, pending);
    let registers = put_objects(out, objects, k);
    let table = put_registers(out, registers, q);
    put_table(out, table, q)
}

fn put_row(out: &mut [u8], at: usize, row: Row) -> usize
    requires { at + walk_room ≤ length out.old }
    ensures { Put walk_room out.old at (walk_line row) out.new result }
{
    put_walk_line(out, at, row)
}

fn put_both(
    out: &mut [u8],
    at: usize,
    row: Row,
    k: Kernel,
    pending: u32,
    q: Queue,
    exception: bool,
) -> usize
    requires { at + show_room ≤ length out.old }
    ensures { Put show_room out.old at (walk_line row ++ block (view k) pending q exception)
        out.new result }
{
    let next = put_row(out, at, row);
    put_block(out, next, k, pending, q, exception)
}

// The row, and the block of these tables, of what is pending and of the queue, put at a place where at least 4096 bytes
// are left, and the next place; else nothing, and the same place.
pub fn put_entry(
    out: &mut [u8],
    at: usize,
    row: Row,
    k: Kernel,
    pending: u32,
    q: Queue,
    exception: bool,
) -> usize
    ensures { let text = walk_line row ++ block (view k) pending q exception in
        (result ≡ place_after show_room out.old at text)
        × (out.new ≡ contents_after show_room out.old at text) × (result ≤ at + show_room) }
{
    if out.len() < 4096 {
        return at;
    }
    if out.len() - 4096 < at {
        return at;
    }
    put_both(out, at, row, k, pending, q, exception)
}
