// What bench/queue times beside C: the chip's queue, and the delay line as the kernel keeps it, over one stream of
// insertions and Wakes. The libraries export nothing to C for it.
#![tactic(auto)]

ghost use Rattle.std.specs.Prelude.{◌≡◌};
ghost use Rattle.kernel_wake.specs.Due.{due_in};
ghost use Rattle.queue_bench.specs.Stream as stream;

use kernel_line::{TaskID, time_of};
use queue::Queue;

// A number that changes with who is the soonest, and until when, on top of what was gathered.
fn mixed(sum: u64, task: u8, time: u64) -> u64
    ensures { result ≡ stream.mixed_of sum task time }
{
    let turned = std::num::wrapping_add_u64(
        sum % 576460752303423488 * 31,
        sum / 576460752303423488,
    );
    std::num::wrapping_add_u64(std::num::wrapping_add_u64(turned, time), task as u64)
}

fn lesser(x: usize, y: usize) -> usize
    ensures { result ≡ stream.lesser x y }
{
    if y < x { y } else { x }
}

// ---- the chip's queue

// A turn: task t is inserted until v; for t = 0 a Wake at the clock v.
fn queue_turn(t: u8, v: u64, q: Queue) -> Queue
    ensures { result ≡ stream.queue_turn t v q }
{
    if t == 0 {
        queue::wake(v, q)
    } else {
        queue::insert(v, TaskID(t), q)
    }
}

// A stream of such turns, from the queue in which nobody is delayed: a gathering of who is the soonest behind each.
#[unsafe(no_mangle)]
pub extern "C" fn queue_bench_chip(tasks: &[u8], values: &[u64], sum: u64) -> u64
    ensures { result ≡ stream.by_chip tasks.now values.now sum }
{
    let n = lesser(tasks.len(), values.len());
    let mut q = queue::none();
    let mut total = sum;
    let mut i = 0;
    while i < n {
        let next = queue_turn(tasks[i], values[i], q);
        q = next;
        total = mixed(total, next.task, next.time);
        i += 1;
    }
    total
}

// ---- the delay line: as kernel_time and kernel_wake keep it, without the ready line

fn line_put(delayed: &mut [u8; 32], until: &mut [u64; 32], t: TaskID, v: u64)
    ensures { (delayed.new ≡ stream.put_line delayed.old until.old t.0 v)
        × (until.new ≡ stream.put_time until.old t.0 v) }
{
    kernel_place::put_time(delayed, until, v, t);
    kernel_line::set_time(until, t, v);
}

fn due(delayed: &[u8; 32], until: &[u64; 32], clock: u64) -> u8
    ensures { result ≡ due_in delayed.now until.now clock }
{
    let t = delayed[0];
    numbers::choose(time_of(until, TaskID(t)) <= clock, t, 0)
}

fn line_wake(delayed: &mut [u8; 32], until: &mut [u64; 32], clock: u64)
    ensures { let d = delayed.old in let u = until.old in
        (delayed.new ≡ stream.wake_line d u clock) × (until.new ≡ stream.wake_time d u clock) }
{
    let t = due(delayed, until, clock);
    if t != 0 {
        kernel_front::drop_front(delayed);
        kernel_line::set_time(until, TaskID(t), 0);
    }
}

// A turn, as above.
fn line_turn(delayed: &mut [u8; 32], until: &mut [u64; 32], t: u8, v: u64)
    ensures { let d = delayed.old in let u = until.old in
        (delayed.new ≡ stream.line_turn d u t v) × (until.new ≡ stream.time_turn d u t v) }
{
    if t == 0 {
        line_wake(delayed, until, v)
    } else {
        line_put(delayed, until, TaskID(t), v)
    }
}

// The same stream, by the delay line.
#[unsafe(no_mangle)]
pub extern "C" fn queue_bench_line(tasks: &[u8], values: &[u64], sum: u64) -> u64
    ensures { result ≡ stream.by_line tasks.now values.now sum }
{
    let n = lesser(tasks.len(), values.len());
    let mut delayed = [0u8; 32];
    let mut until = [0u64; 32];
    let mut total = sum;
    let mut i = 0;
    while i < n {
        line_turn(&mut delayed, &mut until, tasks[i], values[i]);
        let first = delayed[0];
        total = mixed(total, first, time_of(&until, TaskID(first)));
        i += 1;
    }
    total
}
