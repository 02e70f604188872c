// The entry point for bench/step: the shipped step over a stream of commands, for C to time.
#![tactic(auto)]

ghost use Rattle.std.specs.Prelude.{◌≡◌, ◌%◌, ◌≤◌};
ghost use Rattle.kernel_bench.specs.Stream as stream;

use kernel::Command;
use kernel_state::{Answer, State};

// What an exception that is shown adds to an answer's number.
fn shown(exception: bool) -> u64
    ensures { (result ≡ stream.shown exception) × (result ≤ 16777216) }
{
    if exception { 16777216 } else { 0 }
}

// A number that changes with any answer, on top of what was gathered.
fn mixed(sum: u64, answer: Answer) -> u64
    ensures { result ≡ stream.mixed_of sum answer.code answer.running.0 answer.released.0 answer.exception }
{
    let turned = (sum % 576460752303423488 * 31).wrapping_add(sum / 576460752303423488);
    let code = u64::from(answer.code);
    let running = u64::from(answer.running.0);
    let released = u64::from(answer.released.0);
    turned.wrapping_add(code + 256 * running + 65536 * released + shown(answer.exception))
}

// Runs the commands, a slice for each of their numbers, from the fresh machine: a gathering of all answers and of the
// clock.
#[unsafe(no_mangle)]
pub extern "C" fn bench_run(ops: &[u8], a: &[u8], b: &[u8], values: &[u64], sum: u64) -> u64
    ensures { result ≡ stream.gathered ops.now a.now b.now
        values.now sum }
{
    let n = ops.len().min(a.len()).min(b.len().min(values.len()));
    let mut k = State::fresh();
    let mut total = sum;
    for i in 0..n {
        let c = Command {
            op: ops[i],
            a: a[i],
            b: b[i],
            value: values[i],
        };
        let done = k.step(c);
        total = mixed(total, done.answer);
        k = done.next;
    }
    total.wrapping_add(k.kernel.clock)
}
