// The step of the whole state with the chip's queue beside it. The queue goes by the clock and the runner before the
// step, and by whether the command is accepted: here all three are taken as they must be.
#![tactic(auto)]

ghost use Rattle.std.specs.Prelude.{◌≡◌, cond, eqb};
ghost use Rattle.rules.specs.Kinds.{kind};
ghost use Rattle.kernel.specs.Public.{to_rules};
ghost use Rattle.queue_chip.specs.Queue.{follow};
ghost use Rattle.queue_beside.specs.Beside.{moved_of};

use kernel::{Command, TaskID};
use kernel_state::{Answer, State};
use queue::Queue;

// The state behind a command, its answer, and the queue behind it.
#[derive(Clone, Copy)]
pub struct Moved {
    pub next: State,
    pub answer: Answer,
    pub queue: Queue,
}

// The queue behind a command that was answered with this code, at that clock and with that runner before it.
fn follow_accepted(code: u8, c: Command, now: u64, runner: TaskID, q: Queue) -> Queue
    ensures { result ≡ cond (eqb code 0) (follow (kind (to_rules c)) now c.value runner.0 q) q }
{
    if code != 0 {
        return q;
    }
    queue::follow(c.kind(), now, c.value, runner, q)
}

// The step of the whole state, and the queue behind it.
pub fn step(s: State, q: Queue, c: Command) -> Moved
    ensures { result ≡ moved_of s q (to_rules c) }
{
    let runner = kernel_ready::runner(&s.kernel.ready);
    let done = s.step(c);
    let queue = follow_accepted(done.answer.code, c, s.kernel.clock, runner, q);
    Moved {
        next: done.next,
        answer: done.answer,
        queue,
    }
}
