// The step where a lent state lies: an accepted command is carried out there, a refused one leaves it as it is.
ghost use Rattle.std.specs.Prelude.{◌≡◌};
ghost use Rattle.kernel.specs.Public.{to_rules};
ghost use Rattle.kernel_state.specs.Public.{ends, answer_of, step_of};

use crate::{Answer, State, pending_sound, settle, whose};
use kernel::{Command, TaskID};
use rules::Refusal;

// An answer of the kernel's step, with whether an exception is shown.
fn with_exception(a: kernel::Answer, exception: bool) -> Answer
    ensures { result ≡ answer_of a.code a.running.0 a.released.0 exception }
{
    let running = a.running;
    let released = a.released;
    Answer {
        code: a.code,
        running,
        released,
        exception,
    }
}

// The step: what is not a sound state is answered 1, 0, 0 and no exception, and stays as it is.
pub fn step(s: &mut State, c: Command) -> Answer
    ensures { ends s.new result (step_of s.old (to_rules c)) }
{
    if !pending_sound(&s.kernel.base, s.kernel.started, s.pending) {
        return Answer {
            code: Refusal::Shape.number(),
            running: TaskID(0),
            released: TaskID(0),
            exception: false,
        };
    }
    let closer = kernel_ready::runner(&s.kernel.ready);
    let said = kernel::in_place::step(&mut s.kernel, c);
    let behind = settle(s.pending, whose(c), closer, said);
    s.pending = behind.pending;
    with_exception(said, behind.exception)
}
