// The whole state: the kernel's tables, and the pending exceptions beside them. A step is the kernel's step of the
// tables; what it does to the exceptions is settled by its answer.
#![tactic(auto)]

ghost use Rattle.std.specs.Prelude.{◌≡◌};
ghost use Rattle.rules.specs.Kinds.{kind};
ghost use Rattle.rules_exceptions.specs.Exceptions.{whose_of, task_of, fresh};
ghost use Rattle.kernel.specs.Public.{to_rules};
ghost use Rattle.kernel_state.specs.Settle.{settled};
ghost use Rattle.kernel_state.specs.Public.{encode, is_sound, step_of, left_of};

use kernel::{Command, Kernel, Left, TaskID};
use kernel_checks::{Kind, Whose};
use rules::Refusal;

mod bits;
pub mod in_place;

pub use bits::pending_sound;

// Bit t of `pending` is 1 where an exception was set for task t and no answer has shown it yet.
#[derive(Clone, Copy, PartialEq, Eq)]
pub struct State {
    pub kernel: Kernel,
    pub pending: u32,
}

// The number of the refusal, 0 for none; the running task after the step; the released task, 0 for nobody; and whether
// an exception of the running task is shown.
#[derive(Clone, Copy)]
pub struct Answer {
    pub code: u8,
    pub running: TaskID,
    pub released: TaskID,
    pub exception: bool,
}

// The next state, and the answer.
#[derive(Clone, Copy)]
pub struct Stepped {
    pub next: State,
    pub answer: Answer,
}

// What is pending behind an answer, and whether the answer shows an exception.
#[derive(Clone, Copy, PartialEq, Eq)]
pub struct Settled {
    pub pending: u32,
    pub exception: bool,
}

// Whose exception a command sets.
pub fn whose(c: Command) -> Whose
    ensures { result ≡ whose_of (kind (to_rules c)) }
{
    match c.kind() {
        Kind::Ending(e) => e.whose,
        _ => Whose::Nobody,
    }
}

// Whose, as a task number: by who ran before the command, and whom it released.
// Kept (promise): 0 is nobody, as document 01 numbers the tasks of an answer (task_of).
fn task_of(w: Whose, closer: u8, freed: u8) -> u8
    ensures { result ≡ task_of w closer freed }
{
    match w {
        Whose::Nobody => 0,
        Whose::Runner => closer,
        Whose::Released => freed,
    }
}

// What the answer of the kernel's step does to what is pending: an accepted one sets the exception of whose it is, and
// shows and clears that of the running task. `closer` is the task that ran before the command.
pub fn settle(pending: u32, w: Whose, closer: TaskID, answer: kernel::Answer) -> Settled
    ensures { result ≡ settled pending w closer.0 answer }
{
    if answer.code != 0 {
        return Settled {
            pending,
            exception: false,
        };
    }
    let released = answer.released;
    let running = answer.running;
    let told = bits::set_for(pending, task_of(w, closer.0, released.0));
    Settled {
        pending: bits::cleared(told, running.0),
        exception: bits::has(told, running.0),
    }
}

impl State {
    // The fresh machine, and no exception pending.
    pub fn fresh() -> State
        ensures { result ≡ encode fresh }
    {
        State {
            kernel: Kernel::fresh(),
            pending: 0,
        }
    }

    // The tables are those of a sound machine, and what is pending is of created tasks 1..31, after Start.
    pub fn sound(self) -> bool
        ensures { result ≡ is_sound self }
    {
        let tables = kernel::in_place::sound(&self.kernel);
        tables & pending_sound(&self.kernel.base, self.kernel.started, self.pending)
    }

    // A state that is not sound is answered 1, 0, 0 and comes back as it is; a refused command its number and the same
    // state.
    pub fn step(self, c: Command) -> Stepped
        ensures { result ≡ step_of self (to_rules c) }
    {
        let mut next = self;
        let answer = in_place::step(&mut next, c);
        Stepped { next, answer }
    }

    // "Wakes left" of a task, as Kernel::wakes_left has it.
    pub fn wakes_left(self, t: TaskID) -> Left
        ensures { result ≡ left_of self t.0 }
    {
        if !pending_sound(&self.kernel.base, self.kernel.started, self.pending) {
            return Left {
                code: Refusal::Shape.number(),
                left: 0,
            };
        }
        self.kernel.wakes_left(t)
    }
}
