// The kernel: its tables, the step and the test of a saved state, and the question "Wakes left". By value here, and
// where a lent state lies in in_place.
#![tactic(auto)]

ghost use Rattle.std.specs.Prelude.{◌≡◌};
ghost use Rattle.rules.specs.Machine.{fresh};
ghost use Rattle.kernel.specs.View.{encode};
ghost use Rattle.kernel.specs.Public.{to_rules, is_sound, step_of, left_of};
ghost use Rattle.kernel.specs.Step as step;

mod command;
pub mod in_place;
pub mod on_tables;

pub use command::Answer;
pub use kernel_checks::Command;
pub use kernel_line::{POId, TaskID};
use rules::Refusal;

// Tables are indexed by the task 0..31 or by the object 0..7. A line ends at its first 0: idle is last in the ready
// line, and never delayed.
// Kept (promise): a table for each number, as document 01 asks of the state (view, encode) and the image lays it out.
#[derive(Clone, Copy, PartialEq, Eq)]
pub struct Kernel {
    // each task's base priority: 0 for idle, and for a task that is not created
    pub base: [u8; 32],
    // the ready tasks, highest active priority first: its first is the running task, 0 where idle runs
    pub ready: [u8; 32],
    // the delayed tasks, by time
    pub delayed: [u8; 32],
    // the object that each task holds, 0 for none; and the way: 1 for a procedure or function, 2 for an entry, 0 for
    // none
    pub held: [u8; 32],
    pub way: [u8; 32],
    // each delayed task's time; 0 for any other
    pub until: [u64; 32],
    // each object's ceiling, 0 for one that is not declared; and the task that waits on it, 0 for none
    pub ceiling: [u8; 8],
    pub waiter: [u8; 8],
    pub clock: u64,
    pub started: bool,
}

// The next state, and the answer.
#[derive(Clone, Copy)]
pub struct Stepped {
    pub next: Kernel,
    pub answer: Answer,
}

// The answer to "Wakes left": the number of the refusal, 0 for none; and the count, 0 where it is refused.
// Kept (promise): two numbers, as document 01 answers (left_of); inside, the count is a Result (wakes_counted).
#[derive(Clone, Copy, PartialEq, Eq)]
pub struct Left {
    pub code: u8,
    pub left: u8,
}

impl Kernel {
    pub const IDLE: TaskID = TaskID(0);

    pub const LAST_TASK: TaskID = TaskID(kernel_checks::LAST_TASK);

    pub const LAST_OBJECT: POId = POId(kernel_checks::LAST_OBJECT);

    pub const TOP_PRIORITY: u8 = kernel_checks::TOP_PRIORITY;

    // Task 0 alone, no object, clock 0, not started.
    pub fn fresh() -> Kernel
        ensures { result ≡ encode fresh }
    {
        Kernel {
            base: [0; 32],
            ready: [0; 32],
            delayed: [0; 32],
            held: [0; 32],
            way: [0; 32],
            until: [0; 32],
            ceiling: [0; 8],
            waiter: [0; 8],
            clock: 0,
            started: false,
        }
    }

    // Document 01's conditions hold, and every unused cell is 0.
    pub fn sound(self) -> bool
        ensures { result ≡ is_sound self }
    {
        in_place::sound(&self)
    }

    // A state that is not sound is answered 1, 0, 0 and comes back as it is; a refused command its number and the same
    // state.
    pub fn step(self, c: Command) -> Stepped
        ensures { result ≡ step_of self (to_rules c) }
    {
        let mut next = self;
        let answer = in_place::step(&mut next, c);
        Stepped { next, answer }
    }

    // How many accepted Wakes there are until the one that releases the task, that one counted; 0 where it is not
    // delayed and due.
    pub fn wakes_left(self, t: TaskID) -> Left
        ensures { result ≡ left_of self t.0 }
    {
        match self.wakes_counted(t) {
            Ok(left) => Left { code: 0, left },
            Err(refusal) => Left {
                code: refusal.number(),
                left: 0,
            },
        }
    }

    // The same count, or the refusal of the question.
    fn wakes_counted(&self, t: TaskID) -> Result<u8, Refusal>
        ensures { step.left_as result ≡ left_of self.now t.0 }
    {
        if !in_place::sound(self) {
            return Err(Refusal::Shape);
        }
        if (t.0 == Kernel::IDLE.0) | (Kernel::LAST_TASK.0 < t.0) {
            return Err(Refusal::Range);
        }
        if kernel_line::of_task(&self.base, t) == 0 {
            return Err(Refusal::Missing);
        }
        Ok(due_count(
            kernel_line::lead_task(self.delayed, t),
            kernel_line::time_of(&self.until, t),
            self.clock,
        ))
    }
}

// One more than the count of entries ahead, where there is such an entry and its time is at most the clock.
fn due_count(ahead: u8, time: u64, clock: u64) -> u8
    ensures { result ≡ step.due_count ahead time clock }
{
    if (ahead < 32) & (time <= clock) {
        ahead + 1
    } else {
        0
    }
}
