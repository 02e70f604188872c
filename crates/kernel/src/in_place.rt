// The step and the test of one lent state: its tables are lent to on_tables, where the one step is that all callers run,
// those with a state and those with tables.
ghost use Rattle.std.specs.Prelude.{◌≡◌};
ghost use Rattle.kernel.specs.Public.{Ends, to_rules, is_sound, step_of, running_of};
ghost use Rattle.kernel.specs.Step as step;

use crate::command::Answer;
use crate::{Kernel, on_tables};
use kernel_checks::Command;
use kernel_line::TaskID;

// The running task: 0 before Start.
pub fn running(k: &Kernel) -> TaskID
    ensures { result ≡ record { 0 = running_of k.now } }
{
    kernel_ready::running(k.started, &k.ready)
}

// The step that trusts the state to be sound, and does not test it. Any state gets one answer, which for a forged one is
// no step of document 01.
pub fn step_trusting(k: &mut Kernel, c: Command) -> Answer
    ensures { Ends k.new result (step.stepped_of k.old (to_rules c)) }
{
    on_tables::step_trusting(
        &mut k.base,
        &mut k.ready,
        &mut k.delayed,
        &mut k.held,
        &mut k.way,
        &mut k.until,
        &mut k.ceiling,
        &mut k.waiter,
        &mut k.clock,
        &mut k.started,
        c,
    )
}

// The test of a saved state: document 01's conditions hold, and every unused cell is 0.
pub fn sound(k: &Kernel) -> bool
    ensures { result ≡ is_sound k.now }
{
    on_tables::sound(
        &k.base, &k.ready, &k.delayed, &k.held, &k.way, &k.until, k.ceiling, k.waiter, k.clock,
        k.started,
    )
}

// The step: a state that is not sound is answered 1, 0, 0 and stays as it is.
pub fn step(k: &mut Kernel, c: Command) -> Answer
    ensures { Ends k.new result (step_of k.old (to_rules c)) }
{
    on_tables::step(
        &mut k.base,
        &mut k.ready,
        &mut k.delayed,
        &mut k.held,
        &mut k.way,
        &mut k.until,
        &mut k.ceiling,
        &mut k.waiter,
        &mut k.clock,
        &mut k.started,
        c,
    )
}
