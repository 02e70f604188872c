// The test of a saved state: document 01's conditions, and that every unused cell is 0. (The cells, table by table:
// crates kernel_cells, kernel_objects and kernel_holders. The lines: crates kernel_order and kernel_marks.)
#![tactic(auto)]

ghost use Rattle.std.specs.Prelude.{◌≡◌};
ghost use Rattle.kernel_sound.specs.Test as test;

use kernel_cells::{DELAYED, READY, WAITING};

// Before Start the clock is 0 and nothing is delayed, waiting or held.
fn is_calm(started: bool, clock: u64, first: u8, waiter: [u8; 8], held: &[u8; 32]) -> bool
    ensures { result ≡ test.is_calm started clock first waiter held.now }
{
    if started {
        return true;
    }
    (clock == 0) & (first == 0) & kernel_order::is_free(&waiter) & kernel_order::is_free(held)
}

// The whole test, table by table: the state itself goes into no call, and a table of 32 is lent.
pub fn tested<'a>(
    base: &'a [u8; 32],
    ready: &'a [u8; 32],
    delayed: &'a [u8; 32],
    held: &'a [u8; 32],
    way: &'a [u8; 32],
    until: &'a [u64; 32],
    ceiling: [u8; 8],
    waiter: [u8; 8],
    clock: u64,
    started: bool,
) -> bool
    ensures { result ≡ test.test_of base.now ready.now delayed.now held.now
        way.now until.now ceiling waiter clock started }
{
    let ended = kernel_order::is_ended(ready) & kernel_order::is_ended(delayed);
    let falling = kernel_order::is_falling(ready, base, ceiling, held);
    let rising = kernel_order::is_rising(delayed, until);
    let place = kernel_marks::mark_line(ready, READY, [0; 32]);
    let place = kernel_marks::mark_line(delayed, DELAYED, place);
    let place = kernel_marks::mark_waiting(waiter, WAITING, place);
    let tasks = kernel_cells::tasks_fit(base, &place, held, way);
    let times = kernel_cells::times_fit(until, &place);
    let holders = kernel_holders::holders_fit(base, held, ceiling);
    let objects = kernel_objects::objects_fit(base, ceiling, waiter);
    let calm = is_calm(started, clock, delayed[0], waiter, held);
    ended & falling & rising & tasks & times & holders & objects & calm
}
