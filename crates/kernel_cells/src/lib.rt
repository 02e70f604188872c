// The cells of a saved state that each task has: what document 01 says of them, and that every unused cell is 0. (The
// objects: crate kernel_objects. Who holds: crate kernel_holders. The whole test, with the two lines: crate
// kernel_sound.)
#![tactic(auto)]

ghost use Rattle.std.specs.Prelude.{◌≡◌};
ghost use Rattle.kernel_cells.specs.Cells as cells;

use rules::FOR_ENTRY;

// Where a task stands: nowhere is 0, in two places or twice in one is 9.
pub const READY: u8 = 1;

pub const DELAYED: u8 = 2;

pub const WAITING: u8 = 3;

// A task's base is in range, it stands once where it is created and nowhere else, and it holds an object in one of two
// ways, if it is ready.
fn task_fits(base: u8, place: u8, held: u8, way: u8) -> bool
    ensures { result ≡ cells.task_fits base place held way }
{
    let stands = (base == 0) & (place == 0) | !(base == 0) & !(place == 0);
    let hands = (held == 0) & (way == 0) | !(held == 0) & !(way == 0) & (place == READY);
    (base <= 15) & (place <= WAITING) & (way <= FOR_ENTRY) & stands & hands
}

// No exit before the end: so the compiler tests sixteen tasks at a time.
pub fn tasks_fit<'a>(
    base: &'a [u8; 32],
    place: &'a [u8; 32],
    held: &'a [u8; 32],
    way: &'a [u8; 32],
) -> bool
    ensures { result ≡ cells.tasks_fit base.now place.now held.now
        way.now }
{
    let mut fit = true;
    for t in 0..32 {
        fit = task_fits(base[t], place[t], held[t], way[t]) & fit;
    }
    fit
}

// Only a delayed task has a time.
pub fn times_fit<'a>(until: &'a [u64; 32], place: &'a [u8; 32]) -> bool
    ensures { result ≡ cells.times_fit until.now place.now }
{
    let mut fit = true;
    for t in 0..32 {
        fit = ((until[t] == 0) | (place[t] == DELAYED)) & fit;
    }
    fit
}
