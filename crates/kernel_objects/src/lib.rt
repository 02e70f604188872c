// The cells of a saved state that each object has: its ceiling, and who waits on it. (specs: crate kernel_cells.)
#![tactic(auto)]

ghost use Rattle.std.specs.Prelude.{◌≡◌};
ghost use Rattle.kernel_cells.specs.Cells as cells;

use kernel_line::TaskID;

// A task of that base may hold or wait on an object of that ceiling.
pub fn admits(ceiling: u8, base: u8) -> bool
    ensures { result ≡ cells.admits ceiling base }
{
    !(ceiling == 0) & (base <= ceiling)
}

// An object with its ceiling, who waits on it, and that task's base.
fn object_fits(o: u8, ceiling: u8, w: u8, base: u8) -> bool
    ensures { result ≡ cells.object_fits o ceiling w base }
{
    let null = !(o == 0) | (ceiling == 0);
    null & (ceiling <= 15) & ((w == 0) | (w < 32) & admits(ceiling, base))
}

pub fn objects_fit(base: &[u8; 32], ceiling: [u8; 8], waiter: [u8; 8]) -> bool
    ensures { result ≡ cells.objects_fit base.now ceiling waiter }
{
    let mut fit = true;
    for o in 0..8 {
        let i = usize::from(o);
        let w = waiter[i];
        fit = object_fits(o, ceiling[i], w, kernel_line::of_task(base, TaskID(w))) & fit;
    }
    fit
}
