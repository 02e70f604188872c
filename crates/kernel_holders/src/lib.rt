// Who holds what, in a saved state. (specs: crate kernel_cells.)
#![tactic(auto)]

ghost use Rattle.std.specs.Prelude.{◌≡◌, replicate};
ghost use Rattle.kernel_cells.specs.Cells as cells;

use kernel_objects::admits;

// The objects are 0..7. (By name, so that the step keeps its name in proofs where a wrong edit changes the number.)
const OBJECT_COUNT: u8 = 8;

// Each holder may hold its object, and no other holds it.
pub fn holders_fit<'a>(base: &'a [u8; 32], held: &'a [u8; 32], ceiling: [u8; 8]) -> bool
    ensures { result ≡ cells.holders_fit ceiling (replicate 8 0) base.now held.now }
{
    let mut taken = [0u8; 8];
    for (t, &o) in held.iter().enumerate() {
        if o == 0 {
            continue;
        }
        if OBJECT_COUNT <= o {
            return false;
        }
        let i = usize::from(o);
        let free = taken[i] == 0;
        if !(free & admits(ceiling[i], base[t])) {
            return false;
        }
        taken[i] = 1;
    }
    true
}
