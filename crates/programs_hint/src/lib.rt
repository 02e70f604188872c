// A hint for people, on standard error: what is printed on standard output is fixed.
#![tactic(auto)]

ghost use Rattle.std.specs.Prelude.{◌≡◌, ◌||◌};
ghost use Rattle.rules.specs.Line.{among};

use std::io::Print;

// Whether a byte 13 stands in a piece.
#[tactic(auto, using(crate::proofs::Returns::looked_for))]
fn has_return(piece: &[u8]) -> bool
    ensures { result ≡ among piece.now 13 }
{
    piece.contains(&13)
}

// Said once: a script from a machine that ends its lines with 13 and 10 is refused line by line, and no number says
// why.
pub fn hinted<E: Print>(errors: &E, given: bool, piece: &[u8]) -> bool
    ensures { result ≡ (given || among piece.now 13) }
{
    if given {
        return true;
    }
    if !has_return(piece) {
        return false;
    }
    let _ = errors.write_all(
        b"hint: a byte 13 (carriage return) stands in the input. A line ends in byte 10 alone, and one with a 13 in it is refused with 14. Take the 13s out, as by: tr -d '\\r' <FILE\n",
    );
    true
}
