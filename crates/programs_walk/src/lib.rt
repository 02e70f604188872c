// The program walk: reads commands, one to a line, and prints a line for each.
#![tactic(auto)]

ghost use Rattle.std.specs.Prelude.{◌≡◌, true, refl, ◌++◌, length};
ghost use Rattle.std.proofs.Common.{rules};
ghost use Rattle.rules.specs.Line.{among};
ghost use Rattle.text.specs.Printed.{walk_header};
ghost use Rattle.decimal.specs.Buffer.{InFront};
ghost use Rattle.session_walk_text.specs.Walk.{at_first, text_for, walk_after, last_text, printed};
ghost use Rattle.programs_flow.specs.Loops as loops;
ghost use Rattle.session_walk_text.specs.Sizes.{walk_lent};

use programs_flow::{Program, Went, over_pieces, write_whole};
use programs_hint::hinted;
use session_walk::{Walk, begin, feed, finish, header};
use std::io::{Print, Read, Write};

// What it reads at a time; and the room for a line for each byte of that, and one more.
const PIECE: usize = 640;

const LENT: usize = 82048;

// Where out is the one that is lent, there is room for a last line.
fn put_last(w: Walk, out: &mut [u8]) -> usize
    requires { walk_lent ≡ length out.old }
    ensures { loops.Put result out.new (last_text w) × InFront result out.new }
{
    finish(w, out)
}

struct Walking;

impl Program<PIECE, LENT> for Walking {
    type Stand = Walk;

    ghost first = { at_first };

    ghost after = { walk_after };

    ghost wants = { λ x w. true };

    ghost header = { walk_header };

    ghost text = { λ x. text_for };

    ghost printed = { λ x. printed };

    ghost remarks = { λ x p. among p 13 };

    fn begin(&self) -> Walk {
        begin()
    }

    fn wants(&self, _w: Walk) -> bool {
        true
    }

    fn put_header(&self, out: &mut [u8; LENT]) -> usize {
        header(out)
    }

    fn remark<E: Print>(&self, errors: &E, given: bool, piece: &[u8]) -> bool {
        hinted(errors, given, piece)
    }

    fn feed(&self, w: Walk, piece: &[u8; PIECE], n: usize, out: &mut [u8; LENT]) -> (Walk, usize) {
        let f = feed(w, &piece[..n.min(piece.len())], out);
        (f.walk, f.at)
    }

    // A last line without a line end counts. Where a read or a write has failed there is none.
    fn conclude<W: Write, E: Print>(
        &self,
        output: &mut W,
        errors: &E,
        w: Walk,
        read: Went,
        out: &mut [u8; LENT],
    ) -> Went {
        if read.has_failed() {
            return read;
        }
        let last = put_last(w, out);
        write_whole(read, output, errors, &out[..last])
    }

    ghost fits = { Prim.search rules };

    ghost by_piece = { λ x w p ps. unfold printed in refl };
}

// The header, the pieces, the end.
fn work<R: Read, W: Write, E: Print>(from: &mut R, output: &mut W, errors: &E) -> Went
    ensures { loops.Whole walk_after (λ w. true) at_first (λ ps. walk_header ++ printed at_first ps) result }
{
    let (_, went) = over_pieces(&Walking, from, output, errors);
    went
}

// It answers its status. What it reads and writes no contract can say; what it writes of the bytes read is session's.
pub fn run<R: Read, W: Write, E: Print>(from: &mut R, output: &mut W, errors: &E) -> u8
    ensures { loops.DoneOrFailed result }
{
    work(from, output, errors).status()
}
