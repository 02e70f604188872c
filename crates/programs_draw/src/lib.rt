// The program draw: reads its first line and setup lines, then draws commands, and prints a line for each.
#![tactic(auto)]

ghost use Rattle.std.specs.Prelude.{◌≡◌, refl, ◌++◌, length};
ghost use Rattle.std.proofs.Common.{rules};
ghost use Rattle.rules.specs.Line.{among};
ghost use Rattle.text.specs.Printed.{draw_header};
ghost use Rattle.decimal.specs.Buffer.{InFront};
ghost use Rattle.session_draw.specs.Draw as draws;
ghost use Rattle.programs_flow.specs.Loops as loops;
ghost use Rattle.programs_draw.specs.Sizes.{draw_lent, draw_lot, draw_wants};

mod hint;

use crate::hint::hint_zeros;
use programs_flow::{Program, Went, over_pieces, write_whole};
use programs_hint::hinted;
use session_draw::{Printed, Reader, begin, draw_some, feed, finish, header};
use session_stage::{DRAWING, DrawRun, FIRST_LINE, OVER};
use std::io::{Print, Read, Write};

// Where out is the one that is lent, there is room for the end of the input, and for a lot of draws.
fn put_end(r: Reader, out: &mut [u8]) -> Printed
    requires { draw_lent ≡ length out.old }
    ensures { (result.run ≡ draws.end_behind r) × loops.Put result.at out.new (draws.end_text r)
        × InFront result.at out.new }
{
    finish(r, out)
}

fn put_draws(d: DrawRun, out: &mut [u8]) -> Printed
    requires { draw_lent ≡ length out.old }
    ensures { (result.run ≡ draws.some_behind draw_lot d)
        × loops.Put result.at out.new (draws.some_text draw_lot d) × InFront result.at out.new }
{
    draw_some(d, 384, out)
}

// The draws that are left, a lot to a write. Where a read or a write has failed there are none.
fn all_draws<W: Write, E: Print>(
    output: &mut W,
    errors: &E,
    d: DrawRun,
    ended: Went,
    out: &mut [u8],
) -> Went
    requires { draw_lent ≡ length out.old }
    ensures { loops.Concluded (draws.some_text d.left d) ended result }
{
    let mut run = d;
    let mut went = ended;
    while !went.has_failed() && run.stage == DRAWING && 0 < run.left {
        let f = put_draws(run, out);
        went = write_whole(went, output, errors, &out[..f.at]);
        run = f.run;
    }
    went
}

// What it reads at a time; and the room for a line for each byte of that, and one more.
const PIECE: usize = 384;

const LENT: usize = 73920;

struct Drawing;

impl Program<PIECE, LENT> for Drawing {
    type Stand = Reader;

    ghost first = { draws.at_first };

    ghost after = { draws.piece_behind };

    ghost wants = { λ x. draw_wants };

    ghost header = { draw_header };

    ghost text = { λ x. draws.piece_text };

    ghost printed = { λ x. draws.printed };

    ghost remarks = { λ x p. among p 13 };

    fn begin(&self) -> Reader {
        begin()
    }

    // Whether the draw still reads: it is at its first line or its setup lines. A first line of over 128 bytes is
    // refused whatever follows, so nothing more is read of it.
    fn wants(&self, r: Reader) -> bool {
        let d = r.run;
        let held = r.held;
        (d.stage < DRAWING) & !((d.stage == FIRST_LINE) & (129 <= held.count))
    }

    fn put_header(&self, out: &mut [u8; LENT]) -> usize {
        header(out)
    }

    fn remark<E: Print>(&self, errors: &E, given: bool, piece: &[u8]) -> bool {
        hinted(errors, given, piece)
    }

    fn feed(
        &self,
        r: Reader,
        piece: &[u8; PIECE],
        n: usize,
        out: &mut [u8; LENT],
    ) -> (Reader, usize) {
        let f = feed(r, &piece[..n.min(piece.len())], out);
        (f.reader, f.at)
    }

    // The end of the input, and the draws. Where a read or a write has failed there are none.
    fn conclude<W: Write, E: Print>(
        &self,
        output: &mut W,
        errors: &E,
        r: Reader,
        read: Went,
        out: &mut [u8; LENT],
    ) -> Went {
        if read.has_failed() {
            return read;
        }
        let f = put_end(r, out);
        let ended = write_whole(read, output, errors, &out[..f.at]);
        if f.run.stage == OVER {
            hint_zeros(errors);
        }
        all_draws(output, errors, f.run, ended, out)
    }

    ghost fits = { Prim.search rules };

    ghost by_piece = { λ x r p ps. unfold draws.printed in refl };
}

// The header, the pieces, the end and the draws.
fn work<R: Read, W: Write, E: Print>(from: &mut R, output: &mut W, errors: &E) -> Went
    ensures { loops.Whole draws.piece_behind draw_wants draws.at_first (λ ps. draw_header ++ draws.printed
        draws.at_first ps) result }
{
    let (_, went) = over_pieces(&Drawing, from, output, errors);
    went
}

// It answers its status. What it reads and writes no contract can say; what it writes of the bytes read is session's.
pub fn run<R: Read, W: Write, E: Print>(from: &mut R, output: &mut W, errors: &E) -> u8
    ensures { loops.DoneOrFailed result }
{
    work(from, output, errors).status()
}
