// The program show: reads commands, one to a line, and prints of each, or of the one that is asked for, walk's row and
// the state behind it.
#![tactic(auto)]

ghost use Rattle.std.specs.Prelude.{◌≡◌, refl, length};
ghost use Rattle.std.proofs.Common.{rules};
ghost use Rattle.rules.specs.Line.{among};
ghost use Rattle.text.specs.Printed.{walk_header};
ghost use Rattle.decimal.specs.Buffer.{InFront};
ghost use Rattle.show_text.specs.Show as shows;
ghost use Rattle.show_text.specs.Show.{last_text, show_lent};
ghost use Rattle.programs_flow.specs.Loops as loops;
ghost use Rattle.programs_show.specs.Work.{Shown, ShownOrFailed, DoneRefusedFailed};

use decimal_print::put_decimal;
use programs_flow::{Program, Went, over_pieces, refused, write_whole};
use programs_hint::hinted;
use session_show::{Showing, begin, feed, finish, lines_seen, wants};
use session_walk::header;
use std::env::FillError;
use std::io::{Print, Read, Write};
use std::rt::Env;

// What it reads at a time; and the room for a block for each byte of that, and one more.
const PIECE: usize = 15;

const LENT: usize = 65536;

// Where out is the one that is lent, there is room for a last line.
fn put_last(w: Showing, only: u64, out: &mut [u8]) -> usize
    requires { show_lent ≡ length out.old }
    ensures { loops.Put result out.new (last_text only w) × InFront result out.new }
{
    finish(w, only, out)
}

// Of all lines (0), or of the one that is asked for.
#[derive(Drop)]
struct Show {
    only: u64,
}

impl Program<PIECE, LENT> for Show {
    type Stand = Showing;

    ghost first = { shows.at_first };

    ghost after = { shows.show_after };

    ghost wants = { λ x. shows.wants x.only };

    ghost header = { walk_header };

    ghost text = { λ x. shows.text_for x.only };

    ghost printed = { λ x. shows.printed x.only };

    ghost remarks = { λ x p. among p 13 };

    fn begin(&self) -> Showing {
        begin()
    }

    // Behind the line that is asked for nothing more is read.
    fn wants(&self, w: Showing) -> bool {
        wants(self.only, w)
    }

    fn put_header(&self, out: &mut [u8; LENT]) -> usize {
        header(out)
    }

    fn remark<E: Print>(&self, errors: &E, given: bool, piece: &[u8]) -> bool {
        hinted(errors, given, piece)
    }

    fn feed(
        &self,
        w: Showing,
        piece: &[u8; PIECE],
        n: usize,
        out: &mut [u8; LENT],
    ) -> (Showing, usize) {
        let f = feed(w, self.only, &piece[..n.min(piece.len())], out);
        (f.showing, f.at)
    }

    // A last line without a line end counts. Where a read or a write has failed there is none.
    fn conclude<W: Write, E: Print>(
        &self,
        output: &mut W,
        errors: &E,
        w: Showing,
        read: Went,
        out: &mut [u8; LENT],
    ) -> Went {
        if read.has_failed() {
            return read;
        }
        let last = put_last(w, self.only, out);
        write_whole(read, output, errors, &out[..last])
    }

    ghost fits = { Prim.search rules };

    ghost by_piece = { λ x w p ps. unfold shows.printed in refl };
}

// The show behind all that was read, and how the work stands behind all that was written.
fn work<R: Read, W: Write, E: Print>(
    from: &mut R,
    output: &mut W,
    errors: &E,
    only: u64,
) -> (Showing, Went)
    ensures { Shown only result.0 result.1 }
{
    over_pieces(&Show { only }, from, output, errors)
}

// A number, on standard error.
fn say_number<E: Print>(errors: &E, n: u64) {
    let mut out = [0u8; 20];
    let end = put_decimal(&mut out, 0, n);
    let _ = errors.write_all(&out[..end]);
}

fn no_line<E: Print>(errors: &E, only: u64, seen: u64) -> u8
    ensures { result ≡ 2 }
{
    let _ = errors.write_all(b"show: the input has no line ");
    say_number(errors, only);
    let _ = errors.write_all(b": it has ");
    say_number(errors, seen);
    refused(errors, 2, b" lines\n")
}

// All lines of the input where only is 0, else line `only`. It answers its status. What it reads and writes no contract
// can say; what it writes of the bytes read is session_show's.
pub fn run<R: Read, W: Write, E: Print>(from: &mut R, output: &mut W, errors: &E, only: u64) -> u8
    ensures { ShownOrFailed only result }
{
    let (showing, went) = work(from, output, errors, only);
    if went.has_failed() {
        return went.status();
    }
    let seen = lines_seen(showing);
    if (only != 0) & (seen < only) {
        return no_line(errors, only, seen);
    }
    0
}

fn no_number<E: Print>(errors: &E, word: &[u8]) -> u8
    ensures { result ≡ 2 }
{
    let _ = errors.write_all(b"show: '");
    let _ = errors.write_all(word);
    refused(
        errors,
        2,
        b"' is no line: write its number, 1 to 18446744073709551614, in digits alone and without a 0 in front\n",
    )
}

// Whether the command line has a word i, whatever it is.
fn is_given<V: Env>(env: &V, i: usize) -> bool {
    let mut first = [0u8; 1];
    !matches!(env.arg(i, &mut first), Err(FillError::NotPresent))
}

// Show over the input. Word 1 of the command line says that it is show (crate programs). Word 2, if there is one, is the
// number of the line that is asked for.
pub fn run_asked<V: Env, R: Read, W: Write, E: Print>(
    env: &V,
    from: &mut R,
    output: &mut W,
    errors: &E,
) -> u8
    ensures { DoneRefusedFailed result }
{
    if !is_given(env, 2) {
        return run(from, output, errors, 0);
    }
    if is_given(env, 3) {
        return refused(
            errors,
            2,
            b"show: a word too many: write at most one, the number of the line that is to be shown\n",
        );
    }
    let mut word = [0u8; 4096];
    let n = env.arg(2, &mut word).unwrap_or(0);
    let only = decimal_read::number(&word[..n], u64::MAX - 1);
    if !only.valid | (only.value == 0) {
        return no_number(errors, &word[..n]);
    }
    run(from, output, errors, only.value)
}
