// The loop of every program that reads its input in pieces: the header, the pieces, the end.
ghost use Rattle.std.specs.Prelude.{◌^◌, ◌<◌, ◌≡◌, ◌||◌, ℕ, Bool, List, [], ◌∷◌, ◌++◌, length, take};
ghost use Rattle.std.specs.Counts.{IsPrefixLen};
ghost use Rattle.programs_flow.specs.Loops as loops;

use crate::{Went, read_piece, write_whole};
use std::io::{Print, Read, Write};

// A program that reads its input in pieces of at most N bytes, and prints into a buffer of M bytes: all that it prints
// at once has room there.
pub trait Program<const N: usize, const M: usize> {
    // Where it stands between two pieces.
    type Stand: Copy;

    // Before all pieces; behind a piece; and whether more is wanted.
    ghost first: { Self.Stand };

    ghost after: { loops.After Self.Stand };

    ghost wants: { Self → Self.Stand → Bool };

    // What it prints: the header, the text for a piece, and all for pieces to the end of the input.
    ghost header: { List ℕ };

    ghost text: { Self → loops.Text Self.Stand };

    ghost printed: { Self → Self.Stand → List (List ℕ) → List ℕ };

    // In which pieces there is something to give a hint on.
    ghost remarks: { Self → List ℕ → Bool };

    fn begin(&self) -> Self::Stand
        ensures { result ≡ first };

    fn wants(&self, s: Self::Stand) -> bool
        ensures { result ≡ wants self.now s };

    fn put_header(&self, out: &mut [u8; M]) -> usize
        ensures { loops.Laid result out.old out.new header × IsPrefixLen result out.new × (length out.new ≡ M) };

    // A look at the piece that was read, for a hint on standard error; nothing else comes of it. It answers whether the
    // hint is given: now, or before, and then it stays so.
    fn remark<E: Print>(&self, errors: &E, given: bool, piece: &[u8]) -> bool
        ensures { result ≡ (given || remarks self.now piece.now) };

    // The piece that was read is the first n bytes, or all of them.
    fn feed(
        &self,
        s: Self::Stand,
        piece: &[u8; N],
        n: usize,
        out: &mut [u8; M],
    ) -> (Self::Stand, usize)
        ensures { (result.0 ≡ after s (take n piece.now))
            × loops.Laid result.1 out.old out.new (text self.now s (take n piece.now))
            × IsPrefixLen result.1 out.new × (length out.new ≡ M) };

    // What is printed at the end of the input. Where a read or a write has failed there is nothing more.
    // Kept (plain): input, output and errors do not always travel together: here no input is lent.
    fn conclude<W: Write, E: Print>(
        &self,
        output: &mut W,
        errors: &E,
        s: Self::Stand,
        read: Went,
        out: &mut [u8; M],
    ) -> Went
        ensures { loops.Concluded (printed self.now s []) read result };

    // A slice has no more bytes than that.
    ghost fits: { (N < 2 ^ 63) × (M < 2 ^ 63) };

    // All that is printed for pieces is printed piece by piece.
    ghost by_piece: { (x : Self) (s : Self.Stand) (p : List ℕ) (ps : List (List ℕ))
        → printed x s (p ∷ ps) ≡ text x s p ++ printed x (after s p) ps };
}

// One read, a look at what it brought, what is printed for it, one write.
fn one_piece<const N: usize, const M: usize, P: Program<N, M>, R: Read, W: Write, E: Print>(
    program: &P,
    from: &mut R,
    output: &mut W,
    errors: &E,
    s: &mut P::Stand,
    was: Went,
    given: &mut bool,
    piece: &mut [u8; N],
    out: &mut [u8; M],
) -> Went
    ensures { loops.Turned P.after (P.text program.now) s.old s.new was result piece.new out.new }
{
    let came = read_piece(was, from, errors, piece);
    if !came.goes_on() {
        return came;
    }
    let n = came.brought();
    *given = program.remark(errors, *given, &piece[..n]);
    let (behind, at) = program.feed(*s, piece, n, out);
    *s = behind;
    write_whole(came, output, errors, &out[..at])
}

// Nothing says that the input ends, so the turns are counted.
fn all_pieces<const N: usize, const M: usize, P: Program<N, M>, R: Read, W: Write, E: Print>(
    program: &P,
    from: &mut R,
    output: &mut W,
    errors: &E,
    s: &mut P::Stand,
    headed: Went,
    piece: &mut [u8; N],
    out: &mut [u8; M],
) -> Went
    ensures { loops.Looped P.after (P.text program.now) (P.wants program.now) s.old s.new headed result }
{
    let mut went = headed;
    let mut given = false;
    for _ in 0..u64::MAX {
        if !went.goes_on() || !program.wants(*s) {
            break;
        }
        went = one_piece(
            program, from, output, errors, s, went, &mut given, piece, out,
        );
    }
    went
}

// The header, the pieces, the end. Where a read or a write has failed nothing more is written.
pub fn over_pieces<const N: usize, const M: usize, P: Program<N, M>, R: Read, W: Write, E: Print>(
    program: &P,
    from: &mut R,
    output: &mut W,
    errors: &E,
) -> (P::Stand, Went)
    ensures ran { loops.Ran P.after (P.wants program.now) P.first (λ ps. P.header ++ P.printed program.now P.first ps)
        result.0 result.1 }
    ensures parts { loops.Parted P.after (P.text program.now) (P.wants program.now) P.first result.0 P.header
        (P.printed program.now result.0 []) result.1 }
{
    let mut piece = [0u8; N];
    let mut out = [0u8; M];
    let head = program.put_header(&mut out);
    let headed = write_whole(Went::going(), output, errors, &out[..head]);
    let mut s = program.begin();
    let read = all_pieces(
        program, from, output, errors, &mut s, headed, &mut piece, &mut out,
    );
    (s, program.conclude(output, errors, s, read, &mut out))
}
