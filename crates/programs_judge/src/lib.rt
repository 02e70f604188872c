// The program judge: reads a tape, and prints its seed and the verdict on it.
#![tactic(auto)]

ghost use Rattle.std.specs.Prelude.{◌≡◌, [], length, refl};
ghost use Rattle.std.proofs.Common.{rules, false};
ghost use Rattle.judging.specs.Pieces.{at_first, fed, judged_in};
ghost use Rattle.report_text.specs.Report.{report_room, report_text};
ghost use Rattle.decimal.specs.Buffer.{InFront};
ghost use Rattle.programs_flow.specs.Loops as loops;
ghost use Rattle.programs_judge.specs.Judged.{silent, judge_wants, Judged, JudgedOrFailed};

use judging::{Judge, Judgement};
use programs_flow::{Program, Went, over_pieces, write_whole};
use report::put_report;
use std::io::{Print, Read, Write};

// What it reads at a time. It prints nothing before the end, so it is lent no room: the report has its own, which is not
// there while records are judged.
const PIECE: usize = 65536;

const LENT: usize = 0;

// There is room for the report of every judgement.
fn put_judgement(j: Judgement, out: &mut [u8]) -> usize
    requires { report_room ≡ length out.old }
    ensures { loops.Put result out.new (report_text j) × InFront result out.new }
{
    put_report(out, j)
}

// It prints nothing until a verdict is there, or the tape has ended.
struct Judging;

impl Program<PIECE, LENT> for Judging {
    type Stand = Judge;

    ghost first = { at_first };

    ghost after = { fed };

    ghost wants = { λ x. judge_wants };

    ghost header = { [] };

    ghost text = { λ x. silent };

    ghost printed = { λ x j ps. report_text (judged_in j ps) };

    ghost remarks = { λ x p. false };

    fn begin(&self) -> Judge {
        Judge::fresh()
    }

    fn wants(&self, j: Judge) -> bool {
        j.goes_on()
    }

    fn put_header(&self, _out: &mut [u8; LENT]) -> usize {
        0
    }

    // Of a piece of a tape there is nothing to say.
    fn remark<E: Print>(&self, _errors: &E, given: bool, _piece: &[u8]) -> bool {
        given
    }

    fn feed(
        &self,
        j: Judge,
        piece: &[u8; PIECE],
        n: usize,
        _out: &mut [u8; LENT],
    ) -> (Judge, usize) {
        (j.feed(&piece[..n.min(piece.len())]), 0)
    }

    // The report. Where a read failed the tape is not known, and nothing is said of it.
    fn conclude<W: Write, E: Print>(
        &self,
        output: &mut W,
        errors: &E,
        j: Judge,
        read: Went,
        _out: &mut [u8; LENT],
    ) -> Went {
        if read.has_failed() {
            return read;
        }
        let mut out = [0u8; 512];
        let n = put_judgement(j.end(), &mut out);
        write_whole(read, output, errors, &out[..n])
    }

    ghost fits = { Prim.search rules };

    ghost by_piece = { λ x j p ps. unfold judged_in in refl };
}

// The judgement of all that was read, and how the work stands behind its report.
fn work<R: Read, W: Write, E: Print>(from: &mut R, output: &mut W, errors: &E) -> (Judgement, Went)
    ensures { Judged result.0 result.1 }
{
    let (judge, went) = over_pieces(&Judging, from, output, errors);
    (judge.end(), went)
}

// It answers its status: the verdict's, or 3 where a read or a write failed. What it reads and writes no contract can
// say; what it writes of the bytes read is judging's and report's.
pub fn run<R: Read, W: Write, E: Print>(from: &mut R, output: &mut W, errors: &E) -> u8
    ensures { JudgedOrFailed result }
{
    let (judgement, went) = work(from, output, errors);
    if went.has_failed() {
        return went.status();
    }
    judging::status(judgement.verdict)
}
