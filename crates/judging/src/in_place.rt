// The records of a piece, judged on the machine's tables: each command is carried out where they lie.
ghost use Rattle.std.specs.Prelude.{◌≡◌};
ghost use Rattle.kernel.specs.Step.{tables};
ghost use Rattle.judging.specs.Pieces as pieces;
ghost use Rattle.judge_pieces.specs.Onward.{run_of};

use judge_onward::onward;
use judge_pieces::Run;
use judge_verdict::Head;
use kernel::Kernel;
use record::RECORD_BYTES;

// The records that lie whole in a piece, from its start on. The machine comes as its tables, and each record is judged
// on them where they lie: no turn copies them. Nobody else calls `onward`, so it is compiled into the loop.
pub(crate) fn records(
    mut base: [u8; 32],
    mut ready: [u8; 32],
    mut delayed: [u8; 32],
    mut held: [u8; 32],
    mut way: [u8; 32],
    mut until: [u64; 32],
    mut ceiling: [u8; 8],
    mut waiter: [u8; 8],
    mut clock: u64,
    mut started: bool,
    mut head: Head,
    piece: &[u8],
) -> Run
    ensures { result ≡ (pieces.through
        (run_of (tables base ready delayed held way until ceiling waiter clock started) head)
        piece.now).run }
{
    let mut at = 0;
    while RECORD_BYTES <= piece.len() - at {
        let end = at + RECORD_BYTES;
        head = onward(
            &mut base,
            &mut ready,
            &mut delayed,
            &mut held,
            &mut way,
            &mut until,
            &mut ceiling,
            &mut waiter,
            &mut clock,
            &mut started,
            head,
            &piece[at..end],
        );
        at = end;
    }
    let kernel = Kernel {
        base,
        ready,
        delayed,
        held,
        way,
        until,
        ceiling,
        waiter,
        clock,
        started,
    };
    Run {
        kernel,
        place: head.place,
        seed: head.seed,
        verdict: head.verdict,
    }
}
