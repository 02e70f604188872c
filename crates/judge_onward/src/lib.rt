// The next record of a tape, judged on the machine's tables: its command is carried out where they lie.
#![tactic(auto)]

ghost use Rattle.std.specs.Prelude.{◌≡◌};
ghost use Rattle.kernel.specs.Step.{tables};
ghost use Rattle.judge_pieces.specs.Onward as run;
ghost use Rattle.judge_pieces.specs.Onward.{run_of};

use judge_record::{command_of, compared, headed, refused};
use judge_verdict::Head;
use kernel::on_tables::step_trusting;
use record::fault;
use record_bytes::{is_marked, record_of};
use record_kept::Kept;
use rules::Refusal;

// The next 16 bytes. 15 and 17 come before any judgement of the record; behind a verdict nothing is looked at.
// From judging::Judge::fresh on the tables are always sound (judging/proofs/Whole), so the step does not test them. Of
// tables that somebody made up the answer is stepped_of's, and no rule speaks of it. Behind a record that differs they
// are the step's, as behind one that agrees.
pub fn onward(
    base: &mut [u8; 32],
    ready: &mut [u8; 32],
    delayed: &mut [u8; 32],
    held: &mut [u8; 32],
    way: &mut [u8; 32],
    until: &mut [u64; 32],
    ceiling: &mut [u8; 8],
    waiter: &mut [u8; 8],
    clock: &mut u64,
    started: &mut bool,
    h: Head,
    p: &[u8],
) -> Head
    ensures { run_of (tables base.new ready.new delayed.new held.new
        way.new until.new ceiling.new waiter.new clock.new
        started.new) result
        ≡ run.onward (run_of
        (tables base.old ready.old delayed.old held.old way.old
        until.old ceiling.old waiter.old clock.old started.old)
        h) p.now }
{
    if h.verdict.is_some() {
        return h;
    }
    let place = h.place;
    let t = record_of(p);
    if !is_marked(p) {
        return refused(h, Refusal::Record.number(), t.value);
    }
    if let Err(refusal) = fault(place, t) {
        return refused(h, refusal.number(), t.value);
    }
    if place == 0 {
        return headed(h, t.value);
    }
    let rules = step_trusting(
        base,
        ready,
        delayed,
        held,
        way,
        until,
        ceiling,
        waiter,
        clock,
        started,
        command_of(t),
    );
    compared(h, t, Kept::from(rules))
}
