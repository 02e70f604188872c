// The judge of tapes for C hosts: a host lends a whole tape, and four numbers to be told in.
//
// docs/JUDGE-C.md has the call for a host's author, and judge_call/specs/Call says what it answers and leaves. A tape
// of every length, whatever it holds, gets an answer, and so does every count of numbers: the exported function has no
// `requires`.
#![tactic(auto)]

ghost use Rattle.std.specs.Prelude.{◌≡◌};
ghost use Rattle.judge_call.specs.Call as call;

use judge_call::Reply;
use judging::{Judgement, Verdict, judged};

fn reply_to(j: Judgement) -> Reply
    ensures { result ≡ call.reply_to j }
{
    let seed = j.seed;
    let verdict = j.verdict;
    match verdict {
        Verdict::Agrees(records) => Reply {
            code: 0,
            numbers: [seed, records as u64, 0, 0],
        },
        Verdict::Differs(d) => Reply {
            code: 255,
            numbers: [
                seed,
                d.number as u64,
                u64::from(d.tape.pack()),
                u64::from(d.rules.pack()),
            ],
        },
        Verdict::Refused(e) => Reply {
            code: u32::from(e.code),
            numbers: [seed, e.number as u64, 0, 0],
        },
    }
}

// Judges a tape, which it only reads: 0 where it agrees, 255 where it differs, 15 or 17 where it is refused. Four
// numbers are written; where not four are lent, the answer is 1 and none is.
#[unsafe(no_mangle)]
pub extern "C" fn rvn_judge(tape: &[u8], verdict: &mut [u64]) -> u32
    ensures { (result ≡ call.answer tape.now verdict.old)
        × (verdict.new ≡ call.numbers tape.now verdict.old) }
{
    if verdict.len() != 4 {
        return 1;
    }
    let t = reply_to(judged(tape));
    let numbers = t.numbers;
    verdict[0] = numbers[0];
    verdict[1] = numbers[1];
    verdict[2] = numbers[2];
    verdict[3] = numbers[3];
    t.code
}
