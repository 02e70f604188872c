// The programs walk, draw, judge and show, over standard input: what is read there is handed to session, or to judging,
// and what is printed of it is written to standard output. The first word of the command line says which one runs.
// Each answers its status: 0 where it did its work (judge: the tape agrees), 1 (judge) differs, 2 (judge) refused,
// (show) the line that is asked for is not there or is no number, 3 where a read or a write failed. A failed read or
// write ends the work at once, and nothing is carried out or printed of what was not read. And salvage, over the two
// files that the command line names: 0 where the new tape is there, 2 bad use, 3 where a read or a write failed. Where
// the first word is none of the five the status is 2.
#![tactic(auto)]

ghost use Rattle.std.specs.Prelude.{◌≤◌};
ghost use Rattle.programs_flow.specs.Loops.{DoneOrFailed};
ghost use Rattle.programs_judge.specs.Judged.{JudgedOrFailed};
ghost use Rattle.programs_salvage.specs.Work.{DoneRefusedFailed};
ghost use Rattle.programs_show.specs.Work as show;

use programs_flow::refused;
use std::process::ExitCode;
use std::rt::Env;

// Each program's buffers stand on the stack only where it runs: none of the five is inlined.
// Kept (promise): the five names, each with what its program promises.
#[inline(never)]
pub fn rvn_program_walk(rt: &HostRuntime) -> u32
    ensures { DoneOrFailed result }
{
    u32::from(programs_walk::run(&mut rt.stdin(), &mut rt.stdout(), &rt.stderr()))
}

#[inline(never)]
pub fn rvn_program_draw(rt: &HostRuntime) -> u32
    ensures { DoneOrFailed result }
{
    u32::from(programs_draw::run(&mut rt.stdin(), &mut rt.stdout(), &rt.stderr()))
}

#[inline(never)]
pub fn rvn_program_judge(rt: &HostRuntime) -> u32
    ensures { JudgedOrFailed result }
{
    u32::from(programs_judge::run(&mut rt.stdin(), &mut rt.stdout(), &rt.stderr()))
}

#[inline(never)]
pub fn rvn_program_salvage(rt: &HostRuntime) -> u32
    ensures { DoneRefusedFailed result }
{
    u32::from(programs_salvage::run(rt, &mut rt.stdout(), &rt.stderr()))
}

#[inline(never)]
pub fn rvn_program_show(rt: &HostRuntime) -> u32
    ensures { show.DoneRefusedFailed result }
{
    u32::from(programs_show::run_asked(rt, &mut rt.stdin(), &mut rt.stdout(), &rt.stderr()))
}

// The first word of the command line says which program runs. It answers that program's status.
fn chosen(rt: &HostRuntime) -> u32
    ensures { result ≤ 3 }
{
    let mut word = [0u8; 8];
    let n = rt.arg(1, &mut word).unwrap_or(0);
    match &word[..n] {
        b"walk" => rvn_program_walk(rt),
        b"draw" => rvn_program_draw(rt),
        b"judge" => rvn_program_judge(rt),
        b"salvage" => rvn_program_salvage(rt),
        b"show" => rvn_program_show(rt),
        _ => refused(
            &rt.stderr(),
            2,
            b"programs: the first word says which program runs: walk, draw, judge, salvage or show\n",
        ) as u32,
    }
}

fn main(rt: HostRuntime) -> ExitCode {
    ExitCode::from(chosen(&rt) as u8)
}
