// Runs the program judge over the stored tapes 000.tape, 001.tape, .. up to the first number that has none.
// tools/judge_cases.py makes the tapes, and the second program what this must write.
#![tactic(auto)]

use std::fs::File;
use std::io;

fn one_tape(rt: &HostRuntime, i: u8) -> io::Result<bool> {
    let name = format!(in rt.alloc(); "{i:03}.tape")?;
    match File::open(rt, name.as_str()) {
        Ok(mut file) => {
            println!(rt; "file {name}")?;
            programs_judge::run(&mut file, &mut rt.stdout(), &rt.stderr());
            Ok(true)
        }
        Err(_) => Ok(false),
    }
}

fn main(rt: HostRuntime) -> io::Result<()> {
    for i in 0..200u8 {
        if !one_tape(&rt, i)? {
            break;
        }
    }
    Ok(())
}
