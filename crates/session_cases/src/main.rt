// Runs the programs walk and draw over the stored inputs 00.walk, 00.draw, 01.walk, .. up to the first number that has
// neither. tools/session_cases.py makes the inputs, and the second program what this must write.
#![tactic(auto)]

use std::fs::File;
use std::io;

// A program over the file of that number and kind; whether there is such a file. (Its name is made here, when it is this
// file's turn: where memory runs out for a name, the files before it were run.)
fn ran<F: FnOnce(&mut File) -> u8>(
    rt: &HostRuntime,
    i: u8,
    kind: &str,
    program: F,
) -> io::Result<bool>
    requires { F.IsAlwaysCallable program }
{
    let name = format!(in rt.alloc(); "{i:02}.{kind}")?;
    match File::open(rt, name.as_str()) {
        Ok(mut file) => {
            println!(rt; "file {name}")?;
            program(&mut file);
            Ok(true)
        }
        Err(_) => Ok(false),
    }
}

fn one_number(rt: &HostRuntime, i: u8) -> io::Result<bool> {
    let walked = ran(rt, i, "walk", |file| {
        programs_walk::run(file, &mut rt.stdout(), &rt.stderr())
    })?;
    let drawn = ran(rt, i, "draw", |file| {
        programs_draw::run(file, &mut rt.stdout(), &rt.stderr())
    })?;
    Ok(walked | drawn)
}

fn main(rt: HostRuntime) -> io::Result<()> {
    for i in 0..100u8 {
        if !one_number(&rt, i)? {
            break;
        }
    }
    Ok(())
}
