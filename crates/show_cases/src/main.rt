// Runs the program show over the stored inputs: of 00.show, 01.show, .. all lines, of 01.line line 1, of 10.far line
// 1000. tools/show_cases.py makes the inputs, and the second program what this must write.
#![tactic(auto)]

use std::fs::File;
use std::io;

fn show(rt: &HostRuntime, name: &str, only: u64) -> io::Result<()> {
    match File::open(rt, name) {
        Ok(mut file) => {
            println!(rt; "file {name}")?;
            programs_show::run(&mut file, &mut rt.stdout(), &rt.stderr(), only);
            Ok(())
        }
        Err(_) => Ok(()),
    }
}

fn one_number(rt: &HostRuntime, i: u8) -> io::Result<()> {
    let all = format!(in rt.alloc(); "{i:02}.show")?;
    let line = format!(in rt.alloc(); "{i:02}.line")?;
    let far = format!(in rt.alloc(); "{i:02}.far")?;
    show(rt, all.as_str(), 0)?;
    show(rt, line.as_str(), u64::from(i))?;
    show(rt, far.as_str(), u64::from(i) * 100)
}

// Not every number has each of the three.
fn main(rt: HostRuntime) -> io::Result<()> {
    for i in 0..100u8 {
        one_number(&rt, i)?;
    }
    Ok(())
}
