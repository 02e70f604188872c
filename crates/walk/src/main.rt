// The program walk, over standard input.
#![tactic(auto)]

fn main(rt: HostRuntime) {
    programs_walk::run(&mut rt.stdin(), &mut rt.stdout(), &rt.stderr());
}
