// The front of a line is taken off. (What a line is: crate kernel_line.)
#![tactic(auto)]

ghost use Rattle.std.specs.Prelude.{◌≡◌};
ghost use Rattle.kernel_line.specs.Tables.{pop};

// The line without its front: each entry one place forward, and the last place free.
pub fn drop_front(line: &mut [u8; 32])
    ensures { line.new ≡ pop line.old }
{
    line.copy_within(1.., 0);
    line[31] = 0;
}
