// The chip's own delay queue, as a type, no code: specs/ says how it works, proofs/ that it answers as the delay line
// does. (The code: crate queue.)
#![tactic(auto)]

// The registers: the soonest task, 0 where nobody is delayed, with its time and its age. The table, by task number: the
// times and ages of the others, 0 and 0 for a task that is not in it. An age is 1, and one more for each task that came
// in later for the same time.
#[derive(Clone, Copy)]
pub struct Queue {
    pub task: u8,
    pub time: u64,
    pub age: u8,
    pub times: [u64; 32],
    pub ages: [u8; 32],
}
