// What a step answers.
use kernel_line::TaskID;

// The number of the refusal, 0 for none; the running task after the step; the released task, 0 for nobody.
// Kept (promise): document 01 answers three numbers (step_of), and the C answer and a tape's record go by them.
#[derive(Clone, Copy)]
pub struct Answer {
    pub code: u8,
    pub running: TaskID,
    pub released: TaskID,
}
