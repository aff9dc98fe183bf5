// A step of a log: kind, transaction, object and source.
ghost use Rattle.std.specs.Prelude.{◌≤◌, ◌+◌, ◌*◌, length};
ghost use Rattle.verdict.specs.Inner.StepAt.{StepAt};

// The four numbers of a step.
#[derive(Clone, Copy, PartialEq, Eq)]
pub struct Step {
    pub kind: u16,
    pub tx: u16,
    pub obj: u16,
    pub src: u16,
}

// The kinds.
impl Step {
    pub const BEGIN: u16 = 1;

    pub const READ: u16 = 2;

    pub const WRITE: u16 = 3;

    pub const COMMIT: u16 = 4;

    pub const ABORT: u16 = 5;
}

// Step i of a log.
pub(crate) fn step_at(log: &[u16], i: usize) -> Step
    requires { 4 * i + 4 ≤ length log.now }
    ensures { StepAt log.now i result }
{
    let a = 4 * i;
    Step {
        kind: log[a],
        tx: log[a + 1],
        obj: log[a + 2],
        src: log[a + 3],
    }
}
