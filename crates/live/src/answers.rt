// What the live judge answers. Each answer is one type, used by the code and by the statements alike.

// What a step is answered: the number of a bad step; a good step that is no commit, and a good commit; and the two that are the answer to every later step.
#[derive(Clone, Copy)]
pub enum Said {
    Refused(u16),
    Taken,
    Yes,
    Breach,
    CycleClosed,
}

// The numbers that stand for the last four in a lent buffer; a bad step has its own.
pub const TAKEN: u16 = 64;

pub const YES: u16 = 65;

pub const BREACH: u16 = 66;

pub const CLOSED: u16 = 67;
