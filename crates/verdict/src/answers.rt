// What the judge answers. Each answer is one type, used by the code and by the statements alike.
use crate::limits::Transaction;

// A refusal: the number that turns a call away, and its place. The number is that of 01's table, which the C face hands on: names for the
// numbers would be a second table.
#[derive(Clone, Copy, PartialEq, Eq)]
pub struct Refusal(pub u16, pub usize);

// What is wrong with a read, and at which step.
#[derive(Clone, Copy)]
pub enum Fault {
    Own(usize),
    Aborted(usize),
    Unfinal(usize),
}

// The clean verdict.
#[derive(Clone, Copy)]
pub enum Cleanness {
    Yes,
    Unclean(Fault),
}

// Who wrote a version: the store before the log began, which is writer 0; a transaction, with the step of its commit; or the reader itself.
#[derive(Clone, Copy)]
pub enum Writer {
    Store,
    Committed(u16, usize),
    Reader(u16),
}

// The snapshot verdict: yes, a wrong read at a step with the writer that it should have found, or a wrong write at a step with its partner.
#[derive(Clone, Copy)]
pub enum Snapshot {
    Yes,
    Read(usize, Writer),
    Write(usize, u16),
}

// A verdict with a witness, in 01's four words. An order or a cycle says how many members it has.
#[derive(Clone, Copy)]
pub enum Answer {
    Order(usize),
    Cycle(usize),
    None,
    Unclean(Fault),
}

// The exact verdict: an answer, or how many are committed where these are too many to search (number 13).
#[derive(Clone, Copy)]
pub enum Exactness {
    Over(usize),
    Searched(Answer),
}

// An answer with its witness by value: the entries of its members stand first in the list, with zeros behind them.
#[derive(Clone, Copy)]
pub struct Witnessed {
    pub answer: Answer,
    pub list: [u16; Transaction::WITNESS],
}

// The exact verdict with its witness by value.
#[derive(Clone, Copy)]
pub struct ExactWitnessed {
    pub exactness: Exactness,
    pub list: [u16; Transaction::WITNESS],
}

// All five verdicts of a log.
#[derive(Clone, Copy)]
pub struct Judgement {
    pub clean: Cleanness,
    pub snapshot: Snapshot,
    pub conflict: Witnessed,
    pub version: Witnessed,
    pub exact: ExactWitnessed,
}
