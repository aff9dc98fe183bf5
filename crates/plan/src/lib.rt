// Which commits to redo: a judge that says of any proposal whether it will do, and a planner that brings one.
#![tactic(auto)]

mod answers;
mod changed;
mod committed;
mod giving_back;
mod judging;
mod laying;
mod marks;
mod members;
mod planner;
mod refusal;

pub use answers::Acceptance;
pub use judging::accepts;
pub use planner::redo;
