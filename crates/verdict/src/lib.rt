// The judge of a log: what it may be handed, what it answers, and its entry points.
#![tactic(auto)]

mod all_verdicts;
pub mod answers;
mod cleanness;
mod conflict_graph;
mod conflict_reasons;
mod edges;
mod entries;
mod exactness;
mod following;
mod leaving;
mod limits;
mod own_reads;
mod reasons;
mod refusal;
mod search;
mod snapshots;
mod step;
mod tables;
mod taking;
mod touching;
mod version_graph;
mod version_reasons;
mod walk;

pub use all_verdicts::judge;
pub use cleanness::{clean, fault_step};
pub use conflict_graph::conflict;
pub use exactness::exact;
pub use following::{all_zero, next};
pub use leaving::clear;
pub use limits::{Log, Object, Transaction};
pub use reasons::{RW, WR, WW};
pub use refusal::check;
pub use snapshots::snapshot;
pub use step::Step;
pub use version_graph::version;
pub use walk::committed_count;
