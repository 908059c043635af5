// A host over any other: changes are held in a log until they are committed.
#![tactic(auto)]

pub mod journal;

pub use journal::Journal;
