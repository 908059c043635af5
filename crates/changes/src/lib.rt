// Changes, and a log that holds them in the order in which they were taken.
#![tactic(auto)]

pub mod change;
pub mod log;

pub use change::Change;
pub use log::{HELD_MAX, Log, LogFull};
