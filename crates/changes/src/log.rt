ghost use Rattle.std.specs.Prelude.{ℕ, ◌≤◌, vec_len, vec_capacity};

use crate::change::Change;

pub mod methods;

// How many changes a log holds at most.
pub const HELD_MAX: u16 = 384;

// Up to 384 changes, in the order in which they were taken.
#[derive(Drop)]
pub struct Log {
    held: Vec<Change>,
    // Room for all of them is reserved, so that no change allocates.
    ghost room: { 384 ≤ vec_capacity held },
    ghost few: { vec_len held ≤ 384 },
}

// Why a change was not held: the log holds as many as it can.
#[derive(Clone, Copy, PartialEq, Eq, Debug)]
pub struct LogFull;

// How many nodes changes make, and how many they remove.
#[derive(Clone, Copy)]
pub struct Moves {
    pub made: u16,
    pub gone: u16,
}
