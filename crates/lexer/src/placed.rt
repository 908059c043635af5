use crate::position::Position;

// A part of a text, with the position of its first byte.
#[derive(Clone, Copy, PartialEq, Eq, Debug)]
pub struct Placed<T> {
    pub part: T,
    pub at: Position,
}
