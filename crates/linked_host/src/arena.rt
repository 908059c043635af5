use crate::record::Record;

pub mod methods;

// The slots of the records, and the root's first child. A slot without a record is free.
// All slots are taken at opening, so that no change allocates, and links are the numbers of slots.
// Without an invariant of its own, so that none is owed in the middle of a change.
#[derive(Drop)]
pub struct Arena {
    pub slots: Vec<Option<Record>>,
    pub first: Option<usize>,
}
