// The records of a package index: how bytes are split into them, and what each says.
#![tactic(auto)]

ghost use Rattle.records.specs.Saying.{SaidExactly};
ghost use Rattle.records.specs.Spelling.{SplitExactly};

pub mod entry;
pub mod fault;
pub mod item;
pub mod iter;
mod kind;
pub mod row;

pub use entry::Entry;
pub use fault::{Ground, IndexFault};
pub use item::Item;
pub use iter::Records;
pub use row::Record;

// Bytes are split into just the records that they are.
pub fn split_exactly()
    ensures { SplitExactly }
{}

// A record says just what it is written for, and only what is allowed.
pub fn said_exactly()
    ensures { SaidExactly }
{}
