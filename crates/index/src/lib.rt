// Reads a package index: packages by name, each with the entries that it puts on a host.
#![tactic(auto)]

ghost use Rattle.index.specs.Law.{ReadExactly, HeldLegally, ProperlyHeld};
ghost use Rattle.index.specs.Refusals.{RefusedByFirstGround, RefusedAtFirstFault};

pub mod error;
pub mod index;
mod limits;
pub mod packages;

pub use error::IndexError;
pub use index::Index;
pub use packages::Package;
pub use records::{Entry, Ground, IndexFault};

// Bytes are read as packages exactly where they are a row of well-formed records that spells these packages, within the limits and without repeats.
pub fn read_exactly()
    ensures { ReadExactly }
{}

// Every index that can be held keeps the limits and the rules, and repeats nothing.
pub fn held_legally()
    ensures { HeldLegally }
{}

// Every package that can be held is proper: no two of its steps have the same path, those of `/pkg` and of its marker included.
pub fn properly_held()
    ensures { ProperlyHeld }
{}

// A whole record is refused by the first of its grounds that stands, and taken where none does.
pub fn refused_by_first_ground()
    ensures { RefusedByFirstGround }
{}

// Bytes that are refused are too many, or those before the place are an index of their own and the record there is at fault.
pub fn refused_at_first_fault()
    ensures { RefusedAtFirstFault }
{}
