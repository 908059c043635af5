use host::Stored;
use values::Path;

// One node, with the numbers of the slots that its first child and its next sibling stand in.
#[derive(Clone, Copy)]
pub struct Record {
    pub path: Path,
    pub node: Stored,
    pub first: Option<usize>,
    pub next: Option<usize>,
}

// Where a link is held: for the root's first child, or in the record of a slot.
#[derive(Clone, Copy)]
pub enum Place {
    Root,
    First(usize),
    Next(usize),
}
