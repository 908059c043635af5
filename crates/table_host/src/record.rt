use host::Stored;
use values::Path;

// One node of a table.
#[derive(Clone, Copy)]
pub struct Record {
    pub path: Path,
    pub node: Stored,
}
