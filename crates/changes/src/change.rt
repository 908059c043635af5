use values::{Content, Path};

pub mod methods;

// One change of a tree.
#[derive(Clone, Copy)]
pub enum Change {
    Mkdir(Path),
    Creat(Path, Content),
    Rm(Path),
}
