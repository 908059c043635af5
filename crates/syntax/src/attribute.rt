// The attributes of a declaration.
#[derive(Clone, Copy, PartialEq, Eq, Debug)]
pub enum Attribute {
    Ensure,
    Content,
}

// What `ensure` may be given.
#[derive(Clone, Copy, PartialEq, Eq, Debug)]
pub enum Want {
    File,
    Directory,
    Absent,
    Present,
    Running,
}
