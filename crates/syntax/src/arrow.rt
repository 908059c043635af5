// What joins two references: `->`, or `~>`, by which the left one notifies the right one too.
#[derive(Clone, Copy, PartialEq, Eq, Debug)]
pub enum Arrow {
    Before,
    Notifies,
}
