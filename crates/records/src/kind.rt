ghost use Rattle.std.specs.Prelude.{◌≡◌};
ghost use Rattle.records.specs.Kinds.{kind_of};

use crate::fault::Ground;

// What a record adds to an index, by the number of its kind.
#[derive(Clone, Copy)]
pub(crate) enum RecordKind {
    Package,
    Directory,
    File,
}

impl TryFrom<u16> for RecordKind {
    type Error = Ground;

    ghost try_from_gives = { λ kind r. r ≡ kind_of kind };

    fn try_from(kind: u16) -> Result<RecordKind, Ground> {
        match kind {
            1 => Ok(RecordKind::Package),
            2 => Ok(RecordKind::Directory),
            3 => Ok(RecordKind::File),
            _ => Err(Ground::UnknownKind),
        }
    }
}
