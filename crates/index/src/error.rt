ghost use Rattle.std.specs.Prelude.{◌≡◌};
ghost use Rattle.index.specs.Errors.{error_at};

use faults::{Numbered, ReadError};
use records::{Ground, IndexFault};

// Why no index is read.
pub type IndexError = ReadError<IndexFault>;

// The error of the record at this place.
pub(crate) fn error_at(error: ReadError<Ground>, place: usize) -> IndexError
    ensures { result ≡ error_at place error }
{
    match error {
        ReadError::Fault(ground) => ReadError::Fault(ground.at(place)),
        ReadError::Memory => ReadError::Memory,
    }
}
