ghost use Rattle.std.specs.Prelude.{◌≡◌};
ghost use Rattle.faults.specs.declared.error.ReadError.TheVariants.{Fault};
ghost use Rattle.records.specs.Faults.{ground_number};
ghost use Rattle.records.specs.declared.fault.Ground.TheVariants.{Value};

use faults::{Located, Numbered, ReadError};
use values::ValueFault;

// Why an index is refused.
#[derive(Clone, Copy, PartialEq, Eq, Debug)]
pub enum Ground {
    IndexTooLong,
    // The leading bytes or the body of a record pass the end.
    PastEnd,
    UnknownKind,
    // An entry comes before any package.
    NoPackage,
    // A file's body ends before its path does.
    ShortBody,
    // A name, a path or a content breaks its rule.
    Value(ValueFault),
    // A path is `/pkg` or below it.
    Reserved,
    // One package or entry more than there may be.
    TooMany,
    // The name or the path came before.
    Repeated,
}

// A ground, at the place of the refused record's first byte.
pub type IndexFault = Located<Ground, usize>;

impl Numbered for Ground {
    ghost number_of = { ground_number };

    fn number(self) -> u8 {
        match self {
            Ground::IndexTooLong => 3,
            Ground::PastEnd => 4,
            Ground::UnknownKind => 5,
            Ground::NoPackage => 6,
            Ground::ShortBody | Ground::Reserved => 7,
            Ground::Value(ValueFault::Malformed) => 7,
            Ground::Value(ValueFault::TooLong) => 8,
            Ground::TooMany => 9,
            Ground::Repeated => 10,
        }
    }
}

impl From<ValueFault> for Ground {
    ghost from_gives = { λ f g. g ≡ Value f };

    fn from(fault: ValueFault) -> Ground {
        Ground::Value(fault)
    }
}

impl From<Ground> for ReadError<Ground> {
    ghost from_gives = { λ g e. e ≡ Fault g };

    fn from(refusal: Ground) -> ReadError<Ground> {
        ReadError::Fault(refusal)
    }
}
