ghost use Rattle.std.specs.Prelude.{◌≡◌};
ghost use Rattle.faults.specs.Faults.{error_number};
ghost use Rattle.faults.specs.declared.error.ReadError.TheVariants.{Fault, Memory};

use crate::located::Located;
use crate::numbered::Numbered;
use std::alloc::AllocFailed;

// Why nothing was read.
#[derive(Clone, Copy, PartialEq, Eq, Debug)]
pub enum ReadError<F> {
    // What was to be read is refused.
    Fault(F),
    // Memory is wanting, which is no fault of what was read.
    Memory,
}

impl<F: Numbered> ReadError<F> {
    // The number of the refusal; want of memory has none.
    pub fn number(self) -> Option<u8>
        ensures { result ≡ error_number F.number_of self }
    {
        match self {
            ReadError::Fault(f) => Some(f.number()),
            ReadError::Memory => None,
        }
    }
}

impl<G, P> From<Located<G, P>> for ReadError<Located<G, P>> {
    ghost from_gives = { λ f e. e ≡ Fault f };

    fn from(fault: Located<G, P>) -> ReadError<Located<G, P>> {
        ReadError::Fault(fault)
    }
}

impl<F, T: Drop> From<AllocFailed<T>> for ReadError<F> {
    ghost from_gives = { λ _ e. e ≡ Memory };

    fn from(_refused: AllocFailed<T>) -> ReadError<F> {
        ReadError::Memory
    }
}
