ghost use Rattle.std.specs.Prelude.{◌≡◌, true, false, MatchResult};
ghost use Rattle.host.specs.Faults.{open_fault_number};
ghost use Rattle.host.specs.Opening.{in_range};
ghost use Rattle.host.specs.declared.opening.OpenFault.TheVariants.{Capacity, Memory};

use std::alloc::AllocError;

// How many changes may still be made.
pub type Allowance = u16;

const CAPACITY_MIN: u16 = 1;

const CAPACITY_MAX: u16 = 256;

// The numbers that a host is opened with.
#[derive(Clone, Copy)]
pub struct Limits {
    pub capacity: u16,
    pub allowance: Allowance,
}

// Why a host was not opened.
#[derive(Clone, Copy, PartialEq, Eq, Debug)]
pub enum OpenFault {
    // The capacity is outside 1 to 256.
    Capacity,
    // There is not enough memory.
    Memory,
}

impl Limits {
    // The capacity, where a host may have it.
    pub fn capacity(self) -> Result<u16, OpenFault>
        ensures { MatchResult result (λ c. (in_range self ≡ true) × (c ≡ self.capacity)) (λ f. (f ≡ Capacity) × (in_range self ≡ false)) }
    {
        if !(CAPACITY_MIN..=CAPACITY_MAX).contains(&self.capacity) {
            return Err(OpenFault::Capacity);
        }
        Ok(self.capacity)
    }
}

impl OpenFault {
    // The number of the refusal; want of memory has none.
    pub fn number(self) -> Option<u8>
        ensures { result ≡ open_fault_number self }
    {
        match self {
            OpenFault::Capacity => Some(34),
            OpenFault::Memory => None,
        }
    }
}

impl From<AllocError> for OpenFault {
    ghost from_gives = { λ _ e. e ≡ Memory };

    fn from(_refused: AllocError) -> OpenFault {
        OpenFault::Memory
    }
}
