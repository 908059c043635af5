ghost use Rattle.values.specs.Faults.{value_fault_number};

use faults::Numbered;

// Why bytes are no value.
#[derive(Clone, Copy, PartialEq, Eq, Debug)]
pub enum ValueFault {
    // A path or a name breaks its rule.
    Malformed = 1,
    // A content has too many bytes.
    TooLong = 2,
}

impl Numbered for ValueFault {
    ghost number_of = { value_fault_number };

    fn number(self) -> u8 {
        self as u8
    }
}
