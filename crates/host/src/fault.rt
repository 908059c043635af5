ghost use Rattle.host.specs.Faults.{host_fault_number};

use faults::Numbered;

// Why a change was refused, each ground by its number.
#[derive(Clone, Copy, PartialEq, Eq, Debug)]
pub enum HostFault {
    // The parent is not a directory.
    NoParent = 35,
    // The path is not nothing.
    Exists = 36,
    // The path is nothing.
    Missing = 37,
    // The directory has children.
    HasChildren = 38,
    // No node is free.
    Full = 39,
    // The allowance is 0.
    Exhausted = 40,
}

impl Numbered for HostFault {
    ghost number_of = { host_fault_number };

    fn number(self) -> u8 {
        self as u8
    }
}
