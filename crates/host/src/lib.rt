// Hosts: what changes are made on, by what they mean.
#![tactic(auto)]

pub mod fault;
pub mod host;
pub mod inspect;
pub mod kind;
pub mod opening;
pub mod stored;

pub use fault::HostFault;
pub use host::Host;
pub use inspect::Inspect;
pub use kind::Kind;
pub use opening::{Allowance, Limits, OpenFault};
pub use stored::Stored;
