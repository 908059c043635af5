// Reads chains: references, and the arrows between them.
#![tactic(auto)]

pub mod chain;
pub mod reference;

pub use chain::Link;
pub use reference::Ref;
