// A host in memory: node records that are linked to their first child and their next sibling.
#![tactic(auto)]

mod arena;
pub mod linked;
mod record;

pub use linked::LinkedHost;
