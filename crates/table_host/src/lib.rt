// A host whose nodes are records of a table, in byte order of their paths.
#![tactic(auto)]

pub mod record;
pub mod table;
pub mod table_host;

pub use table_host::TableHost;
