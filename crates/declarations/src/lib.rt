// Reads declarations: a kind, a title, and a block of attributes.
#![tactic(auto)]

pub mod block;
pub mod declared;
pub mod given;
pub mod resource;

pub use declared::Declared;
pub use resource::Resource;
