// Refusals by their numbers and places, and want of memory beside them.
#![tactic(auto)]

pub mod error;
pub mod located;
pub mod numbered;

pub use error::ReadError;
pub use located::Located;
pub use numbered::Numbered;
