// The parts of a manifest's text: its refusals, the words of the language, and single tokens as the grammar wants them.
#![tactic(auto)]

pub mod arrow;
pub mod attribute;
pub mod error;
pub mod fault;
pub mod kind;
pub mod mark;
pub mod part;

pub use arrow::Arrow;
pub use attribute::{Attribute, Want};
pub use error::TextError;
pub use fault::{Ground, TextFault};
pub use kind::Kind;
pub use mark::Mark;
pub use part::Value;
