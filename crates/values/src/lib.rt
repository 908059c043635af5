// Paths, names and contents: bounded values that keep their rules, so that no call that takes one needs memory or a check.
#![tactic(auto)]

ghost use Rattle.values.specs.Rules.{PathsAreNames};

pub mod content;
pub mod fault;
pub mod name;
pub mod path;
mod rules;
pub mod text;

pub use content::Content;
pub use fault::ValueFault;
pub use name::Name;
pub use path::Path;

// The rule of a path, as its users put it: names, each behind a slash.
pub fn paths_are_names()
    ensures { PathsAreNames }
{}
