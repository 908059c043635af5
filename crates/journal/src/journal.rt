ghost use Rattle.std.specs.Prelude.{◌≡◌, true};
ghost use Rattle.changes.specs.Logs.{changes};
ghost use Rattle.journal.specs.Held.{takes};

use changes::Log;
use host::Inspect;

pub mod calls;
pub mod ends;

// What is below, and the changes that are not made there yet.
#[derive(Drop)]
pub struct Journal<B: Inspect> {
    below: B,
    log: Log,
    // They can be made there, one after the other.
    ghost stands: { takes (changes log) (B.means below) ≡ true },
}
