ghost use Rattle.std.specs.Prelude.{◌≡◌, ℕ, ◌≤◌, true, vec_len};
ghost use Rattle.fs.specs.Package.{distinct};
ghost use Rattle.index.specs.Packages.{packs_of};
ghost use Rattle.index.specs.Packs.{names};

use crate::packages::Package;

pub mod lookup;
pub mod reading;

// Packages by their names, in order.
#[derive(Drop)]
pub struct Index {
    packages: Vec<Package>,
    ghost few: { vec_len packages ≤ 8 },
    ghost apart: { distinct (names (packs_of packages)) ≡ true },
}
