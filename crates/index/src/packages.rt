ghost use Rattle.std.specs.Prelude.{◌≡◌, ℕ, ◌≤◌, true, false, vec_len};
ghost use Rattle.fs.specs.Package.{entry_paths, distinct, any_under_pkg};
ghost use Rattle.index.specs.Listed.{entries_of};

use records::Entry;
use values::Name;

pub mod methods;

// A name, with what the package puts on a host, in order.
#[derive(Drop)]
pub struct Package {
    name: Name,
    entries: Vec<Entry>,
    ghost few: { vec_len entries ≤ 16 },
    ghost apart: { distinct (entry_paths (entries_of entries)) ≡ true },
    // Packages are marked by files below `/pkg`, which no entry may stand in the way of.
    ghost outside: { any_under_pkg (entry_paths (entries_of entries)) ≡ false },
}
