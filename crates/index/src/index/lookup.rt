// What an index is asked.
ghost use Rattle.std.specs.Prelude.{◌≡◌, map, length};
ghost use Rattle.std.specs.Option.{option_map};
ghost use Rattle.values.specs.Texts.{name_text};
ghost use Rattle.index.specs.Indexes.{index_of};
ghost use Rattle.index.specs.Packages.{pack_of};
ghost use Rattle.index.specs.Lookups.{position_of, found};

use super::Index;
use crate::packages::Package;
use values::Name;

impl Index {
    // The number of packages.
    #[tactic(auto, using(crate::proofs::Lookups::packs_length))]
    pub fn len(&self) -> usize
        ensures { result ≡ length (index_of self.now) }
    {
        self.packages.len()
    }

    // The packages in the order in which the index lists them.
    pub fn packages(&self) -> &[Package]
        ensures { map pack_of result.now ≡ index_of self.now }
    {
        self.packages.as_slice()
    }

    // Where the package of this name stands, from 0.
    pub fn position(&self, name: &Name) -> Option<usize>
        ensures { result ≡ position_of (name_text name.now) (index_of self.now) }
    {
        self.packages.iter().position(|p| *name == p.name())
    }

    // The package of this name.
    pub fn package(&self, name: &Name) -> Option<&Package>
        ensures { option_map (λ p. pack_of p.now) result ≡ found (name_text name.now) (index_of self.now) }
    {
        self.packages.iter().find(|p| *name == p.name())
    }
}
