ghost use Rattle.std.specs.Prelude.{◌≡◌, false, [], ◌∷◌, ◌++◌, map};
ghost use Rattle.values.specs.Texts.{path_text, name_text};
ghost use Rattle.fs.specs.Tree.{has};
ghost use Rattle.fs.specs.Package.{entry_paths, under_pkg};
ghost use Rattle.records.specs.Entries.{entry_of, entry_path};
ghost use Rattle.index.specs.Errors.{Added};
ghost use Rattle.index.specs.Packages.{pack_of};
ghost use Rattle.index.specs.Reading.{extended};

use super::Package;
use crate::limits::admit;
use faults::ReadError;
use records::{Entry, Ground};
use std::alloc::Global;
use values::{Name, Path};

const ENTRIES_MAX: usize = 16;

impl Package {
    pub(crate) fn new(heap: Global, name: Name) -> Package
        ensures { pack_of result ≡ (name_text name, []) }
    {
        Package {
            name,
            entries: Vec::new(heap),
        }
    }

    pub fn name(&self) -> Name
        ensures { name_text result ≡ (pack_of self.now).0 }
    {
        self.name
    }

    // The entries in the order in which the index lists them.
    pub fn entries(&self) -> &[Entry]
        ensures { map entry_of result.now ≡ (pack_of self.now).1 }
    {
        self.entries.as_slice()
    }

    fn lists(&self, path: &Path) -> bool
        ensures { result ≡ has (path_text path.now) (entry_paths (pack_of self.now).1) }
    {
        self.entries.iter().any(|e| *path == e.path())
    }

    // Lists one more entry.
    pub(crate) fn add(&mut self, new: Entry) -> Result<(), ReadError<Ground>>
        requires { under_pkg (entry_path (entry_of new)) ≡ false }
        ensures { Added (pack_of self.old) (extended (pack_of self.old) (entry_of new)) result (pack_of self.new) }
    {
        admit(ENTRIES_MAX, self.entries.len(), self.lists(&new.path()))?;
        self.entries.push(new)?;
        Ok(())
    }
}
