ghost use Rattle.std.specs.Prelude.{◌≡◌};
ghost use Rattle.values.specs.Texts.{path_text};
ghost use Rattle.records.specs.Entries.{entry_of, entry_path};

use values::{Content, Path};

// What a package puts at a path.
#[derive(Clone, Copy)]
pub enum Entry {
    Directory(Path),
    File(Path, Content),
}

impl Entry {
    pub fn path(&self) -> Path
        ensures { path_text result ≡ entry_path (entry_of self.now) }
    {
        match *self {
            Entry::Directory(path) | Entry::File(path, _) => path,
        }
    }
}
