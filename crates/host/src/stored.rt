ghost use Rattle.std.specs.Prelude.{◌≡◌};
ghost use Rattle.values.specs.Texts.{content_text};
ghost use Rattle.fs.specs.Tree.{is_file_of};
ghost use Rattle.host.specs.Kinds.{kind_of};
ghost use Rattle.host.specs.Stores.{node_of};

use crate::kind::Kind;
use values::Content;

// What a record of a host stores of its node.
#[derive(Clone, Copy, PartialEq, Eq)]
pub enum Stored {
    Directory,
    File(Content),
}

impl Stored {
    pub fn kind(&self) -> Kind
        ensures { result ≡ kind_of (node_of self.now) }
    {
        match self {
            Stored::Directory => Kind::Directory,
            Stored::File(_) => Kind::File,
        }
    }

    // Whether it is a file that holds `c`.
    pub fn holds(&self, c: &Content) -> bool
        ensures { result ≡ is_file_of (content_text c.now) (node_of self.now) }
    {
        Stored::File(*c) == *self
    }
}
