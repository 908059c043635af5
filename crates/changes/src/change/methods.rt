ghost use Rattle.std.specs.Prelude.{◌≡◌};
ghost use Rattle.values.specs.Texts.{path_text, content_text};
ghost use Rattle.fs.specs.Change.{altered, leaves as node_left, makes};
ghost use Rattle.fs.specs.Tree.{parent, same, is_file_of};
ghost use Rattle.host.specs.Kinds.{kind_of};
ghost use Rattle.host.specs.Stores.{node_in};
ghost use Rattle.changes.specs.Changes.{change_of};

use super::Change;
use host::{Kind, Stored};
use values::{Content, Path};

impl Change {
    pub fn path(self) -> Path
        ensures { path_text result ≡ altered (change_of self) }
    {
        match self {
            Change::Mkdir(p) | Change::Creat(p, _) | Change::Rm(p) => p,
        }
    }

    // The node that stands at its path once it is made, if there is one.
    pub fn leaves(self) -> Option<Stored>
        ensures { node_in result ≡ node_left (change_of self) }
    {
        match self {
            Change::Mkdir(_) => Some(Stored::Directory),
            Change::Creat(_, c) => Some(Stored::File(c)),
            Change::Rm(_) => None,
        }
    }

    // What stands at its path once it is made.
    pub fn kind(self) -> Kind
        ensures { result ≡ kind_of (node_left (change_of self)) }
    {
        self.leaves().map_or(Kind::Nothing, |node| node.kind())
    }

    // Whether it leaves a file that holds `c`.
    pub fn holds(self, c: &Content) -> bool
        ensures { result ≡ is_file_of (content_text c.now) (node_left (change_of self)) }
    {
        self.leaves().is_some_and(|node| node.holds(c))
    }

    // Whether it makes a node; else it removes one.
    pub fn makes(self) -> bool
        ensures { result ≡ makes (change_of self) }
    {
        self.leaves().is_some()
    }

    // Whether its path lies right below `q`.
    pub fn lies_in(self, q: &Path) -> bool
        ensures { result ≡ same (parent (altered (change_of self))) (path_text q.now) }
    {
        self.path().is_child_of(q)
    }
}
