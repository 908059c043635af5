ghost use Rattle.values.specs.Texts.{path_text, content_text};
ghost use Rattle.fs.specs.Change.{made_dir, made_file, removed};
ghost use Rattle.fs.specs.Rig.{make};
ghost use Rattle.host.specs.Called.{Answered, Called};
ghost use Rattle.host.specs.Stores.{node_of};

use crate::fault::HostFault;
use crate::inspect::Inspect;
use crate::stored::Stored;
use values::{Content, Path};

// A tree with limits that can be changed, whatever it is kept in.
pub trait Host: Inspect {
    // Makes a node at a path that is nothing, below a directory.
    fn make(&mut self, p: &Path, node: Stored) -> Result<(), HostFault>
        ensures { Answered (make (path_text p.now) (node_of node) (Self.means self.old)) (Self.means self.old) result (Self.means self.new) };

    // Makes a directory.
    fn mkdir(&mut self, p: &Path) -> Result<(), HostFault>
        ensures { Called (made_dir (path_text p.now)) (Self.means self.old) result (Self.means self.new) }
    {
        self.make(p, Stored::Directory)
    }

    // Makes a file with the content.
    fn creat(&mut self, p: &Path, c: &Content) -> Result<(), HostFault>
        ensures { Called (made_file (path_text p.now) (content_text c.now)) (Self.means self.old) result (Self.means self.new) }
    {
        self.make(p, Stored::File(*c))
    }

    // Removes a file, or a directory without children.
    fn rm(&mut self, p: &Path) -> Result<(), HostFault>
        ensures { Called (removed (path_text p.now)) (Self.means self.old) result (Self.means self.new) };
}
