ghost use Rattle.std.specs.Prelude.{◌≡◌, ◌-◌, length};
ghost use Rattle.values.specs.Texts.{path_text, content_text};
ghost use Rattle.fs.specs.Rig.{Rig};
ghost use Rattle.fs.specs.Tree.{at, children as child_count, is_dir, is_file_of, parent, blocked as is_blocked};
ghost use Rattle.host.specs.Checks.{MakeChecked, RemoveChecked};
ghost use Rattle.host.specs.Kinds.{kind_of};
ghost use Rattle.host.specs.Sound.{Sound};

use crate::fault::HostFault;
use crate::kind::Kind;
use crate::opening::Allowance;
use values::{Content, Path};

// A tree with limits, and what can be asked of it.
pub trait Inspect {
    // The tree, the capacity and the allowance.
    ghost means: { Self → Rig };

    // What stands at the path.
    fn look(&self, p: &Path) -> Kind
        ensures { result ≡ kind_of (at (means self.now).tree (path_text p.now)) };

    // Whether the path is a file with exactly that content.
    fn holds(&self, p: &Path, c: &Content) -> bool
        ensures { result ≡ is_file_of (content_text c.now) (at (means self.now).tree (path_text p.now)) };

    // How many nodes have the path as their parent.
    fn children(&self, p: &Path) -> u16
        ensures { result ≡ child_count (means self.now).tree (path_text p.now) };

    // How many nodes more there is room for.
    fn free(&self) -> u16
        ensures { result ≡ (means self.now).capacity - length (means self.now).tree };

    // How many changes more may be made.
    fn allowance(&self) -> Allowance
        ensures { result ≡ (means self.now).allowance };

    // The tree is a tree, and the numbers keep their bounds.
    ghost sound: { (h : Self) → Sound (means h) };

    final fn parent_is_dir(&self, p: &Path) -> bool
        ensures { result ≡ is_dir (means self.now).tree (parent (path_text p.now)) }
    {
        match p.parent() {
            None => true,
            Some(q) => self.look(&q) == Kind::Directory,
        }
    }

    // Whether the path is a directory with children.
    final fn blocked(&self, p: &Path) -> bool
        ensures { result ≡ is_blocked (at (means self.now).tree (path_text p.now)) (child_count (means self.now).tree (path_text p.now)) }
    {
        self.look(p) == Kind::Directory && self.children(p) != 0
    }

    // Whether a node may be made at the path, by the first ground against it.
    final fn may_make(&self, p: &Path) -> Result<(), HostFault>
        ensures { MakeChecked (path_text p.now) (means self.now) result }
    {
        if !self.parent_is_dir(p) {
            return Err(HostFault::NoParent);
        }
        if self.look(p) != Kind::Nothing {
            return Err(HostFault::Exists);
        }
        if self.free() == 0 {
            return Err(HostFault::Full);
        }
        if self.allowance() == 0 {
            return Err(HostFault::Exhausted);
        }
        Ok(())
    }

    // Whether what is at the path may be removed, by the first ground against it.
    final fn may_remove(&self, p: &Path) -> Result<(), HostFault>
        ensures { RemoveChecked (path_text p.now) (means self.now) result }
    {
        if self.look(p) == Kind::Nothing {
            return Err(HostFault::Missing);
        }
        if self.blocked(p) {
            return Err(HostFault::HasChildren);
        }
        if self.allowance() == 0 {
            return Err(HostFault::Exhausted);
        }
        Ok(())
    }
}
