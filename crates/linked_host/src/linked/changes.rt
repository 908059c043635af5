// How nodes are added and removed.
ghost use Rattle.std.specs.Prelude.{◌≡◌, ◌<◌, true, None, vec_len, MatchResult};
ghost use Rattle.fs.specs.Rig.{remove, refused};
ghost use Rattle.fs.specs.Tree.{parent, vacant, with_node, without};
ghost use Rattle.values.specs.Texts.{path_text};
ghost use Rattle.host.specs.Faults.{host_fault_number};
ghost use Rattle.host.specs.Stores.{node_of};
ghost use Rattle.linked_host.specs.Arenas.{entries, slot, Held};
ghost use Rattle.linked_host.specs.Places.{Heads};
ghost use Rattle.linked_host.specs.Linked.{rig_of, tree_of, Becomes, Removable};

use super::LinkedHost;
use crate::record::Place;
use host::{Host, HostFault, Stored};
use values::Path;

impl LinkedHost {
    // Puts a node into the free slot `i`, and links it in among its siblings, the first of which `head` leads to.
    fn grow(&mut self, head: Place, i: usize, p: &Path, node: Stored)
        requires head { Held self.old.arena head × Heads (entries self.old.arena) (parent (path_text p.now)) head }
        requires within { i < vec_len self.old.arena.slots }
        requires free { slot self.old.arena i ≡ None }
        requires vacant { vacant (tree_of self.old) (path_text p.now) ≡ true }
        ensures { Becomes self.old self.new (with_node (path_text p.now) (node_of node) (tree_of self.old)) }
    {
        let at = self.place_before(head, i);
        self.arena.insert(at, i, *p, node);
    }

    // The slot of `p`, and the place of the link to the first of its siblings, where `p` may be removed.
    fn removal(&self, p: &Path) -> Result<(Place, usize), HostFault>
        ensures { MatchResult result (λ x. Removable self.now (path_text p.now) x.0 x.1) (λ f. remove (path_text p.now) (rig_of self.now) ≡ refused (host_fault_number f)) }
    {
        let head = self.head(p).ok_or(HostFault::Missing)?;
        let i = self.find(p).ok_or(HostFault::Missing)?;
        if self.arena.record(i).first.is_some() {
            return Err(HostFault::HasChildren);
        }
        Ok((head, i))
    }

    // Takes the node of slot `i` out of the tree.
    fn prune(&mut self, head: Place, i: usize, p: &Path)
        requires { Removable self.old (path_text p.now) head i }
        ensures { Becomes self.old self.new (without (path_text p.now) (tree_of self.old)) }
    {
        let at = self.place_before(head, i);
        self.arena.unlink(at, i);
    }
}

impl Host for LinkedHost {
    fn make(&mut self, p: &Path, node: Stored) -> Result<(), HostFault> {
        let head = self.head(p).ok_or(HostFault::NoParent)?;
        if self.find(p).is_some() {
            return Err(HostFault::Exists);
        }
        let i = self.vacancy().ok_or(HostFault::Full)?;
        if self.allowance == 0 {
            return Err(HostFault::Exhausted);
        }
        self.grow(head, i, p, node);
        self.allowance -= 1;
        Ok(())
    }

    fn rm(&mut self, p: &Path) -> Result<(), HostFault> {
        let (head, i) = self.removal(p)?;
        if self.allowance == 0 {
            return Err(HostFault::Exhausted);
        }
        self.prune(head, i, p);
        self.allowance -= 1;
        Ok(())
    }
}
