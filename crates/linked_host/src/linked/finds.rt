// How a linked host is opened and searched.
ghost use Rattle.std.specs.Prelude.{◌≡◌, ◌<◌, true, false, length, None, vec_len, MatchOption};
ghost use Rattle.fs.specs.Tree.{at, nothing, is_dir, parent};
ghost use Rattle.values.specs.Texts.{path_text};
ghost use Rattle.host.specs.Opening.{Opened};
ghost use Rattle.host.specs.Stores.{node_in};
ghost use Rattle.linked_host.specs.Slots.{child_from, Stands};
ghost use Rattle.linked_host.specs.Arenas.{entries, slot, Held};
ghost use Rattle.linked_host.specs.Places.{Heads, Before, dir_of, from_of};
ghost use Rattle.linked_host.specs.Linked.{rig_of, tree_of};

use super::LinkedHost;
use crate::arena::Arena;
use crate::record::Place;
use host::{Limits, OpenFault, Stored};
use std::alloc::Global;
use values::Path;

impl LinkedHost {
    // A host with an empty tree and those numbers, with a free slot for each node.
    pub fn open(heap: Global, limits: Limits) -> Result<LinkedHost, OpenFault>
        ensures { Opened rig_of limits result }
    {
        let capacity = limits.capacity()?;
        let slots = vec![in heap; None; capacity as usize]?;
        Ok(LinkedHost {
            arena: Arena { slots, first: None },
            allowance: limits.allowance,
        })
    }

    // The slot of `p` among the siblings from `head` on.
    fn search(&self, head: Option<usize>, p: &Path) -> Option<usize>
        requires { head ≡ child_from (entries self.now.arena) (parent (path_text p.now)) 0 }
        ensures { MatchOption result (at (tree_of self.now) (path_text p.now) ≡ nothing) (Stands (entries self.now.arena) (path_text p.now)) }
    {
        let mut cursor = head;
        while let Some(i) = cursor {
            let r = self.arena.record(i);
            if r.path == *p {
                return Some(i);
            }
            cursor = r.next;
        }
        None
    }

    // The slot of `p`, by way of its parent's.
    pub(super) fn find(&self, p: &Path) -> Option<usize>
        ensures { MatchOption result (at (tree_of self.now) (path_text p.now) ≡ nothing) (Stands (entries self.now.arena) (path_text p.now)) }
    {
        let Some(up) = p.parent() else {
            return self.search(self.arena.first, p);
        };
        let i = self.find(&up)?;
        self.search(self.arena.record(i).first, p)
    }

    // The node at `p`, if there is one.
    pub(super) fn node_at(&self, p: &Path) -> Option<Stored>
        ensures { at (tree_of self.now) (path_text p.now) ≡ node_in result }
    {
        let i = self.find(p)?;
        Some(self.arena.record(i).node)
    }

    // The slot of the first child of `p`.
    pub(super) fn first_child(&self, p: &Path) -> Option<usize>
        ensures { result ≡ child_from (entries self.now.arena) (path_text p.now) 0 }
    {
        let i = self.find(p)?;
        self.arena.record(i).first
    }

    // The first free slot.
    pub(super) fn vacancy(&self) -> Option<usize>
        ensures { MatchOption result (length (tree_of self.now) ≡ vec_len self.now.arena.slots) (λ i. (i < vec_len self.now.arena.slots) × (slot self.now.arena i ≡ None) × (length (tree_of self.now) < vec_len self.now.arena.slots)) }
    {
        self.arena.slots.iter().position(|s| s.is_none())
    }

    // The place of the link to the first child of the parent of `p`, where that is a directory.
    pub(super) fn head(&self, p: &Path) -> Option<Place>
        ensures { MatchOption result (is_dir (tree_of self.now) (parent (path_text p.now)) ≡ false) (λ x. (is_dir (tree_of self.now) (parent (path_text p.now)) ≡ true) × Held self.now.arena x × Heads (entries self.now.arena) (parent (path_text p.now)) x) }
    {
        let Some(up) = p.parent() else {
            return Some(Place::Root);
        };
        let i = self.find(&up)?;
        match self.arena.record(i).node {
            Stored::Directory => Some(Place::First(i)),
            Stored::File(_) => None,
        }
    }

    // The place of the link that leads, or would lead, to slot `i`.
    pub(super) fn place_before(&self, head: Place, i: usize) -> Place
        requires { Held self.now.arena head × (from_of head ≡ 0) }
        ensures { Held self.now.arena result × Before (entries self.now.arena) (dir_of (entries self.now.arena) head) i result }
    {
        let mut at = head;
        while let Some(j) = self.arena.link(at) {
            if j >= i {
                break;
            }
            at = Place::Next(j);
        }
        at
    }
}
