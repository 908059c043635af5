ghost use Rattle.std.specs.Prelude.{◌≡◌, ◌<◌, true, set, is_some, Some, None, vec_len};
ghost use Rattle.std.specs.Borrow.{follows, sem};
ghost use Rattle.std.specs.Vec.{with_item};
ghost use Rattle.std.specs.contracts.option.Option.{the_row as option_row};
ghost use Rattle.linked_host.specs.contracts.arena.Arena.{the_row};
ghost use Rattle.linked_host.specs.contracts.record.Record.{the_row as record_row};
ghost use Rattle.linked_host.specs.Arenas.{slots_of, slot, Held, slots_linked, root_linked, Written};
ghost use Rattle.linked_host.specs.Places.{link_at, next_of};

use super::Arena;
use crate::record::{Place, Record};
use host::Stored;
use values::Path;

impl Arena {
    // The record of a slot that is not free.
    pub(crate) fn record(&self, i: usize) -> Record
        requires { is_some (slot self.now i) ≡ true }
        ensures { slot self.now i ≡ Some result }
    {
        self.slots[i].unwrap()
    }

    // One slot, to be altered.
    fn slot_mut(&mut self, i: usize) -> &mut Option<Record>
        requires { i < vec_len self.old.slots }
        ensures* follows { sem 𝓛 (follows the_row (option_row record_row) self.entry.ghost_name result.ghost_name (λ w. record { slots = with_item self.old.slots i w; first = self.old.first })) }
        ensures value { result.now ≡ slot self.old i }
    {
        &mut self.slots[i]
    }

    pub(crate) fn link(&self, at: Place) -> Option<usize>
        requires { Held self.now at }
        ensures { result ≡ link_at self.now.first (slots_of self.now) at }
    {
        match at {
            Place::Root => self.first,
            Place::First(i) => self.record(i).first,
            Place::Next(i) => self.record(i).next,
        }
    }

    // Writes one link.
    fn set_link(&mut self, at: Place, to: Option<usize>)
        requires { Held self.old at }
        ensures { Written self.old self.new (slots_linked at to (slots_of self.old)) (root_linked at to self.old.first) }
    {
        match at {
            Place::Root => self.first = to,
            Place::First(i) => {
                let r = self.record(i);
                *self.slot_mut(i) = Some(Record { first: to, ..r });
            }
            Place::Next(i) => {
                let r = self.record(i);
                *self.slot_mut(i) = Some(Record { next: to, ..r });
            }
        }
    }

    // Puts a node without children into a free slot, and links it in at `at`.
    pub(crate) fn insert(&mut self, at: Place, i: usize, path: Path, node: Stored)
        requires at { Held self.old at }
        requires within { i < vec_len self.old.slots }
        requires free { slot self.old i ≡ None }
        ensures { Written self.old self.new (slots_linked at (Some i) (set (slots_of self.old) i (Some (record { path = path; node = node; first = None; next = link_at self.old.first (slots_of self.old) at })))) (root_linked at (Some i) self.old.first) }
    {
        let next = self.link(at);
        *self.slot_mut(i) = Some(Record {
            path,
            node,
            first: None,
            next,
        });
        self.set_link(at, Some(i));
    }

    // Links `at`, which leads to slot `i`, to the sibling behind it, and frees the slot.
    pub(crate) fn unlink(&mut self, at: Place, i: usize)
        requires at { Held self.old at }
        requires here { is_some (slot self.old i) ≡ true }
        ensures { Written self.old self.new (set (slots_linked at (next_of (slot self.old i)) (slots_of self.old)) i None) (root_linked at (next_of (slot self.old i)) self.old.first) }
    {
        let r = self.record(i);
        self.set_link(at, r.next);
        *self.slot_mut(i) = None;
    }
}
