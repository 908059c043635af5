ghost use Rattle.std.specs.Prelude.{◌≡◌, ◌≤◌, true, [], vec_len};
ghost use Rattle.fs.specs.Tree.{Rooted};
ghost use Rattle.fs.proofs.Unique.{rooted_prop};
ghost use Rattle.linked_host.specs.Slots.{tree_from, apart, child_from};
ghost use Rattle.linked_host.specs.Links.{same_link, linked};
ghost use Rattle.linked_host.specs.Arenas.{slots_of, entries};

use crate::arena::Arena;
use host::Allowance;

pub mod calls;
pub mod changes;
pub mod finds;

// As many slots as nodes may stand, so that no change allocates.
#[derive(Drop)]
pub struct LinkedHost {
    arena: Arena,
    allowance: Allowance,
    ghost low: { 1 ≤ vec_len arena.slots },
    ghost high: { vec_len arena.slots ≤ 256 },
    ghost few: { allowance ≤ 65535 },
    ghost distinct: { apart (entries arena) ≡ true },
    ghost grounded: { Rooted (tree_from (entries arena)) } by { rooted_prop (tree_from (entries arena)) },
    ghost headed: { same_link arena.first (child_from (entries arena) [] 0) ≡ true },
    ghost chained: { linked (slots_of arena) ≡ true },
}
