ghost use Rattle.std.specs.Prelude.{ℕ, ◌≤◌, vec_capacity};
ghost use Rattle.fs.specs.Tree.{Sorted, Rooted};
ghost use Rattle.fs.proofs.Unique.{sorted_prop, rooted_prop};
ghost use Rattle.table_host.specs.Records.{tree_of, nodes, Within};

use crate::table::Table;
use host::Allowance;

pub mod calls;
pub mod changes;
pub mod finds;

#[derive(Drop)]
pub struct TableHost {
    table: Table,
    capacity: u16,
    allowance: Allowance,
    // Records for all nodes are reserved, so that no call allocates.
    ghost room: { capacity ≤ vec_capacity table.records },
    ghost within: { Within table },
    ghost fits: { table.used ≤ capacity },
    ghost low: { 1 ≤ capacity },
    ghost high: { capacity ≤ 256 },
    ghost few: { allowance ≤ 65535 },
    ghost ordered: { Sorted (tree_of (nodes table)) } by { sorted_prop (tree_of (nodes table)) },
    ghost grounded: { Rooted (tree_of (nodes table)) } by { rooted_prop (tree_of (nodes table)) },
}
