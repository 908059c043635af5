// How a table is opened and searched.
ghost use Rattle.std.specs.Prelude.{◌≡◌, MatchResult};
ghost use Rattle.values.specs.Texts.{path_text};
ghost use Rattle.fs.specs.Tree.{at};
ghost use Rattle.host.specs.Opening.{Opened};
ghost use Rattle.host.specs.Stores.{node_in};
ghost use Rattle.table_host.specs.Places.{Found, Vacant};
ghost use Rattle.table_host.specs.Tables.{rig_of};

use super::TableHost;
use crate::table::Table;
use host::{Limits, OpenFault, Stored};
use std::alloc::Global;
use values::Path;

impl TableHost {
    // A host with an empty tree and those numbers, with records reserved for all its nodes.
    pub fn open(heap: Global, limits: Limits) -> Result<TableHost, OpenFault>
        ensures { Opened rig_of limits result }
    {
        let capacity = limits.capacity()?;
        let records = Vec::with_capacity(heap, capacity as usize)?;
        Ok(TableHost {
            table: Table { records, used: 0 },
            capacity,
            allowance: limits.allowance,
        })
    }

    // Where `p` stands among the nodes, or where it would stand.
    pub(super) fn find(&self, p: &Path) -> Result<usize, usize>
        ensures { MatchResult result (Found (rig_of self.now).tree (path_text p.now)) (Vacant (rig_of self.now).tree (path_text p.now)) }
    {
        self.table.nodes().binary_search_by(|r| r.path.cmp(p))
    }

    // The node at `p`, if there is one.
    pub(super) fn node_at(&self, p: &Path) -> Option<Stored>
        ensures { at (rig_of self.now).tree (path_text p.now) ≡ node_in result }
    {
        let i = self.find(p).ok()?;
        Some(self.table.nodes()[i].node)
    }
}
