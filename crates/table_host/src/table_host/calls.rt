// What can be asked of a table.
ghost use Rattle.table_host.specs.Tables.{rig_of};
ghost use Rattle.table_host.specs.Soundness.{sound_of};

use super::TableHost;
use host::{Allowance, Inspect, Kind};
use values::{Content, Path};

impl Inspect for TableHost {
    ghost means = { rig_of };

    // Its rules are in its type.
    ghost sound = { sound_of };

    fn look(&self, p: &Path) -> Kind {
        self.node_at(p).map_or(Kind::Nothing, |node| node.kind())
    }

    fn holds(&self, p: &Path, c: &Content) -> bool {
        self.node_at(p).is_some_and(|node| node.holds(c))
    }

    fn children(&self, p: &Path) -> u16 {
        self.table
            .nodes()
            .iter()
            .filter(|r| r.path.is_child_of(p))
            .count() as u16
    }

    fn free(&self) -> u16 {
        self.capacity - self.table.used as u16
    }

    fn allowance(&self) -> Allowance {
        self.allowance
    }
}
