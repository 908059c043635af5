// What can be asked of linked records.
ghost use Rattle.linked_host.specs.Linked.{rig_of};
ghost use Rattle.linked_host.specs.Soundness.{sound_of};

use super::LinkedHost;
use host::{Allowance, Inspect, Kind};
use values::{Content, Path};

impl Inspect for LinkedHost {
    ghost means = { rig_of };

    // Its rules are in its type.
    ghost sound = { sound_of };

    fn look(&self, p: &Path) -> Kind {
        self.node_at(p).map_or(Kind::Nothing, |node| node.kind())
    }

    fn holds(&self, p: &Path, c: &Content) -> bool {
        self.node_at(p).is_some_and(|node| node.holds(c))
    }

    fn children(&self, p: &Path) -> u16 {
        let mut n = 0;
        let mut cursor = self.first_child(p);
        while let Some(i) = cursor {
            n += 1;
            cursor = self.arena.record(i).next;
        }
        n
    }

    fn free(&self) -> u16 {
        let mut n = 0;
        for slot in &self.arena.slots {
            if slot.is_none() {
                n += 1;
            }
        }
        n
    }

    fn allowance(&self) -> Allowance {
        self.allowance
    }
}
