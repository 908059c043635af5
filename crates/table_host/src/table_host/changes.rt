// How a table is changed. The grounds are those of `may_make` and `may_remove`; the search that one of them needs finds the place too.
use super::TableHost;
use crate::record::Record;
use host::{Host, HostFault, Inspect, Stored};
use values::Path;

impl Host for TableHost {
    fn make(&mut self, p: &Path, node: Stored) -> Result<(), HostFault> {
        if !self.parent_is_dir(p) {
            return Err(HostFault::NoParent);
        }
        let Err(i) = self.find(p) else {
            return Err(HostFault::Exists);
        };
        if self.table.used >= self.capacity as usize {
            return Err(HostFault::Full);
        }
        if self.allowance == 0 {
            return Err(HostFault::Exhausted);
        }
        self.table.insert(i, Record { path: *p, node });
        self.allowance -= 1;
        Ok(())
    }

    fn rm(&mut self, p: &Path) -> Result<(), HostFault> {
        let Ok(i) = self.find(p) else {
            return Err(HostFault::Missing);
        };
        if self.blocked(p) {
            return Err(HostFault::HasChildren);
        }
        if self.allowance == 0 {
            return Err(HostFault::Exhausted);
        }
        self.table.remove(i);
        self.allowance -= 1;
        Ok(())
    }
}
