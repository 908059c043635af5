ghost use Rattle.std.specs.Prelude.{◌≡◌, ℕ, ◌+◌, ◌<◌, ◌≤◌, vec_len, vec_capacity};
ghost use Rattle.std.specs.Borrow.{sem, follows};
ghost use Rattle.std.specs.Vec.{with_item};
ghost use Rattle.std.specs.List.{insert, remove};
ghost use Rattle.table_host.specs.Records.{nodes, Within};
ghost use Rattle.table_host.specs.contracts.record.Record.{the_row as the_record};
ghost use Rattle.table_host.specs.contracts.table.Table.{the_row};

use super::Table;
use crate::record::Record;

impl Table {
    // The nodes, in byte order of their paths.
    pub(crate) fn nodes(&self) -> &[Record]
        requires { Within self.now }
        ensures { result.now ≡ nodes self.now }
    {
        &self.records[..self.used]
    }

    // One record, to be altered.
    pub(crate) fn record_mut(&mut self, i: usize) -> &mut Record
        requires { i < vec_len self.old.records }
        ensures* { sem 𝓛 (follows the_row the_record self.entry.ghost_name result.ghost_name (λ w. record { records = with_item self.old.records i w; used = self.old.used })) }
    {
        &mut self.records[i]
    }

    // Puts a node at the place `i`: into a free record where there is one, and else into a new one.
    pub(crate) fn insert(&mut self, i: usize, record: Record)
        requires place { i ≤ self.old.used }
        requires used { Within self.old }
        requires room { self.old.used < vec_capacity self.old.records }
        ensures nodes { nodes self.new ≡ insert (nodes self.old) i «record» }
        ensures used { self.new.used ≡ self.old.used + 1 }
        ensures within { Within self.new }
        ensures room { vec_capacity self.new.records ≡ vec_capacity self.old.records }
    {
        if self.used < self.records.len() {
            let free = self.records.remove(self.used);
            let _ = self.records.insert(i, free);
            *self.record_mut(i) = record;
        } else {
            let _ = self.records.insert(i, record);
        }
        self.used += 1;
    }

    // Frees the record of the node at the place `i`: it goes behind the nodes.
    pub(crate) fn remove(&mut self, i: usize)
        requires place { i < self.old.used }
        requires used { Within self.old }
        ensures nodes { nodes self.new ≡ remove (nodes self.old) i }
        ensures used { self.new.used + 1 ≡ self.old.used }
        ensures within { Within self.new }
        ensures room { vec_capacity self.new.records ≡ vec_capacity self.old.records }
    {
        let free = self.records.remove(i);
        self.used -= 1;
        let _ = self.records.insert(self.used, free);
    }
}
