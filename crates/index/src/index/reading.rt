// How an index is read, record by record.
ghost use Rattle.std.specs.Prelude.{◌≡◌, ◌<◌, false, [], length};
ghost use Rattle.values.specs.Texts.{name_text};
ghost use Rattle.fs.specs.Package.{under_pkg};
ghost use Rattle.records.specs.Entries.{entry_of, entry_path};
ghost use Rattle.records.specs.Items.{new_package, new_entry};
ghost use Rattle.index.specs.Answers.{Answers};
ghost use Rattle.index.specs.Errors.{Added};
ghost use Rattle.index.specs.Indexes.{index_of};
ghost use Rattle.index.specs.Reading.{grown, taken_in};

use super::Index;
use crate::error::{IndexError, error_at};
use crate::limits::admit;
use crate::packages::Package;
use faults::{Numbered, ReadError};
use records::{Entry, Ground, Item, Record, Records};
use std::alloc::Global;
use values::Name;

const BYTES_MAX: usize = 16384;

const PACKAGES_MAX: usize = 8;

impl Index {
    fn new(heap: Global) -> Index
        ensures { index_of result ≡ [] }
    {
        Index {
            packages: Vec::new(heap),
        }
    }

    fn add_package(&mut self, heap: Global, name: Name) -> Result<(), ReadError<Ground>>
        ensures { Added (index_of self.old) (grown (index_of self.old) (new_package (name_text name))) result (index_of self.new) }
    {
        admit(
            PACKAGES_MAX,
            self.packages.len(),
            self.position(&name).is_some(),
        )?;
        self.packages.push(Package::new(heap, name))?;
        Ok(())
    }

    // Gives the last package one more entry.
    fn add_entry(&mut self, new: Entry) -> Result<(), ReadError<Ground>>
        requires begun { 0 < length (index_of self.old) }
        requires outside { under_pkg (entry_path (entry_of new)) ≡ false }
        ensures { Added (index_of self.old) (grown (index_of self.old) (new_entry (entry_of new))) result (index_of self.new) }
    {
        self.packages.last_mut().unwrap().add(new)
    }

    // Takes in what one record says.
    fn take_in(&mut self, heap: Global, next: Record<'_>) -> Result<(), ReadError<Ground>>
        ensures { Added (index_of self.old) (taken_in (index_of self.old) next.entry.kind next.entry.body.now) result (index_of self.new) }
    {
        let begun = !self.packages.is_empty();
        match Item::parse(next.kind, next.body, begun)? {
            Item::NewPackage(name) => self.add_package(heap, name),
            Item::NewEntry(entry) => self.add_entry(entry),
        }
    }

    // The index that these bytes are, or the first fault in them.
    pub fn read(heap: Global, bytes: &[u8]) -> Result<Index, IndexError>
        ensures { Answers bytes.now result }
    {
        if bytes.len() > BYTES_MAX {
            return Err(IndexError::Fault(Ground::IndexTooLong.at(0)));
        }
        let mut index = Index::new(heap);
        for record in Records::new(bytes) {
            let record = record?;
            index
                .take_in(heap, record)
                .map_err(|e| error_at(e, record.place))?;
        }
        Ok(index)
    }
}
