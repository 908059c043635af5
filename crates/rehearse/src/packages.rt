// The package index of the rig's folder, as it is read.
use crate::trees::Shown;
use faults::Numbered;
use index::{Entry, Index, IndexError, Package};
use std::{fs, io};

const INDEX: &str = "rig.idx";

// The bytes of a file of the folder; a missing one is empty.
fn read_or_empty(rt: &HostRuntime, name: &str) -> io::Result<Vec<u8>> {
    match fs::read(rt, name) {
        Ok(bytes) => Ok(bytes),
        Err(e) if e.kind() == io::ErrorKind::NotFound => Ok(Vec::new(rt.alloc())),
        Err(e) => Err(e),
    }
}

fn show_entry(rt: &HostRuntime, entry: Entry) -> io::Result<()> {
    match entry {
        Entry::Directory(p) => println!(rt; "    directory {}", Shown(p.as_bytes())),
        Entry::File(p, c) => println!(rt;
            "    file {} of {} bytes",
            Shown(p.as_bytes()),
            c.as_bytes().len()
        ),
    }
}

fn show_package(rt: &HostRuntime, package: &Package) -> io::Result<()> {
    println!(rt; "  package {}", Shown(package.name().as_bytes()))?;
    for entry in package.entries() {
        show_entry(rt, *entry)?;
    }
    Ok(())
}

// Reads the index, and prints each package with its entries, or the refusal with its number and place.
pub(crate) fn show_index(rt: &HostRuntime) -> io::Result<()> {
    let bytes = read_or_empty(rt, INDEX)?;
    match Index::read(rt.alloc(), bytes.as_slice()) {
        Ok(index) => {
            println!(rt; "index of {} packages", index.len())?;
            for package in index.packages() {
                show_package(rt, package)?;
            }
            Ok(())
        }
        Err(IndexError::Fault(f)) => println!(rt; "index {} at {}", f.number(), f.at),
        Err(IndexError::Memory) => println!(rt; "no memory for the index"),
    }
}
