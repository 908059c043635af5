// What a record says.
ghost use Rattle.std.specs.Prelude.{◌≡◌};
ghost use Rattle.values.specs.Texts.{path_text};
ghost use Rattle.fs.specs.Package.{under_pkg};
ghost use Rattle.records.specs.Entries.{entry_of};
ghost use Rattle.records.specs.Items.{Tells, meaning_of, meaning, path_check, directory_body, file_parts, file_body};

use crate::entry::Entry;
use crate::fault::Ground;
use crate::kind::RecordKind;
use values::{Content, Name, Path};

#[derive(Clone, Copy)]
pub enum Item {
    NewPackage(Name),
    NewEntry(Entry),
}

// Whether these bytes are `/pkg`, or begin a path below it.
fn is_reserved(path: &[u8]) -> bool
    ensures { result ≡ under_pkg path.now }
{
    matches!(path.strip_prefix(b"/pkg"), Some([] | [b'/', ..]))
}

fn entry_path(text: &[u8]) -> Result<Path, Ground>
    ensures { Tells path_text (path_check text.now) result }
{
    let path = Path::try_from(text)?;
    if is_reserved(text) {
        return Err(Ground::Reserved);
    }
    Ok(path)
}

fn directory(body: &[u8]) -> Result<Entry, Ground>
    ensures { Tells entry_of (directory_body body.now) result }
{
    Ok(Entry::Directory(entry_path(body)?))
}

// The content is looked at behind the path.
fn file_of(path: &[u8], content: &[u8]) -> Result<Entry, Ground>
    ensures { Tells entry_of (file_parts path.now content.now) result }
{
    Ok(Entry::File(entry_path(path)?, Content::try_from(content)?))
}

// A byte with the path's length, the path, and the content.
fn file(body: &[u8]) -> Result<Entry, Ground>
    ensures { Tells entry_of (file_body body.now) result }
{
    let (size, rest) = body.split_first().ok_or(Ground::ShortBody)?;
    let parts = rest.split_at_checked(*size as usize);
    let (path, content) = parts.ok_or(Ground::ShortBody)?;
    file_of(path, content)
}

impl Item {
    // What a record of this kind and body says; `begun` tells whether a package came before.
    pub fn parse(kind: u16, body: &[u8], begun: bool) -> Result<Item, Ground>
        ensures { Tells meaning_of (meaning begun kind body.now) result }
    {
        match RecordKind::try_from(kind)? {
            RecordKind::Package => Ok(Item::NewPackage(Name::try_from(body)?)),
            _ if !begun => Err(Ground::NoPackage),
            RecordKind::Directory => Ok(Item::NewEntry(directory(body)?)),
            RecordKind::File => Ok(Item::NewEntry(file(body)?)),
        }
    }
}
