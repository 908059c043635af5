ghost use Rattle.std.specs.Prelude.{◌≡◌};
ghost use Rattle.syntax.specs.Reading.{Reads};
ghost use Rattle.grammar.specs.Chains.{bracketed as bracketed_at, reference as reference_at};
ghost use Rattle.chains.specs.Meanings.{ref_of};

use faults::Numbered;
use lexer::{Position, Tokens};
use syntax::part::{next_mark, next_quoted, next_word};
use syntax::{Ground, Kind, Mark, TextFault};

// A resource by its kind and title, with the position of the reference's first byte. The title may be any quoted text:
// one that breaks its rule names no resource.
#[derive(Clone, Copy)]
pub struct Ref<'a> {
    pub kind: Kind,
    pub title: &'a [u8],
    pub at: Position,
}

// ['TITLE'], behind the word of its kind, which stands at `first`.
pub(crate) fn next_bracketed<'a, R: Tokens<'a>>(
    reader: &mut R,
    kind: Kind,
    first: Position,
) -> Result<Ref<'a>, TextFault>
    ensures { Reads ref_of (bracketed_at kind first) (R.spot reader.old) result (R.spot reader.new) }
{
    next_mark(reader, Mark::OpenBracket)?;
    let title = next_quoted(reader)?;
    next_mark(reader, Mark::CloseBracket)?;
    Ok(Ref {
        kind,
        title: title.part,
        at: first,
    })
}

pub(crate) fn next_reference<'a, R: Tokens<'a>>(reader: &mut R) -> Result<Ref<'a>, TextFault>
    ensures { Reads ref_of reference_at (R.spot reader.old) result (R.spot reader.new) }
{
    let word = next_word(reader)?;
    let kind = Kind::referred(word.part).ok_or(Ground::Unexpected.at(word.at))?;
    next_bracketed(reader, kind, word.at)
}
