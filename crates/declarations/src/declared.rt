// Reads a declaration, past the word of its kind.
ghost use Rattle.std.specs.Prelude.{◌≡◌, IfOk};
ghost use Rattle.syntax.specs.Parts.{placed_as};
ghost use Rattle.syntax.specs.Reading.{Reads};
ghost use Rattle.grammar.specs.Declarations.{heading as heading_at, declaration};
ghost use Rattle.declarations.specs.Meanings.{subject_kind, subject_title, declared_of};

use crate::block::attribute_block;
use crate::resource::{Resource, Subject};
use faults::Numbered;
use lexer::{Placed, Tokens};
use syntax::part::{next_mark, next_quoted};
use syntax::{Ground, Kind, Mark, TextFault};

// A resource, with the position of its title, at the opening quote.
pub type Declared = Placed<Resource>;

// { 'TITLE':
fn next_heading<'a, R: Tokens<'a>>(reader: &mut R, kind: Kind) -> Result<Placed<Subject>, TextFault>
    ensures reads { Reads (placed_as subject_title) (heading_at kind) (R.spot reader.old) result (R.spot reader.new) }
    ensures kinded { IfOk result (λ h. subject_kind h.part ≡ kind) }
{
    next_mark(reader, Mark::OpenBrace)?;
    let title = next_quoted(reader)?;
    let subject = Subject::parse(kind, title.part).map_err(|ground| ground.at(title.at))?;
    next_mark(reader, Mark::Colon)?;
    Ok(Placed {
        part: subject,
        at: title.at,
    })
}

// What stands past the word of the kind, up to the closing brace.
pub fn next_declaration<'a, R: Tokens<'a>>(
    reader: &mut R,
    kind: Kind,
) -> Result<Declared, TextFault>
    ensures { Reads declared_of (declaration kind) (R.spot reader.old) result (R.spot reader.new) }
{
    let heading = next_heading(reader, kind)?;
    let given = attribute_block(reader, heading.part)?;
    let resource = given.resource().ok_or(Ground::Incomplete.at(heading.at))?;
    Ok(Placed {
        part: resource,
        at: heading.at,
    })
}
