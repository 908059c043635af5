// Reads a block of attributes, from behind the colon up to the closing brace. A reader can be copied, so that a block can be
// read again from a place that was kept.
ghost use Rattle.std.specs.Prelude.{◌≡◌, ℕ, ◌<◌, IfOk};
ghost use Rattle.lexer.specs.Lexing.{sight};
ghost use Rattle.lexer.specs.declared.position.Position.{Position as Place};
ghost use Rattle.syntax.specs.Reading.{Reads};
ghost use Rattle.syntax.specs.Tokens.{of_seen};
ghost use Rattle.grammar.specs.Declarations.{attribute as attribute_at, closer_of, last_comma as last_comma_at, closing, attributes};
ghost use Rattle.declarations.specs.Meanings.{subject_kind, given_of, spare};

use crate::given::Given;
use crate::resource::Subject;
use faults::Numbered;
use lexer::{Token, Tokens};
use syntax::part::{next_as, next_mark, next_value, next_word};
use syntax::{Ground, Mark, TextFault};

// NAME => VALUE; an attribute less is then left to be given, so that a block ends.
fn next_attribute<'a, R: Tokens<'a>>(reader: &mut R, given: Given) -> Result<Given, TextFault>
    ensures reads { Reads given_of (attribute_at (subject_kind given.subject) (given_of given)) (R.spot reader.old) result (R.spot reader.new) }
    ensures kept { IfOk result (λ g. g.subject ≡ given.subject) }
    ensures fewer { IfOk result (λ g. spare (given_of g) < spare (given_of given)) }
{
    let word = next_word(reader)?;
    let attribute = given.named(word.part).ok_or(Ground::Attribute.at(word.at))?;
    next_mark(reader, Mark::Gives)?;
    let value = next_value(reader)?;
    given
        .with(attribute, value.part)
        .map_err(|ground| ground.at(value.at))
}

// Whether the token closes a block, if it may stand behind an attribute.
fn closer_in(token: Token<'_>) -> Option<bool>
    ensures { (p : Place) → result ≡ of_seen closer_of (sight token.entry p) }
{
    match token {
        Token::CloseBrace => Some(true),
        Token::Comma => Some(false),
        _ => None,
    }
}

// Past the brace behind a comma, if it stands there; whether it does.
fn last_comma<'a, R: Tokens<'a>>(reader: &mut R) -> Result<bool, TextFault>
    ensures { Reads (λ b. b) last_comma_at (R.spot reader.old) result (R.spot reader.new) }
{
    let mut ahead = *reader;
    let t = ahead.next_token()?;
    if closer_in(t.part) == Some(true) {
        *reader = ahead;
        return Ok(true);
    }
    Ok(false)
}

// Past `,` or `}` or both; whether the brace was closed.
fn next_closer<'a, R: Tokens<'a>>(reader: &mut R) -> Result<bool, TextFault>
    ensures { Reads (λ b. b) closing (R.spot reader.old) result (R.spot reader.new) }
{
    if next_as(reader, closer_in)?.part {
        return Ok(true);
    }
    last_comma(reader)
}

// Past the closing brace; what the block gives the subject.
pub(crate) fn attribute_block<'a, R: Tokens<'a>>(
    reader: &mut R,
    subject: Subject,
) -> Result<Given, TextFault>
    ensures reads { Reads given_of (attributes (subject_kind subject)) (R.spot reader.old) result (R.spot reader.new) }
    ensures kept { IfOk result (λ g. g.subject ≡ subject) }
{
    let mut given = Given {
        subject,
        ensure: None,
        content: None,
    };
    loop {
        given = next_attribute(reader, given)?;
        if next_closer(reader)? {
            return Ok(given);
        }
    }
}
