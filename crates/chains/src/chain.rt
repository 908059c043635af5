ghost use Rattle.std.specs.Prelude.{◌≡◌, length, map, take};
ghost use Rattle.lexer.specs.Lexing.{sight};
ghost use Rattle.lexer.specs.declared.position.Position.{Position as Place};
ghost use Rattle.syntax.specs.Errors.{Tries};
ghost use Rattle.syntax.specs.Parts.{placed_as};
ghost use Rattle.syntax.specs.Reading.{Reads, taken};
ghost use Rattle.syntax.specs.Tokens.{of_seen};
ghost use Rattle.grammar.specs.Chains.{arrow_of, arrow_follows, link as link_at, chain as chain_at};
ghost use Rattle.chains.specs.Meanings.{ref_of, link_of};

use crate::reference::{Ref, next_bracketed, next_reference};
use faults::Numbered;
use lexer::{Placed, Position, Token, Tokens};
use syntax::part::next_as;
use syntax::{Arrow, Ground, Kind, TextError, TextFault};

const LINKS_MAX: usize = 64;

// Two references and the arrow between them.
#[derive(Clone, Copy)]
pub struct Link<'a> {
    pub left: Ref<'a>,
    pub arrow: Placed<Arrow>,
    pub right: Ref<'a>,
}

fn arrow_in(token: Token<'_>) -> Option<Arrow>
    ensures { (p : Place) → result ≡ of_seen arrow_of (sight token.entry p) }
{
    match token {
        Token::Before => Some(Arrow::Before),
        Token::Notifies => Some(Arrow::Notifies),
        _ => None,
    }
}

// Whether an arrow is the next token.
fn sees_arrow<'a, R: Tokens<'a>>(mut reader: R) -> Result<bool, TextFault>
    ensures { Reads (λ b. b) arrow_follows (R.spot reader) result (R.spot reader) }
{
    let t = reader.next_token()?;
    Ok(arrow_in(t.part).is_some())
}

fn next_arrow<'a, R: Tokens<'a>>(reader: &mut R) -> Result<Placed<Arrow>, TextFault>
    ensures { Reads (placed_as (λ a. a)) (taken arrow_of) (R.spot reader.old) result (R.spot reader.new) }
{
    next_as(reader, arrow_in)
}

// An arrow and a reference, behind the reference `left`.
fn next_link<'a, R: Tokens<'a>>(reader: &mut R, left: Ref<'a>) -> Result<Link<'a>, TextFault>
    ensures { Reads link_of (link_at (ref_of left.entry)) (R.spot reader.old) result (R.spot reader.new) }
{
    let arrow = next_arrow(reader)?;
    let right = next_reference(reader)?;
    Ok(Link { left, arrow, right })
}

// What stands behind the word of the first reference's kind, which stands at `first`; the links come behind those that are there.
// A refusal keeps those that were there, and may leave some of this chain behind them.
pub fn next_chain<'a, R: Tokens<'a>>(
    reader: &mut R,
    kind: Kind,
    first: Position,
    links: &mut Vec<Link<'a>>,
) -> Result<(), TextError>
    ensures kept { take (length links.old.items) links.new.items ≡ links.old.items }
    ensures reads { Tries (λ _. map link_of links.new.items) (chain_at kind first (map link_of links.old.items)) (R.spot reader.old) result (R.spot reader.new) }
{
    let mut left = next_bracketed(reader, kind, first)?;
    loop {
        let next = next_link(reader, left)?;
        if links.len() >= LINKS_MAX {
            return Err(Ground::TooMany.at(next.arrow.at).into());
        }
        links.push(next)?;
        if !sees_arrow(*reader)? {
            return Ok(());
        }
        left = next.right;
    }
}
