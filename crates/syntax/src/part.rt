// Single tokens, as the grammar wants them. Each part has the position of its token's first byte, a quoted text's opening quote.
// What is read from, `reader`, may be a text with any position: one that does not stand in the text is safe, and nothing is said of it.
ghost use Rattle.std.specs.Prelude.{◌≡◌};
ghost use Rattle.std.specs.Option.{option_map};
ghost use Rattle.lexer.specs.Lexing.{sight};
ghost use Rattle.lexer.specs.declared.position.Position.{Position as Place};
ghost use Rattle.syntax.specs.Parts.{bytes, value_means, placed_as, placed_mark};
ghost use Rattle.syntax.specs.Reading.{Reads, taken};
ghost use Rattle.syntax.specs.Picking.{Picks};
ghost use Rattle.syntax.specs.Tokens.{word_of, quoted_of, value_of, mark_of, the_mark, of_seen};

use crate::fault::{Ground, TextFault};
use crate::mark::Mark;
use faults::Numbered;
use lexer::{Placed, Position, Token, Tokens};

// What an attribute is given.
#[derive(Clone, Copy)]
pub enum Value<'a> {
    Word(&'a [u8]),
    // Without its quotes.
    Quoted(&'a [u8]),
}

fn word_in<'a>(token: Token<'a>) -> Option<&'a [u8]>
    ensures { (p : Place) → option_map bytes result ≡ of_seen word_of (sight token.entry p) }
{
    match token {
        Token::Word(bytes) => Some(bytes),
        _ => None,
    }
}

fn quoted_in<'a>(token: Token<'a>) -> Option<&'a [u8]>
    ensures { (p : Place) → option_map bytes result ≡ of_seen quoted_of (sight token.entry p) }
{
    match token {
        Token::Quoted(bytes) => Some(bytes),
        _ => None,
    }
}

fn value_in<'a>(token: Token<'a>) -> Option<Value<'a>>
    ensures { (p : Place) → option_map value_means result ≡ of_seen value_of (sight token.entry p) }
{
    match token {
        Token::Word(bytes) => Some(Value::Word(bytes)),
        Token::Quoted(bytes) => Some(Value::Quoted(bytes)),
        _ => None,
    }
}

fn mark_in(token: Token<'_>) -> Option<Mark>
    ensures { (p : Place) → result ≡ of_seen mark_of (sight token.entry p) }
{
    match token {
        Token::OpenBrace => Some(Mark::OpenBrace),
        Token::Colon => Some(Mark::Colon),
        Token::Gives => Some(Mark::Gives),
        Token::OpenBracket => Some(Mark::OpenBracket),
        Token::CloseBracket => Some(Mark::CloseBracket),
        _ => None,
    }
}

fn this_mark(wanted: Mark, token: Token<'_>) -> Option<()>
    ensures { (p : Place) → result ≡ of_seen (the_mark wanted) (sight token.entry p) }
{
    (mark_in(token) == Some(wanted)).then_some(())
}

// The next token as what `pick` makes of it; where that is nothing, the grammar allows no such token here.
pub fn next_as<'a, R: Tokens<'a>, T, F: Fn(Token<'a>) -> Option<T>>(
    reader: &mut R,
    pick: F,
) -> Result<Placed<T>, TextFault>
    requires { F.IsAlwaysCallable pick }
    ensures { Picks (F.post pick) (R.spot reader.old) result (R.spot reader.new) }
{
    let t = reader.next_token()?;
    let part = pick(t.part).ok_or(Ground::Unexpected.at(t.at))?;
    Ok(Placed { part, at: t.at })
}

// The next token, which is to be a word.
pub fn next_word<'a, R: Tokens<'a>>(reader: &mut R) -> Result<Placed<&'a [u8]>, TextFault>
    ensures { Reads (placed_as bytes) (taken word_of) (R.spot reader.old) result (R.spot reader.new) }
{
    next_as(reader, word_in)
}

// The next token, which is to be a quoted text.
pub fn next_quoted<'a, R: Tokens<'a>>(reader: &mut R) -> Result<Placed<&'a [u8]>, TextFault>
    ensures { Reads (placed_as bytes) (taken quoted_of) (R.spot reader.old) result (R.spot reader.new) }
{
    next_as(reader, quoted_in)
}

// The next token, which is to be a word or a quoted text.
pub fn next_value<'a, R: Tokens<'a>>(reader: &mut R) -> Result<Placed<Value<'a>>, TextFault>
    ensures { Reads (placed_as value_means) (taken value_of) (R.spot reader.old) result (R.spot reader.new) }
{
    next_as(reader, value_in)
}

// The next token, which is to be this mark; its position.
pub fn next_mark<'a, R: Tokens<'a>>(reader: &mut R, wanted: Mark) -> Result<Position, TextFault>
    ensures { Reads placed_mark (taken (the_mark wanted)) (R.spot reader.old) result (R.spot reader.new) }
{
    Ok(next_as(reader, |token| this_mark(wanted, token))?.at)
}
