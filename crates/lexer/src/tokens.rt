ghost use Rattle.std.specs.Prelude.{◌≡◌};
ghost use Rattle.lexer.specs.Rows.{placed_sight, answer, next};
ghost use Rattle.lexer.specs.Sources.{cursor_spot, reader_spot};
ghost use Rattle.lexer.specs.Spots.{Spot, Standing, ahead};

use crate::cursor::Cursor;
use crate::fault::LexFault;
use crate::placed::Placed;
use crate::reader::Reader;
use crate::token::Token;

// What tokens are read from, one after the other: a reader, or a text with any position.
pub trait Tokens<'a>: Copy {
    // The text, and the position that reading has come to.
    ghost spot: { Self → Spot };

    // The next token, or its fault.
    fn next_token(&mut self) -> Result<Placed<Token<'a>>, LexFault>
        ensures text { (spot self.new).text ≡ (spot self.old).text }
        ensures stands { Standing (spot self.old) → Standing (spot self.new) }
        ensures row { Standing (spot self.old) → answer placed_sight result (ahead (spot self.new)) ≡ next (ahead (spot self.old)) };
}

impl<'a> Tokens<'a> for Cursor<'a> {
    ghost spot = { cursor_spot };

    fn next_token(&mut self) -> Result<Placed<Token<'a>>, LexFault> {
        Cursor::next_token(self)
    }
}

impl<'a> Tokens<'a> for Reader<'a> {
    ghost spot = { reader_spot };

    fn next_token(&mut self) -> Result<Placed<Token<'a>>, LexFault> {
        Reader::next_token(self)
    }
}
