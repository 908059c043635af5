ghost use Rattle.std.specs.Prelude.{◌≡◌, ℕ, ◌^◌, ◌<◌, List, length, Ok, IfErr};
ghost use Rattle.lexer.specs.declared.token.Token.TheVariants.{End};
ghost use Rattle.lexer.specs.Bytes.{Stands, start as first};
ghost use Rattle.lexer.specs.Lexing.{next_token, next_stop, scanned};
ghost use Rattle.lexer.specs.Rows.{placed_sight, answer, next, row_from};

use crate::cursor::Cursor;
use crate::fault::LexFault;
use crate::placed::Placed;
use crate::token::Token;

// A place of a text, counted in bytes from 0, with its line, counted from 1.
#[derive(Clone, Copy, PartialEq, Eq, Debug)]
pub struct Position {
    pub place: usize,
    pub line: usize,
}

impl Position {
    // The first byte of any text.
    pub fn start() -> Position
        ensures value { result ≡ first }
        ensures stands { (text : List ℕ) → length text < 2 ^ 32 → Stands text result }
    {
        Position { place: 0, line: 1 }
    }

    // The next token of the text from here on, or its fault: `token` says which stands next and where reading goes on, `row` says the
    // same of the row of all tokens, `refused` where reading stops at a fault. The end stays where it is, and so does a position past it.
    pub fn next_token<'a>(&mut self, text: &'a [u8]) -> Result<Placed<Token<'a>>, LexFault>
        ensures stands { Stands text.now self.old → Stands text.now self.new }
        ensures token { Stands text.now self.old → scanned result self.new ≡ next_token text.now self.old.place }
        ensures row { Stands text.now self.old → answer placed_sight result (row_from text.now self.new.place) ≡ next (row_from text.now self.old.place) }
        ensures refused { IfErr result (λ f. self.new.place ≡ next_stop text.now self.old.place) }
        ensures beyond { length text.now < self.old.place → (result ≡ Ok (record { part = End; at = self.old })) × (self.new ≡ self.old) }
    {
        let mut cursor = Cursor { text, at: *self };
        let token = cursor.next_token();
        *self = cursor.at;
        token
    }
}
