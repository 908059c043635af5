ghost use Rattle.std.specs.Prelude.{◌≡◌, ◌<◌, ◌≤◌, length, MatchOption};
ghost use Rattle.lexer.specs.Bytes.{Stands, Short, position, start as first};
ghost use Rattle.lexer.specs.Lexing.{next_token, scanned};
ghost use Rattle.lexer.specs.Rows.{placed_sight, answer, next, row_from};

use crate::cursor::Cursor;
use crate::fault::LexFault;
use crate::placed::Placed;
use crate::position::Position;
use crate::scan::line_ends;
use crate::token::Token;

// A text with the position that reading has come to, which is a place of the text or its end.
#[derive(Clone, Copy)]
pub struct Reader<'a> {
    text: &'a [u8],
    at: Position,
    ghost within: { at.place ≤ length text.now },
    // Lines are counted rightly as long as their number fits, as it does in a text of this length.
    ghost stands: { Short text.now → Stands text.now at },
}

impl<'a> Reader<'a> {
    // At the first byte of a text.
    pub fn new(text: &'a [u8]) -> Reader<'a>
        ensures text { result.text.now ≡ text.now }
        ensures at { result.at ≡ first }
    {
        Reader {
            text,
            at: Position::start(),
        }
    }

    // At a place of a text, with its line counted from the first; none past the end.
    pub fn at_place(text: &'a [u8], place: usize) -> Option<Reader<'a>>
        ensures { MatchOption result (length text.now < place) (λ r. (place ≤ length text.now) × (r.text.now ≡ text.now) × (r.at.place ≡ place) × (Short text.now → r.at ≡ position text.now place)) }
    {
        if place > text.len() {
            return None;
        }
        let before = &text[..place];
        let start = Cursor {
            text,
            at: Position::start(),
        };
        let at = start.past(before.len(), line_ends(before));
        Some(Reader { text, at })
    }

    pub fn position(&self) -> Position
        ensures { result ≡ self.now.at }
    {
        self.at
    }

    // The next token, or its fault: `token` says which stands next and where reading goes on, `row` says the same of the row of
    // all tokens. The end stays where it is.
    pub fn next_token(&mut self) -> Result<Placed<Token<'a>>, LexFault>
        ensures text { self.new.text.now ≡ self.old.text.now }
        ensures token { Short self.old.text.now → scanned result self.new.at ≡ next_token self.old.text.now self.old.at.place }
        ensures row { Short self.old.text.now → answer placed_sight result (row_from self.old.text.now self.new.at.place) ≡ next (row_from self.old.text.now self.old.at.place) }
    {
        let mut cursor = Cursor {
            text: self.text,
            at: self.at,
        };
        let token = cursor.next_token();
        self.at = cursor.at;
        token
    }
}
