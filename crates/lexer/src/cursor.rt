ghost use Rattle.std.specs.Prelude.{◌≡◌, ◌+◌, ◌<◌, ◌≤◌, ◌∷◌, length, take, drop, Ok, IfErr};
ghost use Rattle.std.specs.List.{prefix_len};
ghost use Rattle.lexer.specs.declared.token.Token.TheVariants.{End};
ghost use Rattle.lexer.specs.Bytes.{Stands, in_line, line_ends};
ghost use Rattle.lexer.specs.Lexing.{next_token, token_at, token_answer, quote_token, quote_end, quote_stop, stop_at, next_stop, scanned};
ghost use Rattle.lexer.specs.Rows.{placed_sight, answer, next, row_from};

use crate::fault::LexFault;
use crate::placed::Placed;
use crate::position::Position;
use crate::scan::{blanks, letters, plain};
use crate::token::Token;

// A text with any position. One that does not stand in the text is safe, and nothing is said of what is read from there.
#[derive(Clone, Copy)]
pub struct Cursor<'a> {
    pub text: &'a [u8],
    pub at: Position,
}

impl<'a> Cursor<'a> {
    // The bytes from here on.
    fn rest(&self) -> &'a [u8]
        requires { self.now.at.place ≤ length self.now.text.now }
        ensures { result.now ≡ drop self.now.at.place self.now.text.now }
    {
        &self.text[self.at.place..]
    }

    // The position n bytes on, in which so many lines end. Lines saturate, so that no position is unsafe.
    pub(crate) fn past(&self, n: usize, lines: usize) -> Position
        requires within { self.now.at.place + n ≤ length self.now.text.now }
        requires lines { lines ≡ line_ends (take n (drop self.now.at.place self.now.text.now)) }
        ensures place { result.place ≡ self.now.at.place + n }
        ensures stands { Stands self.now.text.now self.now.at → Stands self.now.text.now result }
    {
        Position {
            place: self.at.place + n,
            line: self.at.line.saturating_add(lines),
        }
    }

    // The position n bytes on in this line.
    fn along(&self, n: usize) -> Position
        requires { n ≤ prefix_len in_line (drop self.now.at.place self.now.text.now) }
        ensures place { result.place ≡ self.now.at.place + n }
        ensures within { self.now.at.place ≤ length self.now.text.now → result.place ≤ length self.now.text.now }
        ensures stands { Stands self.now.text.now self.now.at → Stands self.now.text.now result }
    {
        Position {
            place: self.at.place + n,
            line: self.at.line,
        }
    }

    // The text that is quoted here, whose bytes past the opening quote are `inner`, and how many bytes were read.
    #[tactic(auto, using(crate::proofs::Lines::plain_in_line, crate::proofs::Lines::kept_more))]
    fn quoted(&self, inner: &'a [u8]) -> (Result<Token<'a>, LexFault>, usize)
        requires { drop self.now.at.place self.now.text.now ≡ 39 ∷ inner.now }
        ensures in_line { result.1 ≤ prefix_len in_line (drop self.now.at.place self.now.text.now) }
        ensures answer { Stands self.now.text.now self.now.at → token_answer self.now.at result.0 result.1 ≡ quote_token self.now.text.now self.now.at.place (quote_end (self.now.at.place + 1) inner.now) }
        ensures refused { IfErr result.0 (λ f. self.now.at.place + result.1 ≡ quote_stop self.now.text.now self.now.at.place (quote_end (self.now.at.place + 1) inner.now)) }
    {
        let n = plain(inner);
        let stop = self.along(n + 1);
        match inner.get(n) {
            Some(b) if *b as char == '\'' => (Ok(Token::Quoted(&inner[..n])), n + 2),
            Some(_) => (Err(LexFault { at: stop }), n + 1),
            None => (Err(LexFault { at: self.at }), n + 1),
        }
    }

    // The token whose first byte is here, and how many bytes were read; the end of the text is one.
    #[tactic(auto, using(crate::proofs::Lines::letters_in_line))]
    fn token(&self) -> (Result<Token<'a>, LexFault>, usize)
        requires { self.now.at.place ≤ length self.now.text.now }
        ensures in_line { result.1 ≤ prefix_len in_line (drop self.now.at.place self.now.text.now) }
        ensures answer { Stands self.now.text.now self.now.at → token_answer self.now.at result.0 result.1 ≡ token_at self.now.text.now self.now.at.place }
        ensures refused { IfErr result.0 (λ f. self.now.at.place + result.1 ≡ stop_at self.now.text.now self.now.at.place) }
    {
        let rest = self.rest();
        let Some((first, inner)) = rest.split_first() else {
            return (Ok(Token::End), 0);
        };
        match *first as char {
            'a'..='z' | 'A'..='Z' => {
                let n = letters(rest);
                (Ok(Token::Word(&rest[..n])), n)
            }
            '{' => (Ok(Token::OpenBrace), 1),
            '}' => (Ok(Token::CloseBrace), 1),
            '[' => (Ok(Token::OpenBracket), 1),
            ']' => (Ok(Token::CloseBracket), 1),
            ':' => (Ok(Token::Colon), 1),
            ',' => (Ok(Token::Comma), 1),
            '=' if inner.starts_with(b">") => (Ok(Token::Gives), 2),
            '-' if inner.starts_with(b">") => (Ok(Token::Before), 2),
            '~' if inner.starts_with(b">") => (Ok(Token::Notifies), 2),
            '=' | '-' | '~' => (Err(LexFault { at: self.at }), 1),
            '\'' => self.quoted(inner),
            _ => (Err(LexFault { at: self.at }), 0),
        }
    }

    // The next token from here on, or its fault: `token` says which stands next and where reading goes on, `row` says the same of
    // the row of all tokens, `refused` where reading stops at a fault. The end stays where it is, and so does a position past it.
    pub fn next_token(&mut self) -> Result<Placed<Token<'a>>, LexFault>
        ensures text { self.new.text.now ≡ self.old.text.now }
        ensures within { self.old.at.place ≤ length self.old.text.now → self.new.at.place ≤ length self.new.text.now }
        ensures stands { Stands self.old.text.now self.old.at → Stands self.new.text.now self.new.at }
        ensures token { Stands self.old.text.now self.old.at → scanned result self.new.at ≡ next_token self.old.text.now self.old.at.place }
        ensures row { Stands self.old.text.now self.old.at → answer placed_sight result (row_from self.old.text.now self.new.at.place) ≡ next (row_from self.old.text.now self.old.at.place) }
        ensures refused { IfErr result (λ f. self.new.at.place ≡ next_stop self.old.text.now self.old.at.place) }
        ensures beyond { length self.old.text.now < self.old.at.place → (result ≡ Ok (record { part = End; at = self.old.at })) × (self.new.at ≡ self.old.at) }
    {
        if self.at.place > self.text.len() {
            return Ok(Placed {
                part: Token::End,
                at: self.at,
            });
        }
        let (blank, lines) = blanks(self.rest());
        self.at = self.past(blank, lines);
        let at = self.at;
        let (token, len) = self.token();
        self.at = self.along(len);
        let part = token?;
        Ok(Placed { part, at })
    }
}
