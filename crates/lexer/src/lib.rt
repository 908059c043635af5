// The tokens of a manifest text, read one by one, each with its place and line.
#![tactic(auto)]

ghost use Rattle.lexer.specs.Cover.{Covered, OnlyCover};

pub mod cursor;
pub mod fault;
pub mod placed;
pub mod position;
pub mod reader;
mod scan;
pub mod token;
pub mod tokens;

pub use cursor::Cursor;
pub use fault::LexFault;
pub use placed::Placed;
pub use position::Position;
pub use reader::Reader;
pub use token::Token;
pub use tokens::Tokens;

// The tokens of a text cover it: each token's bytes stand in it, in order, and between two tokens are only
// blanks and comments, up to the end of the text or to what is no token.
pub fn tokens_cover_text()
    ensures { Covered }
{}

// No other row of tokens covers a text, so that covering it says what its tokens are.
pub fn only_row_that_covers()
    ensures { OnlyCover }
{}
