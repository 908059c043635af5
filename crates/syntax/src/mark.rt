// A mark that the grammar asks for.
#[derive(Clone, Copy, PartialEq, Eq, Debug)]
pub enum Mark {
    OpenBrace,
    Colon,
    // `=>`
    Gives,
    OpenBracket,
    CloseBracket,
}
