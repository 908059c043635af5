// A word or a quoted text is handed on as that part of the text, without its quotes.
#[derive(Clone, Copy, PartialEq, Eq, Debug)]
pub enum Token<'a> {
    Word(&'a [u8]),
    Quoted(&'a [u8]),
    OpenBrace,
    CloseBrace,
    OpenBracket,
    CloseBracket,
    Colon,
    Comma,
    // `=>`
    Gives,
    // `->`
    Before,
    // `~>`
    Notifies,
    // The end of the text.
    End,
}
