// Every token, blank and refusal of a text, with places and lines.
#![tactic(auto)]

#[cfg(test)]
mod tests {
    use faults::Numbered;
    use lexer::{LexFault, Placed, Position, Reader, Token};
    use std::test::Fail;

    fn nth<'a>(text: &'a str, n: usize) -> Result<Placed<Token<'a>>, LexFault> {
        let mut reader = Reader::new(text.as_bytes());
        for _ in 0..n {
            reader.next_token()?;
        }
        reader.next_token()
    }

    #[test]
    fn tokens(rt: HostRuntime) {
        let all = "{}[]:,=>->~> aZ'b c'";
        let cases = [
            (0, Token::OpenBrace, 0),
            (1, Token::CloseBrace, 1),
            (2, Token::OpenBracket, 2),
            (3, Token::CloseBracket, 3),
            (4, Token::Colon, 4),
            (5, Token::Comma, 5),
            (6, Token::Gives, 6),
            (7, Token::Before, 8),
            (8, Token::Notifies, 10),
            (9, Token::Word(b"aZ"), 13),
            (10, Token::Quoted(b"b c"), 15),
            (11, Token::End, 20),
            (12, Token::End, 20),
        ];
        for (n, part, place) in cases {
            let at = Position { place, line: 1 };
            assert_eq!(rt; nth(all, n), Ok(Placed { part, at }));
        }
    }

    #[test]
    fn words_and_quoted_texts(rt: HostRuntime) {
        let cases = [
            ("azAZ", 0, Token::Word(b"azAZ"), 0),
            ("a b", 1, Token::Word(b"b"), 2),
            ("a#b", 1, Token::End, 3),
            ("a'b'c", 1, Token::Quoted(b"b"), 1),
            ("a'b'c", 2, Token::Word(b"c"), 4),
            ("''", 0, Token::Quoted(b""), 0),
            ("' ~#{\"'", 0, Token::Quoted(b" ~#{\""), 0),
            ("'a''b'", 1, Token::Quoted(b"b"), 3),
        ];
        for (text, n, part, place) in cases {
            let at = Position { place, line: 1 };
            assert_eq!(rt; nth(text, n), Ok(Placed { part, at }), "{}", text);
        }
    }

    #[test]
    fn blanks_and_lines(rt: HostRuntime) {
        let cases = [
            ("", 0, Token::End, 0, 1),
            (" \t\r\n", 0, Token::End, 4, 2),
            ("a\r\nb\r\n", 1, Token::Word(b"b"), 3, 2),
            ("a\r\nb\r\n", 2, Token::End, 6, 3),
            ("a\rb", 1, Token::Word(b"b"), 2, 1),
            ("# c ' # -\n\nd", 0, Token::Word(b"d"), 11, 3),
            ("# c\r\nd", 0, Token::Word(b"d"), 5, 2),
            ("a # to the end", 1, Token::End, 14, 1),
            ("#", 0, Token::End, 1, 1),
            ("\n#\n{", 0, Token::OpenBrace, 3, 3),
        ];
        for (text, n, part, place, line) in cases {
            let at = Position { place, line };
            assert_eq!(rt; nth(text, n), Ok(Placed { part, at }), "{}", text);
        }
    }

    #[test]
    fn refusals(rt: HostRuntime) {
        let cases = [
            // No token begins.
            ("a 1", 1, 2, 1),
            ("\n\"b\"", 0, 1, 2),
            ("a_b", 1, 1, 1),
            ("@", 0, 0, 1),
            ("`", 0, 0, 1),
            ("\u{7f}", 0, 0, 1),
            // Half an arrow, at its first byte.
            ("\n-", 0, 1, 2),
            ("a - >", 1, 2, 1),
            ("=", 0, 0, 1),
            ("==>", 0, 0, 1),
            ("~~>", 0, 0, 1),
            (">", 0, 0, 1),
            // No closing quote, at the opening one.
            ("\n 'abc", 0, 2, 2),
            ("'", 0, 0, 1),
            ("'a''", 1, 3, 1),
            // A wrong byte in a quoted text, at that byte.
            ("'a\tb'", 0, 2, 1),
            ("\n'a\nb'", 0, 3, 2),
            ("'a\\'", 0, 2, 1),
            ("'\u{7f}'", 0, 1, 1),
            ("'\u{1f}", 0, 1, 1),
        ];
        for (text, n, place, line) in cases {
            let at = Position { place, line };
            assert_eq!(rt; nth(text, n), Err(LexFault { at }), "{}", text);
        }
        let f = LexFault {
            at: Position::start(),
        };
        assert_eq!(rt; f.number(), 12);
    }

    // A position that is no place of the text is safe, and reads the end.
    #[test]
    fn beyond_the_text(rt: HostRuntime) -> Result<(), Fail> {
        let mut at = Position {
            place: 9,
            line: usize::MAX,
        };
        let t = at.next_token(b"a\n")?;
        assert_eq!(rt; t.part, Token::End);
        assert_eq!(rt; at.place, 9);
        Ok(())
    }

    #[test]
    fn positions_read_on(rt: HostRuntime) -> Result<(), Fail> {
        let text = b"a\n b";
        let mut at = Position::start();
        assert_eq!(rt; at.next_token(text)?.part, Token::Word(b"a"));
        assert_eq!(rt; at, Position { place: 1, line: 1 });
        let t = at.next_token(text)?;
        assert_eq!(rt; t.part, Token::Word(b"b"));
        assert_eq!(rt; t.at, Position { place: 3, line: 2 });
        assert_eq!(rt; at, Position { place: 4, line: 2 });
        Ok(())
    }

    // Where reading stands after a refusal, and what it goes on with: the next token, or the same refusal where no token begins.
    #[test]
    fn refused_positions_read_on(rt: HostRuntime) {
        let cases = [
            // Past the first byte of half an arrow.
            ("\n -a", 3, 2, Ok(Token::Word(b"a"))),
            ("==>", 1, 1, Ok(Token::Gives)),
            ("~", 1, 1, Ok(Token::End)),
            // At the wrong byte of a quoted text.
            ("\n'a\nb'", 3, 2, Ok(Token::Word(b"b"))),
            ("'\\'", 1, 1, Err(1)),
            // At the end, where a quoted text has none.
            ("# c\n 'abc", 9, 2, Ok(Token::End)),
            // At the byte where no token begins.
            (" \n 1 a", 3, 2, Err(3)),
        ];
        for (text, place, line, then) in cases {
            let mut at = Position::start();
            assert!(rt; at.next_token(text.as_bytes()).is_err(), "{}", text);
            assert_eq!(rt; at, Position { place, line }, "{}", text);
            let read = at.next_token(text.as_bytes());
            assert_eq!(rt;
                read.map(|t| t.part).map_err(|f| f.at.place),
                then,
                "{}",
                text
            );
        }
    }

    // A long text is read in the time of its bytes, from one position on.
    #[test]
    fn long_texts(rt: HostRuntime) -> Result<(), Fail> {
        let mut text = Vec::new(rt.alloc());
        for _ in 0..20_000 {
            text.push(b'{')?;
            text.push(b'\n')?;
        }
        let mut at = Position::start();
        for n in 0..20_000 {
            let t = at.next_token(&text)?;
            assert_eq!(rt; t.part, Token::OpenBrace);
            assert_eq!(rt;
                t.at,
                Position {
                    place: 2 * n,
                    line: n + 1
                }
            );
        }
        assert_eq!(rt; at.next_token(&text)?.part, Token::End);
        assert_eq!(rt;
            at,
            Position {
                place: 40_000,
                line: 20_001
            }
        );
        Ok(())
    }

    #[test]
    fn readers_at_a_place(rt: HostRuntime) {
        let text = b"a\n\nb";
        let cases = [
            (0, Some(1)),
            (1, Some(1)),
            (2, Some(2)),
            (3, Some(3)),
            (4, Some(3)),
            (5, None),
        ];
        for (place, line) in cases {
            let at = Reader::at_place(text, place).map(|r| r.position());
            assert_eq!(rt; at, line.map(|line| Position { place, line }));
        }
    }
}
