// One declaration and one chain, read off a text, by a reader or at any position: what each refusal's number and place is, and that reading succeeds where memory is left.
#![tactic(auto)]

#[cfg(test)]
mod tests {
    use chains::Link;
    use chains::chain::next_chain;
    use declarations::Resource;
    use declarations::declared::next_declaration;
    use faults::Numbered;
    use lexer::{Cursor, Position, Reader, Tokens};
    use std::test::Fail;
    use syntax::{Arrow, Kind, TextError};

    // The number and the place of a refusal; 0 where the text is read.
    fn refusal(r: Result<(), TextError>) -> (u8, usize) {
        match r {
            Ok(()) => (0, 0),
            Err(TextError::Fault(f)) => (f.number(), f.at.place),
            Err(TextError::Memory) => (255, 0),
        }
    }

    // The sign of the resource that a file's declaration asks for, or the number of its refusal, with the place of its title or of the refused part.
    fn declared<'a, R: Tokens<'a>>(reader: &mut R) -> (char, u8, usize) {
        match next_declaration(reader, Kind::File) {
            Ok(d) => (sign(d.part), 0, d.at.place),
            Err(f) => ('!', f.number(), f.at.place),
        }
    }

    fn file(text: &str) -> (char, u8, usize) {
        let mut reader = Reader::new(text.as_bytes());
        declared(&mut reader)
    }

    fn sign(resource: Resource) -> char {
        match resource {
            Resource::Put(_, _) => 'f',
            Resource::Directory(_) => 'd',
            Resource::Absent(_) => 'a',
            Resource::Package(_) => 'p',
            Resource::Service(_) => 's',
        }
    }

    #[test]
    fn declared_files(rt: HostRuntime) {
        let cases = [
            ("{ '/a': ensure => directory }", 'd', 0, 2),
            ("{ '/a': ensure => absent, }", 'a', 0, 2),
            ("{ '/a': ensure => file, content => 'hi' }", 'f', 0, 2),
            ("{ '/a': content => 'hi', ensure => file }", 'f', 0, 2),
            ("'/a': ensure => file }", '!', 13, 0),
            ("{ '/a' ensure => file }", '!', 13, 7),
            ("{ '/a': ensure ! file }", '!', 12, 15),
            ("{ 'a': ensure => directory }", '!', 14, 2),
            ("{ '/a': mode => file }", '!', 15, 8),
            ("{ '/a': ensure => file, ensure => file }", '!', 15, 24),
            ("{ '/a': ensure => present }", '!', 16, 18),
            ("{ '/a': ensure => file }", '!', 17, 2),
            ("{ '/a': content => 'hi' }", '!', 17, 2),
            ("{ '/a': ensure => absent, content => 'hi' }", '!', 17, 2),
        ];
        for (text, sign, number, place) in cases {
            assert!(rt; file(text) == (sign, number, place), "{}", text);
        }
    }

    // Reads the chain of a text that begins with `File`.
    fn chain<'a>(text: &'a [u8], links: &mut Vec<Link<'a>>) -> Result<(), TextError> {
        let mut reader = Reader::at_place(text, 4).unwrap_or(Reader::new(text));
        next_chain(&mut reader, Kind::File, Position::start(), links)
    }

    #[test]
    fn two_links(rt: HostRuntime) {
        let text = b"File['/a'] -> Package['fx'] ~> Service['mix']";
        let mut links = Vec::new(rt.alloc());
        assert!(rt; refusal(chain(text, &mut links)) == (0, 0));
        assert_eq!(rt; links.len(), 2);
        let (one, two) = (links[0], links[1]);
        assert!(rt; one.arrow.part == Arrow::Before && two.arrow.part == Arrow::Notifies);
        assert!(rt; one.arrow.at.place == 11 && two.arrow.at.place == 28);
        assert!(rt; one.left.kind == Kind::File && one.left.title == b"/a".as_slice());
        assert!(rt; one.right.kind == Kind::Package && one.right.title == b"fx".as_slice());
        assert!(rt; two.left.kind == Kind::Package && two.left.at.place == 14);
        assert!(rt; two.right.kind == Kind::Service && two.right.at.place == 31);
    }

    #[test]
    fn broken_chains(rt: HostRuntime) {
        let cases = [
            ("File['/a']", 13, 10),
            ("File['/a'] -> package['fx']", 13, 14),
            ("File['/a'] - Package['fx']", 12, 11),
            ("File['/a'] -> Package['fx'", 13, 26),
            ("File['/a'] -> Package[fx]", 13, 22),
            ("File '/a'] -> Package['fx']", 13, 5),
        ];
        for (text, number, place) in cases {
            let mut links = Vec::new(rt.alloc());
            assert!(rt;
                refusal(chain(text.as_bytes(), &mut links)) == (number, place),
                "{}",
                text
            );
        }
    }

    // A chain of n links.
    fn row(rt: &impl AllocGlobal, n: usize) -> Result<String, Fail> {
        let mut text = String::new(rt.alloc());
        text.push_str("File['/a']")?;
        for _ in 0..n {
            text.push_str(" -> File['/b']")?;
        }
        Ok(text)
    }

    // 64 links are read, and the 65th is refused at its arrow; those before it stay.
    #[test]
    fn most_links(rt: HostRuntime) -> Result<(), Fail> {
        for (n, refused) in [(64, (0, 0)), (65, (20, 907))] {
            let text = row(&rt, n)?;
            let mut links = Vec::new(rt.alloc());
            assert!(rt; refusal(chain(text.as_bytes(), &mut links)) == refused);
            assert_eq!(rt; links.len(), 64);
        }
        Ok(())
    }

    // Four lines, with a declaration and a chain in the midst of them.
    fn four_lines() -> &'static [u8] {
        b"file\n{ '/a':\n  ensure => directory }\nFile['/a'] ~> Service['b'] }"
    }

    // From a position behind the word of its kind, and again from the same one.
    #[test]
    fn declared_in_the_midst(rt: HostRuntime) {
        let kept = Cursor {
            text: four_lines(),
            at: Position { place: 4, line: 1 },
        };
        for _ in 0..2 {
            let mut cursor = kept;
            let read = next_declaration(&mut cursor, Kind::File);
            assert!(rt;
                read.is_ok_and(|d| sign(d.part) == 'd' && d.at == Position { place: 7, line: 2 })
            );
            assert!(rt; cursor.at == Position { place: 36, line: 3 });
        }
    }

    #[test]
    fn chained_in_the_midst(rt: HostRuntime) {
        let first = Position { place: 37, line: 4 };
        let mut cursor = Cursor {
            text: four_lines(),
            at: Position { place: 41, line: 4 },
        };
        let mut links = Vec::new(rt.alloc());
        assert!(rt; refusal(next_chain(&mut cursor, Kind::File, first, &mut links)) == (0, 0));
        assert!(rt; cursor.at == Position { place: 63, line: 4 });
        assert_eq!(rt; links.len(), 1);
        let link = links[0];
        assert!(rt; link.left.at == first && link.left.title == b"/a".as_slice());
        assert!(rt;
            link.arrow.part == Arrow::Notifies && link.arrow.at == Position { place: 48, line: 4 }
        );
        assert!(rt;
            link.right.kind == Kind::Service && link.right.at == Position { place: 51, line: 4 }
        );
    }

    // At the end of a text, and past it, nothing stands: refused there.
    #[test]
    fn past_the_end(rt: HostRuntime) {
        let text = four_lines();
        for place in [65, 66, 1000, usize::MAX] {
            let at = Position { place, line: 4 };
            let mut cursor = Cursor { text, at };
            assert!(rt; declared(&mut cursor) == ('!', 13, place), "{}", place);
            let mut links = Vec::new(rt.alloc());
            assert!(rt;
                refusal(next_chain(&mut cursor, Kind::File, at, &mut links)) == (13, place),
                "{}",
                place
            );
            assert!(rt; cursor.at == at && links.is_empty());
        }
    }
}
