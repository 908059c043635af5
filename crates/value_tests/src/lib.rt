// Paths, names and contents at every bound of their rules.
#![tactic(auto)]

#[cfg(test)]
mod tests {
    use faults::Numbered;
    use std::test::Fail;
    use values::text::{Rule, Text};
    use values::{Content, Name, Path, ValueFault};

    // A taken value that has other bytes than it was given.
    const ALTERED: u8 = 255;

    // 0 for a value with the bytes that it was given, or the number of its refusal.
    fn case<R: Rule<N>, const N: usize>(read: Result<Text<R, N>, ValueFault>, given: &[u8]) -> u8 {
        match read {
            Ok(text) if text.as_bytes() == given => 0,
            Ok(_) => ALTERED,
            Err(fault) => fault.number(),
        }
    }

    #[test]
    fn paths(rt: HostRuntime) {
        let cases = [
            ("", 1),
            ("/", 1),
            ("a", 1),
            ("ab", 1),
            ("/a", 0),
            ("//", 1),
            ("/a/", 1),
            ("//a", 1),
            ("/a//b", 1),
            ("/a/b", 0),
            ("/.", 1),
            ("/..", 1),
            ("/...", 0),
            ("/a/..", 1),
            ("/../a", 1),
            ("/.a", 0),
            ("/az09._-", 0),
            ("/A", 1),
            ("/a b", 1),
            ("/a\n", 1),
            // components of 16 and 17 bytes
            ("/0123456789abcdef", 0),
            ("/0123456789abcdef0", 1),
            ("/a/0123456789abcdef", 0),
            ("/a/0123456789abcdef0", 1),
            // 48 and 49 bytes
            ("/0123456789abcde/0123456789abcde/0123456789abcde", 0),
            ("/0123456789abcde/0123456789abcde/0123456789abcdef", 1),
            // 24 components
            ("/a/b/c/d/e/f/g/h/i/j/k/l/m/n/o/p/q/r/s/t/u/v/w/x", 0),
            ("/a/b/c/d/e/f/g/h/i/j/k/l/m/n/o/p/q/r/s/t/u/v/w/x/", 1),
        ];
        for (text, number) in cases {
            let given = text.as_bytes();
            assert_eq!(rt; case(Path::try_from(given), given), number, "{}", text);
        }
    }

    #[test]
    fn names(rt: HostRuntime) {
        let cases = [
            ("", 1),
            (".", 1),
            ("..", 1),
            ("...", 0),
            ("f", 0),
            ("/f", 1),
            ("f/", 1),
            ("f/g", 1),
            ("F", 1),
            ("fx-2_b.c", 0),
            ("0123456789abcdef", 0),
            ("0123456789abcdefg", 1),
        ];
        for (text, number) in cases {
            let given = text.as_bytes();
            assert_eq!(rt; case(Name::try_from(given), given), number, "{}", text);
        }
    }

    #[test]
    fn contents(rt: HostRuntime) -> Result<(), Fail> {
        let bytes = [0xffu8; 65];
        assert_eq!(rt; case(Content::try_from(&bytes[0..0]), &bytes[0..0]), 0);
        assert_eq!(rt; case(Content::try_from(&bytes[0..1]), &bytes[0..1]), 0);
        assert_eq!(rt; case(Content::try_from(&bytes[0..64]), &bytes[0..64]), 0);
        assert_eq!(rt; case(Content::try_from(&bytes[0..65]), &bytes[0..65]), 2);
        let (x, y) = (
            Content::try_from(b"a".as_slice())?,
            Content::try_from(b"ab".as_slice())?,
        );
        assert!(rt; x == x && !(x == y));
        Ok(())
    }

    #[test]
    fn parents(rt: HostRuntime) -> Result<(), Fail> {
        let (a, b) = (
            Path::try_from(b"/a".as_slice())?,
            Path::try_from(b"/a/b".as_slice())?,
        );
        let (c, near) = (
            Path::try_from(b"/a/b/c".as_slice())?,
            Path::try_from(b"/ab".as_slice())?,
        );
        assert!(rt; a.parent().is_none());
        let Some(over_b) = b.parent() else {
            return Err(Fail::new("/a/b has no parent"));
        };
        let Some(over_c) = c.parent() else {
            return Err(Fail::new("/a/b/c has no parent"));
        };
        assert!(rt; over_b == a && over_c == b);
        assert!(rt; b.is_child_of(&a) && c.is_child_of(&b));
        assert!(rt; !c.is_child_of(&a) && !a.is_child_of(&a));
        assert!(rt; !near.is_child_of(&a) && !a.is_child_of(&b));
        Ok(())
    }

    // Byte order is not the order of trees: `-` and `.` come before `/`.
    #[test]
    fn order(rt: HostRuntime) -> Result<(), Fail> {
        let rising = ["/a", "/a-", "/a.", "/a/b", "/a0", "/aa", "/b"];
        for (i, x) in rising.iter().enumerate() {
            for (j, y) in rising.iter().enumerate() {
                let (p, q) = (Path::try_from(x.as_bytes())?, Path::try_from(y.as_bytes())?);
                assert!(rt; p.cmp(&q).is_lt() == (i < j), "{}", *x);
                assert!(rt; (p == q) == (i == j), "{}", *x);
                assert!(rt; (p < q) == (i < j), "{}", *y);
            }
        }
        Ok(())
    }

    #[test]
    fn equal_names(rt: HostRuntime) -> Result<(), Fail> {
        let (x, y) = (
            Name::try_from(b"fx".as_slice())?,
            Name::try_from(b"fy".as_slice())?,
        );
        assert!(rt; x == x && !(x == y));
        Ok(())
    }
}
