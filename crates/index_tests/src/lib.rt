// Indexes at every bound and refusal.
#![tactic(auto)]

#[cfg(test)]
mod tests {
    use faults::Numbered;
    use index::{Entry, Index, IndexError};
    use std::alloc::{AllocError, Global};
    use std::test::Fail;
    use values::Name;

    // A want of memory, which has no number.
    const MEMORY: u8 = 255;

    // Adds the bytes before a body of this many bytes.
    fn put_lead(bytes: &mut Vec<u8>, size: usize, kind: u8) -> Result<(), AllocError> {
        let [low, high] = ((size % 65536) as u16).to_le_bytes();
        bytes.extend_from_slice(&[low, high, kind, 0])
    }

    // Adds a record.
    fn put(bytes: &mut Vec<u8>, kind: u8, body: &[u8]) -> Result<(), AllocError> {
        put_lead(bytes, body.len(), kind)?;
        bytes.extend_from_slice(body)
    }

    // Adds a file's record.
    fn put_file(bytes: &mut Vec<u8>, path: &[u8], content: &[u8]) -> Result<(), AllocError> {
        put_lead(bytes, path.len() + content.len() + 1, 3)?;
        bytes.extend_from_slice(&[(path.len() % 256) as u8])?;
        bytes.extend_from_slice(path)?;
        bytes.extend_from_slice(content)
    }

    // Adds the record that a word stands for: the digit of its kind, and its body; a file's content stands behind `=`.
    fn put_word(bytes: &mut Vec<u8>, word: &[u8]) -> Result<(), AllocError> {
        let [kind, body @ ..] = word else {
            return Ok(());
        };
        match body.iter().position(|b| *b == b'=') {
            Some(i) => put_file(bytes, &body[..i], &body[i + 1..]),
            None => put(bytes, kind.wrapping_sub(b'0'), body),
        }
    }

    // The records of a row of words.
    fn spelled(heap: Global, words: &str) -> Result<Vec<u8>, AllocError> {
        let mut bytes = Vec::new(heap);
        for word in words.split(' ') {
            put_word(&mut bytes, word.as_bytes())?;
        }
        Ok(bytes)
    }

    // The number of packages where the bytes are read, behind a 0; else the number of the refusal and its place.
    fn verdict(heap: Global, bytes: &[u8]) -> (u8, usize) {
        match Index::read(heap, bytes) {
            Ok(index) => (0, index.len()),
            Err(IndexError::Fault(fault)) => (fault.number(), fault.at),
            Err(IndexError::Memory) => (MEMORY, 0),
        }
    }

    #[test]
    fn words(rt: HostRuntime) -> Result<(), Fail> {
        let cases = [
            ("", 0, 0),
            ("1fx", 0, 1),
            ("1fx 2/opt 3/opt/fx=hi", 0, 1),
            ("1fx 1lut", 0, 2),
            // no such kind
            ("0fx", 5, 0),
            ("4fx", 5, 0),
            ("1fx 4", 5, 6),
            // before any package
            ("2/opt", 6, 0),
            ("3/opt=hi 1fx", 6, 0),
            // names and paths
            ("1", 7, 0),
            ("1/fx", 7, 0),
            ("1fx 1..", 7, 6),
            ("1fx 2opt", 7, 6),
            ("1fx 2/opt/", 7, 6),
            ("1fx 3opt=hi", 7, 6),
            ("1fx 3=hi", 7, 6),
            // `/pkg` and below
            ("1fx 2/pkg", 7, 6),
            ("1fx 2/pkg/x", 7, 6),
            ("1fx 3/pkg=", 7, 6),
            ("1fx 3/pkg/x=", 7, 6),
            ("1fx 2/pkgs", 0, 1),
            ("1fx 3/pkgs=", 0, 1),
            ("1fx 2/a/pkg", 0, 1),
            // came before
            ("1fx 1fx", 10, 6),
            ("1fx 2/a 1lut 2/b 1fx", 10, 25),
            ("1fx 2/a 2/a", 10, 12),
            ("1fx 2/a 3/a=", 10, 12),
            ("1fx 3/a=x 2/a", 10, 14),
            ("1fx 2/a 1lut 2/a", 0, 2),
            // two faults in one record: the lower number
            ("4", 5, 0),
            ("2/pkg", 6, 0),
            ("1fx 2/a 1/fx", 7, 12),
            // two faults in two records: the first
            ("1fx 2/pkg 4", 7, 6),
            ("1fx 4 2/pkg", 5, 6),
        ];
        for (words, number, place) in cases {
            let bytes = spelled(rt.alloc(), words)?;
            assert_eq!(rt; verdict(rt.alloc(), &bytes), (number, place), "{}", words);
        }
        Ok(())
    }

    // Bytes that are cut off, and lengths that pass the end.
    #[test]
    fn ends(rt: HostRuntime) {
        let cases = [
            (&b"\x02"[..], 4, 0),
            (&b"\x02\x00\x01"[..], 4, 0),
            (&b"\x02\x00\x01\x00"[..], 4, 0),
            (&b"\x02\x00\x01\x00f"[..], 4, 0),
            (&b"\x02\x00\x01\x00fx"[..], 0, 1),
            (&b"\x02\x00\x01\x00fx\x00"[..], 4, 6),
            (&b"\x02\x00\x01\x00fx\x00\x00\x01"[..], 4, 6),
            // whole, but a name is not empty
            (&b"\x02\x00\x01\x00fx\x00\x00\x01\x00"[..], 7, 6),
            // a length that passes the end by one comes before any other fault
            (&b"\x03\x00\x09\x00fx"[..], 4, 0),
            (&b"\x02\x00\x09\x00fx"[..], 5, 0),
            // the low byte first
            (&b"\x00\x02\x01\x00fx"[..], 4, 0),
            (&b"\x02\x00\x00\x01fx"[..], 5, 0),
            (&b"\x02\x00\x01\x01fx"[..], 5, 0),
        ];
        for (i, (bytes, number, place)) in cases.iter().enumerate() {
            assert_eq!(rt; verdict(rt.alloc(), *bytes), (*number, *place), "{}", i);
        }
    }

    // A file's body behind a package: no length byte, a path that just fits, and one that passes the body.
    #[test]
    fn file_bodies(rt: HostRuntime) -> Result<(), Fail> {
        let cases = [
            (&b""[..], 7, 5),
            (&b"\x00"[..], 7, 5),
            (&b"\x02"[..], 7, 5),
            (&b"\x02/a"[..], 0, 1),
            (&b"\x03/a"[..], 7, 5),
            (&b"\xff/a"[..], 7, 5),
            (&b"\x02/ab"[..], 0, 1),
            (&b"\x03/ab"[..], 0, 1),
            (&b"\x01/ab"[..], 7, 5),
        ];
        for (i, (body, number, place)) in cases.iter().enumerate() {
            let mut bytes = spelled(rt.alloc(), "1f")?;
            put(&mut bytes, 3, *body)?;
            assert_eq!(rt; verdict(rt.alloc(), &bytes), (*number, *place), "{}", i);
        }
        Ok(())
    }

    // Contents of 64 and 65 bytes; a bad path or `/pkg` comes before a long content.
    #[test]
    fn contents(rt: HostRuntime) -> Result<(), Fail> {
        let content = [0xffu8; 65];
        let cases = [
            ("/a", 64, 0, 1),
            ("/a", 65, 8, 5),
            ("/pkg", 65, 7, 5),
            ("a", 65, 7, 5),
        ];
        for (path, n, number, place) in cases {
            assert!(rt; n <= content.len());
            let mut bytes = spelled(rt.alloc(), "1f")?;
            put_file(&mut bytes, path.as_bytes(), &content[0..n])?;
            assert_eq!(rt; verdict(rt.alloc(), &bytes), (number, place), "{}", n);
        }
        Ok(())
    }

    // A package and so many entries, each at a path of its own.
    fn put_package(bytes: &mut Vec<u8>, name: &[u8], entries: u8) -> Result<(), AllocError> {
        put(bytes, 1, name)?;
        for i in 0..entries {
            let path = [b'/', b'a'.wrapping_add(i)];
            if i % 2 == 0 {
                put(bytes, 2, &path)?;
            } else {
                put_file(bytes, &path, name)?;
            }
        }
        Ok(())
    }

    // So many packages of so many entries.
    fn filled(heap: Global, packages: u8, entries: u8) -> Result<Vec<u8>, AllocError> {
        let mut bytes = Vec::new(heap);
        for i in 0..packages {
            put_package(&mut bytes, &[b'a'.wrapping_add(i)], entries)?;
        }
        Ok(bytes)
    }

    // The most packages and entries, and one more of each; one more that came before has the lower number.
    #[test]
    fn most_packages_and_entries(rt: HostRuntime) -> Result<(), Fail> {
        let cases = [
            (8, 16, "", 0, 8),
            (9, 0, "", 9, 40),
            (8, 0, "1a", 9, 40),
            (1, 17, "", 9, 117),
            (8, 17, "", 9, 117),
            (1, 16, "2/a", 9, 117),
            (7, 16, "1a", 10, 819),
            (1, 15, "2/a", 10, 109),
        ];
        for (packages, entries, more, number, place) in cases {
            let mut bytes = filled(rt.alloc(), packages, entries)?;
            put_word(&mut bytes, more.as_bytes())?;
            assert_eq!(rt; verdict(rt.alloc(), &bytes), (number, place), "{}", place);
        }
        Ok(())
    }

    // 16,384 bytes are looked at, 16,385 are not.
    #[test]
    fn most_bytes(rt: HostRuntime) -> Result<(), Fail> {
        let heap = rt.alloc();
        let mut bytes = vec![in heap; 0; 16384]?;
        assert_eq!(rt; verdict(heap, &bytes), (5, 0));
        bytes.push(0)?;
        assert_eq!(rt; verdict(heap, &bytes), (3, 0));
        Ok(())
    }

    // What the entries of a package are, as words.
    fn shown(heap: Global, entries: &[Entry]) -> Result<Vec<u8>, AllocError> {
        let mut text = Vec::new(heap);
        for entry in entries {
            match entry {
                Entry::Directory(path) => text.extend_from_slice(path.as_bytes())?,
                Entry::File(path, content) => {
                    text.extend_from_slice(path.as_bytes())?;
                    text.push(b'=')?;
                    text.extend_from_slice(content.as_bytes())?;
                }
            }
            text.push(b' ')?;
        }
        Ok(text)
    }

    // Where a name stands in an index, with the package's name and entries.
    fn looked_up(
        heap: Global,
        index: &Index,
        name: &str,
    ) -> Result<(Option<usize>, Vec<u8>), Fail> {
        let name = Name::try_from(name.as_bytes())?;
        let mut text = Vec::new(heap);
        if let Some(found) = index.package(&name) {
            text.extend_from_slice(found.name().as_bytes())?;
            text.push(b' ')?;
            text.extend_from_slice(&shown(heap, found.entries())?)?;
        }
        Ok((index.position(&name), text))
    }

    #[test]
    fn look_ups(rt: HostRuntime) -> Result<(), Fail> {
        let bytes = spelled(rt.alloc(), "1fx 2/opt 3/opt/fx=one 1lut 1mix 3/b= 2/a")?;
        let index = Index::read(rt.alloc(), &bytes)?;
        assert!(rt; index.len() == 3 && index.packages().len() == 3);
        let cases = [
            ("fx", Some(0), "fx /opt /opt/fx=one "),
            ("lut", Some(1), "lut "),
            ("mix", Some(2), "mix /b= /a "),
            ("f", None, ""),
            ("fxx", None, ""),
        ];
        for (name, position, text) in cases {
            let (at, found) = looked_up(rt.alloc(), &index, name)?;
            assert!(rt;
                at == position && found.as_slice() == text.as_bytes(),
                "{}",
                name
            );
        }
        Ok(())
    }
}
