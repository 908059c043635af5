// What bytes begin with, and how many lines end in them.
ghost use Rattle.std.specs.Prelude.{◌≡◌, ℕ, ◌+◌, ◌≤◌, false, length, take};
ghost use Rattle.std.specs.List.{prefix_len};
ghost use Rattle.lexer.specs.Bytes.{letter, plain as is_plain, line_ends as ends};
ghost use Rattle.lexer.specs.Lexing.{skipped};

// How many letters they begin with.
pub(crate) fn letters(bytes: &[u8]) -> usize
    ensures within { result ≤ length bytes.now }
    ensures value { result ≡ prefix_len letter bytes.now }
{
    bytes
        .iter()
        .take_while(|b| matches!(**b as char, 'a'..='z' | 'A'..='Z'))
        .count()
}

// How many bytes they begin with that may stand in a quoted text.
pub(crate) fn plain(bytes: &[u8]) -> usize
    ensures within { result ≤ length bytes.now }
    ensures value { result ≡ prefix_len is_plain bytes.now }
{
    bytes
        .iter()
        .take_while(|b| matches!(**b as char, ' '..='~') && !matches!(**b as char, '\'' | '\\'))
        .count()
}

// How many bytes of blanks and comments they begin with, and how many lines end in those.
pub(crate) fn blanks(bytes: &[u8]) -> (usize, usize)
    ensures within { result.0 ≤ length bytes.now }
    ensures value { (p : ℕ) → skipped false p bytes.now ≡ p + result.0 }
    ensures lines { result.1 ≡ ends (take result.0 bytes.now) }
{
    let mut comment = false;
    let mut lines = 0;
    for (i, b) in bytes.iter().enumerate() {
        match *b as char {
            '\n' => {
                lines += 1;
                comment = false;
            }
            '#' => comment = true,
            ' ' | '\t' | '\r' => {}
            _ if comment => {}
            _ => return (i, lines),
        }
    }
    (bytes.len(), lines)
}

// How many line ends.
pub(crate) fn line_ends(bytes: &[u8]) -> usize
    ensures { result ≡ ends bytes.now }
{
    bytes.iter().filter(|b| **b as char == '\n').count()
}
