// The rules of names and paths, as tests of bytes.
ghost use Rattle.std.specs.Prelude.{◌≡◌, ℕ, ◌<◌, ◌≤◌, length};
ghost use Rattle.fs.specs.Tree.{parent};
ghost use Rattle.values.specs.Rules.{all, name_byte, is_name, is_path};

const SLASH: u8 = b'/';

pub(crate) const NAME_MAX: usize = 16;

const PATH_MIN: usize = 2;

pub(crate) const PATH_MAX: usize = 48;

fn name_byte(b: u8) -> bool
    ensures { result ≡ name_byte b }
{
    matches!(b, b'a'..=b'z' | b'0'..=b'9' | b'.' | b'_' | b'-')
}

fn all_name_bytes(c: &[u8]) -> bool
    ensures { result ≡ all name_byte c.now }
{
    c.iter().all(|b| name_byte(*b))
}

// One component of a path.
pub(crate) fn is_name(c: &[u8]) -> bool
    ensures { result ≡ is_name c.now }
{
    !c.is_empty()
        && c.len() <= NAME_MAX
        && c != b".".as_slice()
        && c != b"..".as_slice()
        && all_name_bytes(c)
}

// Lengths, first byte, last byte, and then the components in turn.
pub(crate) fn is_path(s: &[u8]) -> bool
    ensures { result ≡ is_path s.now }
{
    let n = s.len();
    if n < PATH_MIN || n > PATH_MAX || s[0] != SLASH || s[n - 1] == SLASH {
        return false;
    }
    s[1..].split(|b| *b == SLASH).all(is_name)
}

// The bytes before the last slash.
pub(crate) fn parent_bytes(s: &[u8]) -> &[u8]
    ensures { result.now ≡ parent s.now }
{
    match s.iter().rposition(|b| *b == SLASH) {
        Some(i) => &s[..i],
        None => &s[..0],
    }
}
