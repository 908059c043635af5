ghost use Rattle.std.specs.Prelude.{◌≡◌};
ghost use Rattle.index.specs.Reading.{admission};

use records::Ground;

// Whether there may be one more behind `len` others, which is one of them or not.
pub(crate) fn admit(most: usize, len: usize, repeated: bool) -> Result<(), Ground>
    ensures { result ≡ admission most len repeated }
{
    if len >= most {
        return Err(Ground::TooMany);
    }
    if repeated {
        return Err(Ground::Repeated);
    }
    Ok(())
}
