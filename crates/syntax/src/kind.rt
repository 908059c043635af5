ghost use Rattle.std.specs.Prelude.{◌≡◌};
ghost use Rattle.syntax.specs.Kinds.{spelling, kind_by, declared_kind, referred_kind};

// The kinds of resources.
#[derive(Clone, Copy, PartialEq, Eq, Debug)]
pub enum Kind {
    File,
    Package,
    Service,
}

// The kind whose word this is, of the words of the three kinds.
#[tactic(auto, using(crate::proofs::Words::same_pointwise), unfolding(crate::specs::Kinds::kind_by))]
fn spelled(word: &[u8], of_file: &[u8], of_package: &[u8], of_service: &[u8]) -> Option<Kind>
    ensures { result ≡ kind_by (spelling of_file.now of_package.now of_service.now) word.now }
{
    if word == of_file {
        Some(Kind::File)
    } else if word == of_package {
        Some(Kind::Package)
    } else if word == of_service {
        Some(Kind::Service)
    } else {
        None
    }
}

impl Kind {
    // The kind that a declaration begins with.
    pub fn declared(word: &[u8]) -> Option<Kind>
        ensures { result ≡ declared_kind word.now }
    {
        spelled(word, b"file", b"package", b"service")
    }

    // The kind that a reference begins with.
    pub fn referred(word: &[u8]) -> Option<Kind>
        ensures { result ≡ referred_kind word.now }
    {
        spelled(word, b"File", b"Package", b"Service")
    }
}
