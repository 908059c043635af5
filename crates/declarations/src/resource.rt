ghost use Rattle.std.specs.Prelude.{◌≡◌, IfOk};
ghost use Rattle.grammar.specs.Declarations.{title_check};
ghost use Rattle.declarations.specs.Meanings.{Tells, subject_kind, subject_title};

use syntax::{Ground, Kind};
use values::{Content, Name, Path};

// What a declaration asks for.
#[derive(Clone, Copy)]
pub enum Resource {
    Put(Path, Content),
    Directory(Path),
    Absent(Path),
    Package(Name),
    Service(Name),
}

// A kind with a title that keeps its rule.
#[derive(Clone, Copy)]
pub(crate) enum Subject {
    File(Path),
    Package(Name),
    Service(Name),
}

impl Subject {
    pub(crate) fn parse(kind: Kind, title: &[u8]) -> Result<Subject, Ground>
        ensures tells { Tells subject_title (title_check kind title.now) result }
        ensures kinded { IfOk result (λ s. subject_kind s ≡ kind) }
    {
        match kind {
            Kind::File => Ok(Subject::File(Path::try_from(title)?)),
            Kind::Package => Ok(Subject::Package(Name::try_from(title)?)),
            Kind::Service => Ok(Subject::Service(Name::try_from(title)?)),
        }
    }
}
