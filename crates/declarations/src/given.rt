// The attributes of one declaration.
#![tactic(auto, using(syntax::proofs::Words::same_pointwise), unfolding(grammar::specs::Declarations::named, grammar::specs::Declarations::wanted))]

ghost use Rattle.std.specs.Prelude.{◌≡◌, IfOk};
ghost use Rattle.std.specs.Option.{option_map};
ghost use Rattle.syntax.specs.Parts.{value_means};
ghost use Rattle.syntax.specs.declared.kind.Kind.TheVariants.{File as AFile};
ghost use Rattle.grammar.specs.Declarations.{named as name_of, wanted as want_of, with_value, made_of};
ghost use Rattle.declarations.specs.Meanings.{Tells, resource_of, subject_kind, subject_title, given_of};

use crate::resource::{Resource, Subject};
use syntax::{Attribute, Ground, Value, Want};
use values::Content;

// What is declared, and its attributes so far.
#[derive(Clone, Copy)]
pub(crate) struct Given {
    pub subject: Subject,
    pub ensure: Option<Want>,
    pub content: Option<Content>,
}

fn wanted_of_file(word: &[u8]) -> Option<Want>
    ensures { result ≡ want_of AFile word.now }
{
    if word == b"file".as_slice() {
        Some(Want::File)
    } else if word == b"directory".as_slice() {
        Some(Want::Directory)
    } else if word == b"absent".as_slice() {
        Some(Want::Absent)
    } else {
        None
    }
}

impl Given {
    // An attribute that the kind has, and that was not given yet.
    pub(crate) fn named(self, word: &[u8]) -> Option<Attribute>
        ensures { result ≡ name_of (subject_kind self.subject) (given_of self) word.now }
    {
        if word == b"ensure".as_slice() {
            self.ensure.is_none().then_some(Attribute::Ensure)
        } else if matches!(self.subject, Subject::File(_)) && word == b"content".as_slice() {
            self.content.is_none().then_some(Attribute::Content)
        } else {
            None
        }
    }

    // What `ensure` may be for the kind.
    fn wanted(self, word: &[u8]) -> Option<Want>
        ensures { result ≡ want_of (subject_kind self.subject) word.now }
    {
        match self.subject {
            Subject::File(_) => wanted_of_file(word),
            Subject::Package(_) => (word == b"present".as_slice()).then_some(Want::Present),
            Subject::Service(_) => (word == b"running".as_slice()).then_some(Want::Running),
        }
    }

    // One attribute more, if its value is allowed.
    pub(crate) fn with(self, attribute: Attribute, value: Value<'_>) -> Result<Given, Ground>
        ensures tells { Tells given_of (with_value (subject_kind self.subject) (given_of self) attribute (value_means value.entry)) result }
        ensures kept { IfOk result (λ g. g.subject ≡ self.subject) }
    {
        match (attribute, value) {
            (Attribute::Ensure, Value::Word(word)) => {
                let ensure = self.wanted(word).ok_or(Ground::NotAllowed)?;
                Ok(Given {
                    ensure: Some(ensure),
                    ..self
                })
            }
            (Attribute::Content, Value::Quoted(bytes)) => {
                let content = Content::try_from(bytes)?;
                Ok(Given {
                    content: Some(content),
                    ..self
                })
            }
            _ => Err(Ground::NotAllowed),
        }
    }

    // The resource of the subject with these attributes: a content stands with `ensure => file` and with no other.
    pub(crate) fn resource(self) -> Option<Resource>
        ensures { option_map resource_of result ≡ made_of (subject_kind self.subject) (subject_title self.subject) (given_of self).ensure (given_of self).content }
    {
        match (self.subject, self.ensure?, self.content) {
            (Subject::File(path), Want::File, Some(content)) => Some(Resource::Put(path, content)),
            (Subject::File(path), Want::Directory, None) => Some(Resource::Directory(path)),
            (Subject::File(path), Want::Absent, None) => Some(Resource::Absent(path)),
            (Subject::Package(name), Want::Present, None) => Some(Resource::Package(name)),
            (Subject::Service(name), Want::Running, None) => Some(Resource::Service(name)),
            _ => None,
        }
    }
}
