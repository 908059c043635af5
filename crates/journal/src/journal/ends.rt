// How a journal begins and ends.
ghost use Rattle.std.specs.Prelude.{◌≡◌, [], map, MatchResult};
ghost use Rattle.fs.specs.Change.{calls, after_all};
ghost use Rattle.fs.specs.Rig.{Rig, taken};
ghost use Rattle.changes.specs.Changes.{change_of};
ghost use Rattle.changes.specs.Logs.{changes};
ghost use Rattle.host.specs.Called.{Called};

use super::Journal;
use changes::{Change, Log};
use host::{Host, HostFault, Inspect};
use std::alloc::Global;

// Makes a change on a host.
fn make<B: Host>(b: &mut B, c: Change) -> Result<(), HostFault>
    ensures { Called (change_of c) (B.means b.old) result (B.means b.new) }
{
    match c.leaves() {
        Some(node) => b.make(&c.path(), node),
        None => b.rm(&c.path()),
    }
}

// Makes changes on a host, in their order: none is refused where all are taken.
fn make_all<B: Host>(b: &mut B, all: &[Change])
    ensures { (h : Rig) → calls (map change_of all.now) (B.means b.old) ≡ taken h → B.means b.new ≡ h }
{
    for c in all {
        let _ = make(b, *c);
    }
}

impl<B: Inspect> Journal<B> {
    // A journal that holds nothing, or the host again where there is no memory.
    pub fn open(heap: Global, below: B) -> Result<Journal<B>, B>
        ensures { MatchResult result (λ j. (j.below ≡ below) × (changes j.log ≡ [])) (λ b. b ≡ below) }
    {
        match Log::open(heap) {
            Ok(log) => Ok(Journal { below, log }),
            Err(_) => Err(below),
        }
    }

    // The host below; what is held is let go.
    pub fn into_below(self) -> B
        ensures { result ≡ self.below }
    {
        self.below
    }

    // Lets go of the held changes.
    pub fn discard(&mut self)
        ensures below { self.new.below ≡ self.old.below }
        ensures empty { changes self.new.log ≡ [] }
    {
        self.log.clear();
    }
}

impl<B: Host> Journal<B> {
    // Makes the held changes below, in their order: none is refused, since each was taken in its turn.
    #[tactic(auto, using(crate::specs::Stand::taken_below))]
    pub fn commit(&mut self)
        ensures empty { changes self.new.log ≡ [] }
        ensures made { B.means self.new.below ≡ after_all (changes self.old.log) (B.means self.old.below) }
    {
        make_all(&mut self.below, self.log.as_slice());
        self.log.clear();
    }
}
