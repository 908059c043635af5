// The calls of a host: questions go to the log first, changes that are taken are held.
ghost use Rattle.std.specs.Prelude.{◌≡◌, length};
ghost use Rattle.changes.specs.Changes.{change_of};
ghost use Rattle.changes.specs.Logs.{changes};
ghost use Rattle.host.specs.Called.{Called};
ghost use Rattle.host.specs.Checks.{Checked};
ghost use Rattle.journal.specs.Journals.{rig_of};
ghost use Rattle.journal.specs.Stand.{held_sound};

use super::Journal;
use changes::{Change, HELD_MAX};
use host::{Allowance, Host, HostFault, Inspect, Kind, Stored};
use values::{Content, Path};

impl<B: Inspect> Journal<B> {
    // How many changes are held.
    pub fn held(&self) -> u16
        ensures { result ≡ length (changes self.now.log) }
    {
        self.log.len()
    }

    // Whether a change would be taken.
    fn check(&self, c: Change) -> Result<(), HostFault>
        ensures { Checked (change_of c) (rig_of B.means self.now) result }
    {
        match c {
            Change::Mkdir(p) | Change::Creat(p, _) => self.may_make(&p),
            Change::Rm(p) => self.may_remove(&p),
        }
    }

    // Takes a change; the host below is left as it is.
    #[tactic(auto, using(crate::specs::Stand::held_few, crate::specs::Stand::takes_more, crate::specs::Stand::called_more))]
    pub fn change(&mut self, c: Change) -> Result<(), HostFault>
        ensures below { self.new.below ≡ self.old.below }
        ensures called { Called (change_of c) (rig_of B.means self.old) result (rig_of B.means self.new) }
    {
        self.check(c)?;
        let _ = self.log.push(c);
        Ok(())
    }
}

impl<B: Inspect> Inspect for Journal<B> {
    ghost means = { rig_of B.means };

    ghost sound = { λ j. held_sound j.log (B.means j.below) (B.sound j.below) j.stands };

    fn look(&self, p: &Path) -> Kind {
        match self.log.latest(p) {
            Some(c) => c.kind(),
            None => self.below.look(p),
        }
    }

    fn holds(&self, p: &Path, c: &Content) -> bool {
        match self.log.latest(p) {
            Some(last) => last.holds(c),
            None => self.below.holds(p, c),
        }
    }

    #[tactic(auto, using(crate::specs::Stand::children_held, crate::specs::Stand::few_children))]
    fn children(&self, p: &Path) -> u16 {
        let m = self.log.moves(Some(*p));
        self.below
            .children(p)
            .saturating_add(m.made)
            .saturating_sub(m.gone)
    }

    #[tactic(auto, using(crate::specs::Stand::nodes_held))]
    fn free(&self) -> u16 {
        let m = self.log.moves(None);
        self.below
            .free()
            .saturating_add(m.gone)
            .saturating_sub(m.made)
    }

    fn allowance(&self) -> Allowance {
        self.below
            .allowance()
            .min(HELD_MAX)
            .saturating_sub(self.log.len())
    }
}

impl<B: Inspect> Host for Journal<B> {
    fn make(&mut self, p: &Path, node: Stored) -> Result<(), HostFault> {
        self.change(match node {
            Stored::Directory => Change::Mkdir(*p),
            Stored::File(c) => Change::Creat(*p, c),
        })
    }

    fn rm(&mut self, p: &Path) -> Result<(), HostFault> {
        self.change(Change::Rm(*p))
    }
}
