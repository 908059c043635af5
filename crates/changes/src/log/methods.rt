ghost use Rattle.std.specs.Prelude.{◌≡◌, ℕ, ◌<◌, ◌≤◌, [], ◌∷◌, ◌++◌, map, length, IfOk, MatchOption, MatchResult, slice_index_or};
ghost use Rattle.values.specs.Texts.{path_text};
ghost use Rattle.fs.specs.Change.{made as made_on, altered, leaves};
ghost use Rattle.fs.specs.Tree.{Tree, at};
ghost use Rattle.changes.specs.Changes.{change_of};
ghost use Rattle.changes.specs.Counts.{births, deaths};
ghost use Rattle.changes.specs.Logs.{changes, under};

use super::{HELD_MAX, Log, LogFull, Moves};
use crate::change::Change;
use std::alloc::{AllocError, Global};
use values::Path;

// Whether the change lies right below a path, or anywhere where none is given.
fn lies_below(c: Change, above: Option<Path>) -> bool
    ensures { result ≡ under above (altered (change_of c)) }
{
    above.is_none_or(|q| c.lies_in(&q))
}

impl Log {
    // An empty log, with room for all changes that it may hold.
    pub fn open(heap: Global) -> Result<Log, AllocError>
        ensures { IfOk result (λ l. changes l ≡ []) }
    {
        let held = Vec::with_capacity(heap, HELD_MAX as usize)?;
        Ok(Log { held })
    }

    pub fn len(&self) -> u16
        ensures { (result ≡ length (changes self.now)) × (result ≤ 384) }
    {
        self.held.len() as u16
    }

    // The change at place `i`, from the oldest on.
    pub fn get(&self, i: u16) -> Option<Change>
        ensures { MatchOption result (length (changes self.now) ≤ i) (λ c. (i < length (changes self.now)) × (change_of c ≡ slice_index_or (changes self.now) i (change_of c))) }
    {
        self.held.get(i as usize).copied()
    }

    // The changes, from the oldest on.
    pub fn as_slice(&self) -> &[Change]
        ensures { map change_of result.now ≡ changes self.now }
    {
        self.held.as_slice()
    }

    // The latest change at the path: what it leaves stands there.
    pub fn latest(&self, p: &Path) -> Option<Change>
        ensures { MatchOption result ((t : Tree) → at (made_on (changes self.now) t) (path_text p.now) ≡ at t (path_text p.now)) (λ c. (t : Tree) → at (made_on (changes self.now) t) (path_text p.now) ≡ leaves (change_of c)) }
    {
        self.held.iter().rev().find(|c| *p == c.path()).copied()
    }

    // The nodes that are made and removed, right below a path or anywhere.
    pub fn moves(&self, above: Option<Path>) -> Moves
        ensures { (result.made ≡ births (under above) (changes self.now)) × (result.gone ≡ deaths (under above) (changes self.now)) × (result.made ≤ 384) × (result.gone ≤ 384) }
    {
        let mut made = 0;
        let mut gone = 0;
        for c in &self.held {
            if lies_below(*c, above) {
                if c.makes() {
                    made += 1;
                } else {
                    gone += 1;
                }
            }
        }
        Moves { made, gone }
    }

    // Holds one change more, or does nothing where it holds as many as it can.
    pub fn push(&mut self, c: Change) -> Result<(), LogFull>
        ensures { MatchResult result (λ _. (length (changes self.old) < 384) × (changes self.new ≡ changes self.old ++ change_of c ∷ [])) (λ _. (384 ≤ length (changes self.old)) × (changes self.new ≡ changes self.old)) }
    {
        if self.held.len() >= HELD_MAX as usize {
            return Err(LogFull);
        }
        self.held.push_reserved(c);
        Ok(())
    }

    pub fn clear(&mut self)
        ensures { changes self.new ≡ [] }
    {
        self.held.clear();
    }
}
