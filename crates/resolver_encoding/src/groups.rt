//! Solvables grouped by the names of their packages.

ghost use Rattle.std.specs.Prelude.{◌≡◌, ℕ, IfErr, IfOk, OnOk, Some, slice_get};
ghost use Rattle.resolver_clause_store.specs.Laws.{IsIdentity};
ghost use Rattle.resolver_clause_store.specs.Variables.{Keeps};
ghost use Rattle.resolver_encoding.specs.Groups.{AddsNamed, IsAt, IsInGroup, IsNewAt};

use indexmap::IndexSet;
use resolver_clause_store::{Exhausted, NumberedLists, append, place_of};
use std::alloc::Global;
use std::hash::Hash;
use std::marker::Model;

/// The solvables that were added under each name, in the order in which they were added.
#[derive(Drop)]
pub(crate) struct Groups<N: Copy + Eq + Hash + Drop, S: Copy + Drop> {
    names: IndexSet<N>,
    members: NumberedLists<S>,
}

impl<N: Copy + Eq + Hash + Drop, S: Copy + Drop> Model for Groups<N, S> {
    ghost use Rattle.resolver_encoding.specs.Groups.{AreSound, Groups};

    ghost Value = { Groups N S };

    ghost view = { λ g. record { names = g.names.keys; members = g.members } };

    ghost invariant = { λ g. AreSound g.names.keys g.members };
}

impl<N: Copy + Eq + Hash + Drop, S: Copy + Drop> Groups<N, S> {
    /// Returns no groups.
    pub(crate) fn new(alloc: Global) -> Self
        ensures { (n : N) (s : S) → IsInGroup result n s → ⊥ }
    {
        Groups {
            names: IndexSet::new(alloc),
            members: NumberedLists::new(alloc),
        }
    }

    /// Returns the solvables of a name.
    pub(crate) fn named(&self, name: N) -> &[S]
        requires { IsIdentity N.eq }
        ensures each { (k : ℕ) (s : S) → slice_get result.now k ≡ Some s → IsAt self.now name k s }
        ensures every { (k : ℕ) (s : S) → IsAt self.now name k s → slice_get result.now k ≡ Some s }
    {
        match place_of(&self.names, &name) {
            Some(place) => self.members.at(place),
            None => &[],
        }
    }

    /// Returns the place of a name's group, which is made if there is none.
    fn place(&mut self, name: N) -> Result<usize, Exhausted>
        requires names { IsIdentity N.eq }
        ensures named { IfOk result (λ place. slice_get self.new.names place ≡ Some name) }
        ensures keeps { OnOk result (Keeps self.old.names self.new.names) }
        ensures only { IfOk result (IsNewAt self.old self.new) }
        ensures members { self.new.members ≡ self.old.members }
        ensures memory { IfErr result (λ e. e ≡ Exhausted.Memory) }
    {
        match place_of(&self.names, &name) {
            Some(place) => Ok(place),
            None => {
                let place = self.names.len();
                append(&mut self.names, name)?;
                Ok(place)
            }
        }
    }

    /// Appends a solvable to the group of a name.
    pub(crate) fn add(&mut self, name: N, solvable: S) -> Result<(), Exhausted>
        requires { IsIdentity N.eq }
        ensures added { OnOk result (AddsNamed self.old self.new name solvable) }
        ensures memory { IfErr result (λ e. e ≡ Exhausted.Memory) }
    {
        let place = self.place(name)?;
        self.members.add(place, solvable)?;
        Ok(())
    }
}
