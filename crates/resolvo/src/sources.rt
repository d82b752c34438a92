//! Where the clauses of a search's table come from.

ghost use Rattle.std.specs.Prelude.{◌<◌, ◌≡◌, ◌^◌, ◌++◌, ◌∷◌, [], OnErr, OnOk, length};
ghost use Rattle.resolvo.specs.Derivations.{causes_at, given_at};
ghost use Rattle.resolvo.specs.Sources.{given_as, learnt_from};

use resolver_clause_store::narrow;
use std::alloc::{AllocError, Global};
use std::marker::Model;

/// The source of a clause, as it is stored.
#[derive(Clone, Copy)]
pub enum StoredSource {
    /// It is the given clause with this number.
    Given(u32),
    /// It follows from the clauses in the list of causes with this number.
    Learnt(u32),
}

/// Where each clause of a table comes from, by its place. In contracts, they are the list of the sources.
#[derive(Drop)]
pub struct Sources {
    stored: Vec<StoredSource>,
    /// For each learnt clause, the places of the clauses that it follows from.
    causes: Vec<Vec<usize>>,
}

impl Model for Sources {
    ghost use Rattle.std.specs.Prelude.{List, All, length, map};
    ghost use Rattle.resolvo.specs.Sources.{HasCauses, Source, source_in};

    ghost Value = { List Source };

    ghost view = { λ s. map (source_in s.causes.items) s.stored.items };

    ghost invariant = { λ s. All (HasCauses (length s.causes.items)) s.stored.items };
}

impl Sources {
    /// Returns the sources of a table without clauses.
    pub fn new(alloc: Global) -> Self
        ensures { result ≡ [] }
    {
        Sources {
            stored: Vec::new(alloc),
            causes: Vec::new(alloc),
        }
    }

    /// Returns the number of clauses.
    pub fn len(&self) -> usize
        ensures { result ≡ length self.now }
    {
        self.stored.len()
    }

    /// Appends the given clause with this number. An error changes nothing.
    pub fn push_given(&mut self, number: usize) -> Result<(), AllocError>
        ensures added { OnOk result (self.new ≡ self.old ++ given_as number ∷ []) }
        ensures unchanged { OnErr result (self.new ≡ self.old) }
    {
        self.stored.push(StoredSource::Given(narrow(number)?))?;
        Ok(())
    }

    /// Appends a learnt clause, which follows from the clauses at these places. An error changes nothing.
    pub fn push_learnt(&mut self, causes: Vec<usize>) -> Result<(), AllocError>
        ensures added { OnOk result (self.new ≡ self.old ++ learnt_from causes.items ∷ []) }
        ensures few { OnOk result (length self.old < 2 ^ 63) }
        ensures unchanged { OnErr result (self.new ≡ self.old) }
    {
        let list = narrow(self.causes.len())?;
        self.causes.push(causes)?;
        self.stored.push(StoredSource::Learnt(list))?;
        Ok(())
    }

    /// Returns the number of the given clause at a place of the table, or `None` if the clause there is learnt.
    pub fn number_at(&self, place: usize) -> Option<usize>
        requires { place < length self.now }
        ensures { result ≡ given_at self.now place }
    {
        match self.stored[place] {
            StoredSource::Given(number) => Some(number as usize),
            StoredSource::Learnt(_) => None,
        }
    }

    /// Returns the places of the clauses that the clause at a place follows from, none for a given clause.
    pub fn causes_at(&self, place: usize) -> &[usize]
        requires { place < length self.now }
        ensures { result.now ≡ causes_at self.now place }
    {
        match self.stored[place] {
            StoredSource::Given(_) => &[],
            StoredSource::Learnt(list) => self.causes[list as usize].as_slice(),
        }
    }
}
