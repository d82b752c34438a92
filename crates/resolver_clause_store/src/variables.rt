//! The variables and their origins.

ghost use Rattle.std.specs.Prelude.{Contains, ◌≡◌, ◌<◌, ◌≤◌, ◌^◌, ◌⊎◌, [], ◌∷◌, ◌++◌, Some, IfErr, IfOk, OnErr, length, slice_get, take};
ghost use Rattle.resolver_clause_store.specs.Laws.{IsIdentity};

use crate::data::Exhausted;
use crate::index_sets::{append, place_of};
use crate::kinds::Origin;
use crate::literals::Variable;
use indexmap::IndexSet;
use std::alloc::Global;
use std::hash::Hash;
use std::marker::Model;

/// The origin of each variable, by number. No two variables have the same origin.
#[derive(Drop)]
pub struct Variables<N: Copy + Eq + Hash + Drop, S: Copy + Eq + Hash + Drop> {
    origins: IndexSet<Origin<N, S>>,
    limit: usize,
}

impl<N: Copy + Eq + Hash + Drop, S: Copy + Eq + Hash + Drop> Model for Variables<N, S> {
    ghost use Rattle.std.specs.Prelude.{◌≤◌, ◌^◌, length};
    ghost use Rattle.resolver_clause_store.specs.KnownVariables.{KnownVariables};

    ghost Value = { KnownVariables N S };

    ghost view = { λ v. record { origins = v.origins.keys; limit = v.limit } };

    ghost invariant = { λ v. (length v.origins.keys ≤ v.limit) × (v.limit ≤ 2 ^ 31) };
}

impl<N: Copy + Eq + Hash + Drop, S: Copy + Eq + Hash + Drop> Variables<N, S> {
    ghost use Rattle.resolver_clause_store.specs.Variables.{AreDistinct, AreFull, Keeps, limit_in, origins_in};

    /// Creates an empty table. The limit is at most 2147483648.
    pub fn new(alloc: Global, limit: usize) -> Self
        requires { limit ≤ 2 ^ 31 }
        ensures none { origins_in result ≡ [] }
        ensures limit { limit_in result ≡ limit }
    {
        Variables {
            origins: IndexSet::new(alloc),
            limit,
        }
    }

    /// A law: there are no more variables than the limit allows.
    pub fn are_within_limit(&self)
        ensures { length (origins_in self.now) ≤ limit_in self.now }
    {
        let _ = &self.origins;
    }

    /// Returns the number of variables.
    pub fn len(&self) -> usize
        ensures { result ≡ length (origins_in self.now) }
    {
        self.origins.len()
    }

    /// Returns the origin of a variable, or `None` if there is no such variable.
    pub fn origin(&self, variable: Variable) -> Option<Origin<N, S>>
        ensures { result ≡ slice_get (origins_in self.now) variable }
    {
        self.origins.get_index(variable.index()).copied()
    }

    /// Removes all variables but the first `length` ones.
    pub fn truncate(&mut self, length: usize)
        ensures origins { origins_in self.new ≡ take length (origins_in self.old) }
        ensures limit { limit_in self.new ≡ limit_in self.old }
    {
        self.origins.truncate(length);
    }

    /// Returns the variable of an origin, and creates it if it does not exist yet.
    ///
    /// The error is `Ids` if a new variable is needed and there are as many as the limit allows. An error changes
    /// nothing.
    #[inline(always)]
    pub fn intern(&mut self, origin: Origin<N, S>) -> Result<Variable, Exhausted>
        requires names { IsIdentity N.eq }
        requires solvables { IsIdentity S.eq }
        ensures kept { Keeps (origins_in self.old) (origins_in self.new) }
        ensures here { IfOk result (λ v. slice_get (origins_in self.new) v ≡ Some origin) }
        ensures limit { limit_in self.new ≡ limit_in self.old }
        ensures distinct { AreDistinct (origins_in self.old) → AreDistinct (origins_in self.new) }
        ensures added { (origins_in self.new ≡ origins_in self.old) ⊎ (origins_in self.new ≡ origins_in self.old ++ origin ∷ []) }
        ensures unchanged { OnErr result (origins_in self.new ≡ origins_in self.old) }
        ensures ids { IfErr result (λ e. e ≡ Exhausted.Ids → AreFull self.new) }
    {
        match place_of(&self.origins, &origin) {
            Some(index) => Ok(Variable::new(index as u32)),
            None => self.allocate(origin),
        }
    }

    /// Creates a variable.
    fn allocate(&mut self, origin: Origin<N, S>) -> Result<Variable, Exhausted>
        requires names { IsIdentity N.eq }
        requires solvables { IsIdentity S.eq }
        requires absent { Contains (origins_in self.old) origin → ⊥ }
        ensures kept { Keeps (origins_in self.old) (origins_in self.new) }
        ensures here { IfOk result (λ v. slice_get (origins_in self.new) v ≡ Some origin) }
        ensures limit { limit_in self.new ≡ limit_in self.old }
        ensures distinct { AreDistinct (origins_in self.old) → AreDistinct (origins_in self.new) }
        ensures added { (origins_in self.new ≡ origins_in self.old) ⊎ (origins_in self.new ≡ origins_in self.old ++ origin ∷ []) }
        ensures unchanged { OnErr result (origins_in self.new ≡ origins_in self.old) }
        ensures ids { IfErr result (λ e. e ≡ Exhausted.Ids → AreFull self.new) }
    {
        let index = self.origins.len();
        if index == self.limit {
            return Err(Exhausted::Ids);
        }
        append(&mut self.origins, origin)?;
        Ok(Variable::new(index as u32))
    }
}
