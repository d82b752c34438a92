//! The clauses of everything that was read.

ghost use Rattle.std.specs.Prelude.{◌≡◌, ◌<◌, ◌≤◌, ◌^◌, [], All, IfErr, IfOk, OnOk, length, map};
ghost use Rattle.resolver_clause_store.specs.Caches.{IsTrueCache};
ghost use Rattle.resolver_clause_store.specs.Interruptions.{IsInterruption};
ghost use Rattle.resolver_clause_store.specs.Laws.{IsIdentity};
ghost use Rattle.resolver_clause_store.specs.Universe.{Universe};
ghost use Rattle.resolver_clause_store.specs.Variables.{origins_in};
ghost use Rattle.resolver_encoding.specs.Atoms.{wanted};
ghost use Rattle.resolver_encoding.specs.Core.{ListsOnlyRulesOf, ListsRulesOf};
ghost use Rattle.resolver_encoding.specs.Encodings.{AddsKind, IsFull, IsUnread};
ghost use Rattle.resolver_encoding.specs.Refusals.{IsShortage};
ghost use Rattle.resolver_encoding.specs.Values.{kinds_at, requirement_numbers};

mod candidates;
mod constraints;
mod deferred;
mod gates;
mod helpers;
mod hints;
mod packages;
mod reading;
mod requirements;
mod turns;

use crate::choices::Choices;
use crate::disjuncts::Entry;
use crate::explain::rules_of_clauses;
use crate::groups::Groups;
use crate::table::ClauseTable;
use indexmap::IndexSet;
use resolver_clause_store::{
    Cache, ClauseKind, Clauses, DependencyProvider, Exhausted, Interrupted, Requirement,
    RequirementClause, Rule, UnionEnds, Variables, VersionSetId,
};
use std::alloc::Global;
use std::hash::Hash;

/// The clauses of everything that was read, and the variables with their origins.
#[derive(Drop)]
pub struct Encoding<N: Copy + Eq + Hash + Drop, S: Copy + Eq + Hash + Drop> {
    alloc: Global,
    /// The provider's answers.
    pub cache: Cache<N, S>,
    table: ClauseTable<N, S>,
    seen: IndexSet<S>,
    groups: Groups<N, S>,
    asked: IndexSet<N>,
    helped: IndexSet<VersionSetId>,
    gates: IndexSet<Requirement>,
    constrained: IndexSet<VersionSetId>,
    read: IndexSet<S>,
    deferred: Vec<Option<Entry<S>>>,
    deferred_by_name: Groups<N, usize>,
    exempt: IndexSet<S>,
}

impl<N: Copy + Eq + Hash + Drop, S: Copy + Eq + Hash + Drop> Encoding<N, S> {
    ghost use Rattle.resolver_encoding.specs.Notes.{KeepsRoom, KeepsTrue, cache_in, notes_in, union_ends_in};

    /// Returns an encoding that has read nothing, with limits on the numbers of its variables and clauses. It adds a
    /// provider's answers to the cache.
    pub fn new(
        alloc: Global,
        cache: Cache<N, S>,
        variable_limit: usize,
        clause_limit: usize,
    ) -> Self
        requires { variable_limit ≤ 2 ^ 31 }
        ensures nothing_read { IsUnread (notes_in result) }
        ensures none_exempt { (notes_in result).exempt ≡ [] }
        ensures variables { (notes_in result).variable_limit ≡ variable_limit }
        ensures clauses { (notes_in result).clause_limit ≡ clause_limit }
        ensures cache { cache_in result ≡ cache }
    {
        Encoding {
            alloc,
            cache,
            table: ClauseTable::new(alloc, variable_limit, clause_limit),
            seen: IndexSet::new(alloc),
            groups: Groups::new(alloc),
            asked: IndexSet::new(alloc),
            helped: IndexSet::new(alloc),
            gates: IndexSet::new(alloc),
            constrained: IndexSet::new(alloc),
            read: IndexSet::new(alloc),
            deferred: Vec::new(alloc),
            deferred_by_name: Groups::new(alloc),
            exempt: IndexSet::new(alloc),
        }
    }

    /// Gives up the encoding for its cache.
    pub fn into_cache(self) -> Cache<N, S>
        ensures { result ≡ cache_in self }
    {
        self.cache
    }

    /// Adds a clause with the candidates that it lists. Its literals follow from its kind and the candidates.
    fn add_with(&mut self, kind: ClauseKind<N, S>, choices: &Choices<S>) -> Result<(), Exhausted>
        requires names { IsIdentity N.eq }
        requires solvables { IsIdentity S.eq }
        requires small { All (λ n. n < 2 ^ 63) choices.now.counts.items }
        ensures room { KeepsRoom self.old self.new }
        ensures added { OnOk result ((u : Universe N S) → choices.now.candidates.items ≡ wanted u kind →
            AddsKind u kind (notes_in self.old) (notes_in self.new)) }
        ensures refusal { IfErr result (IsShortage (IsFull (notes_in self.new))) }
    {
        self.table.add(kind, choices)?;
        Ok(())
    }

    /// Adds a clause that lists no candidates. Its literals follow from its kind.
    #[inline(always)]
    fn add(&mut self, kind: ClauseKind<N, S>) -> Result<(), Exhausted>
        requires names { IsIdentity N.eq }
        requires solvables { IsIdentity S.eq }
        ensures room { KeepsRoom self.old self.new }
        ensures added { OnOk result ((u : Universe N S) → wanted u kind ≡ [] → AddsKind u kind (notes_in self.old) (notes_in self.new)) }
        ensures refusal { IfErr result (IsShortage (IsFull (notes_in self.new))) }
    {
        let none = Choices::none(self.alloc);
        self.add_with(kind, &none)?;
        Ok(())
    }

    /// Returns the kinds of the clauses, by their numbers.
    pub fn kinds(&self) -> &[ClauseKind<N, S>]
        ensures { result.now ≡ (notes_in self.now).kinds }
    {
        self.table.kinds()
    }

    /// Returns the literals of the clauses, by their numbers.
    pub fn literals(&self) -> &Clauses
        ensures { result.now ≡ (notes_in self.now).table }
    {
        self.table.literals()
    }

    /// Returns the variables with their origins.
    pub fn variables(&self) -> &Variables<N, S>
        ensures { origins_in result.now ≡ (notes_in self.now).origins }
    {
        &self.table.variables
    }

    /// Returns the requirement clauses, in the order of their numbers.
    pub fn requirements(&self) -> &[RequirementClause]
        ensures { map (λ r. r.number) result.now ≡ requirement_numbers (notes_in self.now).kinds }
    {
        self.table.requirements()
    }

    /// Returns the places where the candidates of each version set end, for the unions among the requirement clauses, by
    /// the numbers of the clauses.
    pub fn union_ends(&self) -> &UnionEnds
        ensures { result.now ≡ union_ends_in self.now }
    {
        self.table.union_ends()
    }

    /// Returns the rules that the clauses with these numbers state, in the order of the numbers.
    pub fn stated_rules<D: DependencyProvider<NameId = N, SolvableId = S>>(
        &mut self,
        provider: &D,
        numbers: &[usize],
    ) -> Result<Vec<Rule<N, S>>, Interrupted<D::Cancel>>
        requires is_true { IsTrueCache (D.universe provider.now) (cache_in self.old) }
        requires within { All (λ n. n < length (notes_in self.old).kinds) numbers.now }
        ensures limits { KeepsTrue (D.universe provider.now) self.old self.new }
        ensures same { notes_in self.new ≡ notes_in self.old }
        ensures listed { IfOk result
            (λ rules. ListsRulesOf (D.universe provider.now) N.eq (kinds_at (notes_in self.old).kinds numbers.now) rules.items) }
        ensures stated { IfOk result
            (λ rules. ListsOnlyRulesOf (D.universe provider.now) N.eq (kinds_at (notes_in self.old).kinds numbers.now) rules.items) }
        ensures refusal { IfErr result (IsInterruption (D.may_cancel provider.now)) }
    {
        let kinds = self.table.kinds();
        rules_of_clauses(self.alloc, provider, &mut self.cache, kinds, numbers)
    }

    /// Returns the number of clauses.
    pub fn clause_count(&self) -> usize
        ensures { result ≡ length (notes_in self.now).kinds }
    {
        self.table.kinds().len()
    }
}
