//! The cache of a provider's answers.

ghost use Rattle.std.specs.Prelude.{◌≡◌, ◌↔◌, IfErr, IsTrue, MatchBool, OnOk, Some, true};
ghost use Rattle.resolver_clause_store.specs.Candidates.{matching as matching_in, others, sorted_candidates};
ghost use Rattle.resolver_clause_store.specs.Interruptions.{IsInterruption};
ghost use Rattle.resolver_clause_store.specs.Laws.{IsIdentity};
ghost use Rattle.resolver_clause_store.specs.Universe.{Universe, hint_none, needs_of, package_of};

use crate::data::{Candidates, Dependencies, Interrupted};
use crate::hints::{covers, covers_none};
use crate::ids::VersionSetId;
use crate::provider::{DependencyProvider, Interner};
use crate::questions::{fetch_candidates, fetch_dependencies, sorted_favored_first};
use std::alloc::Global;
use std::collections::HashMap;
use std::hash::Hash;

/// Keeps the answers of a provider. A `fetch` method asks the provider unless the answer is there; it may be refused or
/// stop the search. The method of the same name without `fetch` then borrows the answer.
///
/// Before the provider is asked for candidates or dependencies, it may stop the search. However a call ends, the cache
/// has true answers only.
#[derive(Drop)]
pub struct Cache<N: Copy + Eq + Hash + Drop, S: Copy + Eq + Hash + Drop> {
    alloc: Global,
    packages: HashMap<N, Candidates<S>>,
    matching: HashMap<VersionSetId, Vec<S>>,
    non_matching: HashMap<VersionSetId, Vec<S>>,
    sorted: HashMap<VersionSetId, Vec<S>>,
    dependencies: HashMap<S, Dependencies>,
}

impl<N: Copy + Eq + Hash + Drop, S: Copy + Eq + Hash + Drop> Cache<N, S> {
    ghost use Rattle.resolver_clause_store.specs.Caches.{HasCandidates, HasDependencies, HasMatching, HasNonMatching, HasSorted, IsAvailable, IsTrueCache};
    ghost use Rattle.resolver_clause_store.specs.Caches.{KeepsAnswers};

    /// Returns an empty cache.
    pub fn new(alloc: Global) -> Self
        ensures { (u : Universe N S) → IsTrueCache u result }
    {
        Cache {
            alloc,
            packages: HashMap::new(alloc),
            matching: HashMap::new(alloc),
            non_matching: HashMap::new(alloc),
            sorted: HashMap::new(alloc),
            dependencies: HashMap::new(alloc),
        }
    }

    /// Returns the allocator of the cache.
    pub(crate) fn allocator(&self) -> Global {
        self.alloc
    }

    /// Fetches the candidates of a package.
    #[inline(always)]
    pub fn fetch_candidates<D: DependencyProvider<NameId = N, SolvableId = S>>(
        &mut self,
        provider: &D,
        name: N,
    ) -> Result<(), Interrupted<D::Cancel>>
        requires { IsTrueCache (D.universe provider.now) self.old }
        ensures is_true { IsTrueCache (D.universe provider.now) self.new }
        ensures keeps { KeepsAnswers self.old self.new }
        ensures has { OnOk result (HasCandidates self.new name) }
        ensures refusal { IfErr result (IsInterruption (D.may_cancel provider.now)) }
    {
        if self.packages.contains_key(&name) {
            return Ok(());
        }
        let package = fetch_candidates(self.alloc, provider, name)?;
        self.packages.insert(name, package)?;
        Ok(())
    }

    /// Returns the candidates of a package, none if the provider does not know it.
    pub fn candidates(&self, name: N) -> &Candidates<S>
        requires names { IsIdentity N.eq }
        requires has { HasCandidates self.now name }
        ensures { (u : Universe N S) → IsTrueCache u self.now → package_of (Some result.now) ≡ u.package_named name }
    {
        &self.packages[&name]
    }

    /// Returns whether a package hints at the dependencies of none of its solvables.
    pub fn is_without_hints(&self, name: N) -> bool
        requires names { IsIdentity N.eq }
        requires has { HasCandidates self.now name }
        ensures { (u : Universe N S) → IsTrueCache u self.now → result ≡ true → (u.package_named name).hint ≡ hint_none }
    {
        covers_none(&self.candidates(name).hint_dependencies_available)
    }

    /// Fetches the candidates in a version set.
    pub fn fetch_matching<D: DependencyProvider<NameId = N, SolvableId = S>>(
        &mut self,
        provider: &D,
        version_set: VersionSetId,
    ) -> Result<(), Interrupted<D::Cancel>>
        requires { IsTrueCache (D.universe provider.now) self.old }
        ensures is_true { IsTrueCache (D.universe provider.now) self.new }
        ensures keeps { KeepsAnswers self.old self.new }
        ensures has { OnOk result (HasMatching self.new version_set) }
        ensures refusal { IfErr result (IsInterruption (D.may_cancel provider.now)) }
    {
        if self.matching.contains_key(&version_set) {
            return Ok(());
        }
        let name = provider.version_set_name(version_set);
        self.fetch_candidates(provider, name)?;
        let listed = &self.candidates(name).candidates;
        let taken = provider.filter_candidates(listed, version_set, false)?;
        self.matching.insert(version_set, taken)?;
        Ok(())
    }

    /// Returns the candidates in a version set.
    pub fn matching(&self, version_set: VersionSetId) -> &[S]
        requires { HasMatching self.now version_set }
        ensures { (u : Universe N S) → IsTrueCache u self.now → result.now ≡ matching_in u version_set }
    {
        &self.matching[&version_set]
    }

    /// Fetches the candidates outside a version set, of its package.
    pub fn fetch_non_matching<D: DependencyProvider<NameId = N, SolvableId = S>>(
        &mut self,
        provider: &D,
        version_set: VersionSetId,
    ) -> Result<(), Interrupted<D::Cancel>>
        requires { IsTrueCache (D.universe provider.now) self.old }
        ensures is_true { IsTrueCache (D.universe provider.now) self.new }
        ensures keeps { KeepsAnswers self.old self.new }
        ensures has { OnOk result (HasNonMatching self.new version_set) }
        ensures refusal { IfErr result (IsInterruption (D.may_cancel provider.now)) }
    {
        if self.non_matching.contains_key(&version_set) {
            return Ok(());
        }
        let name = provider.version_set_name(version_set);
        self.fetch_candidates(provider, name)?;
        let listed = &self.candidates(name).candidates;
        let left_out = provider.filter_candidates(listed, version_set, true)?;
        self.non_matching.insert(version_set, left_out)?;
        Ok(())
    }

    /// Returns the candidates outside a version set, of its package.
    pub fn non_matching(&self, version_set: VersionSetId) -> &[S]
        requires { HasNonMatching self.now version_set }
        ensures { (u : Universe N S) → IsTrueCache u self.now → result.now ≡ others u version_set }
    {
        &self.non_matching[&version_set]
    }

    /// Fetches the candidates in a version set, in the order in which they are to be tried.
    #[inline(always)]
    pub fn fetch_sorted<D: DependencyProvider<NameId = N, SolvableId = S>>(
        &mut self,
        provider: &D,
        version_set: VersionSetId,
    ) -> Result<(), Interrupted<D::Cancel>>
        requires { IsTrueCache (D.universe provider.now) self.old }
        ensures is_true { IsTrueCache (D.universe provider.now) self.new }
        ensures keeps { KeepsAnswers self.old self.new }
        ensures has { OnOk result (HasSorted self.new version_set) }
        ensures refusal { IfErr result (IsInterruption (D.may_cancel provider.now)) }
    {
        if self.sorted.contains_key(&version_set) {
            return Ok(());
        }
        let name = provider.version_set_name(version_set);
        self.fetch_candidates(provider, name)?;
        let listing = self.candidates(name);
        let sorted = sorted_favored_first(self.alloc, provider, listing, version_set)?;
        self.sorted.insert(version_set, sorted)?;
        Ok(())
    }

    /// Returns the candidates in a version set by preference, but with the favored one first.
    pub fn sorted(&self, version_set: VersionSetId) -> &[S]
        requires { HasSorted self.now version_set }
        ensures { (u : Universe N S) → IsTrueCache u self.now → result.now ≡ sorted_candidates u version_set }
    {
        &self.sorted[&version_set]
    }

    /// Fetches the dependencies of a solvable.
    pub fn fetch_dependencies<D: DependencyProvider<NameId = N, SolvableId = S>>(
        &mut self,
        provider: &D,
        solvable: S,
    ) -> Result<(), Interrupted<D::Cancel>>
        requires { IsTrueCache (D.universe provider.now) self.old }
        ensures is_true { IsTrueCache (D.universe provider.now) self.new }
        ensures keeps { KeepsAnswers self.old self.new }
        ensures has { OnOk result (HasDependencies self.new solvable) }
        ensures refusal { IfErr result (IsInterruption (D.may_cancel provider.now)) }
    {
        if self.dependencies.contains_key(&solvable) {
            return Ok(());
        }
        let answer = fetch_dependencies(provider, solvable)?;
        self.dependencies.insert(solvable, answer)?;
        Ok(())
    }

    /// Returns the dependencies of a solvable, or the reason why they are unknown.
    pub fn dependencies(&self, solvable: S) -> &Dependencies
        requires solvables { IsIdentity S.eq }
        requires has { HasDependencies self.now solvable }
        ensures { (u : Universe N S) → IsTrueCache u self.now → needs_of result.now ≡ u.needs solvable }
    {
        &self.dependencies[&solvable]
    }

    /// Returns whether the dependencies of a solvable were fetched.
    pub fn has_dependencies(&self, solvable: S) -> bool
        requires { IsIdentity S.eq }
        ensures { MatchBool result (HasDependencies self.now solvable) (HasDependencies self.now solvable → ⊥) }
    {
        self.dependencies.contains_key(&solvable)
    }

    /// Returns whether the dependencies of a solvable are available: fetched already, or hinted to be cheap.
    pub fn are_dependencies_available_for<D: DependencyProvider<NameId = N, SolvableId = S>>(
        &self,
        provider: &D,
        solvable: S,
    ) -> bool
        requires { IsTrueCache (D.universe provider.now) self.now }
        ensures { IsTrue result ↔ IsAvailable (D.universe provider.now) self.now solvable }
    {
        if self.dependencies.contains_key(&solvable) {
            return true;
        }
        let name = provider.solvable_name(solvable);
        match self.packages.get(&name) {
            None => false,
            Some(package) => covers(&package.hint_dependencies_available, &solvable),
        }
    }
}
