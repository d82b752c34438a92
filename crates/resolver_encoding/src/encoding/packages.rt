//! Packages that are asked, with their locks and exclusions.

ghost use Rattle.std.specs.Prelude.{◌≡◌, ◌≢◌, All, Contains, IfErr, OnOk, Some, ⊤};
ghost use Rattle.resolver_clause_store.specs.Caches.{IsTrueCache};
ghost use Rattle.resolver_clause_store.specs.Candidates.{version_sets};
ghost use Rattle.resolver_clause_store.specs.declared.ClauseKind.TheVariants.{Excluded as ExcludedKind, Lock as LockKind};
ghost use Rattle.resolver_encoding.specs.Called.{IsAsking, IsNamedBy};
ghost use Rattle.resolver_encoding.specs.Encodings.{AreNamesAsked, IsAskStep, IsFull, IsLockRead, IsStepWhile, asking_for};
ghost use Rattle.resolver_encoding.specs.Refusals.{IsShortage, IsStop};
ghost use Rattle.resolver_encoding.specs.Steps.{CallsOnly, HasUnlessExempt, IsPackageStep};
ghost use Rattle.resolver_encoding.specs.Turns.{AddsPlainly, AsksOnly};

use super::Encoding;
use resolver_clause_store::{
    ClauseKind, DependencyProvider, Exhausted, Interner, Interrupted, Requirement, StringId,
    VersionSetId, append, is_among,
};
use std::hash::Hash;

impl<N: Copy + Eq + Hash + Drop, S: Copy + Eq + Hash + Drop> Encoding<N, S> {
    ghost use Rattle.resolver_encoding.specs.Notes.{KeepsRoom, KeepsTrue, cache_in, notes_in};

    /// Forbids a listed candidate if another one is locked, unless it is exempt.
    pub(super) fn lock_out<D: DependencyProvider<NameId = N, SolvableId = S>>(
        &mut self,
        provider: &D,
        name: N,
        locked: S,
        candidate: S,
    ) -> Result<(), Exhausted>
        requires named { (D.universe provider.now).name candidate ≡ name }
        requires lock { ((D.universe provider.now).package_named name).locked ≡ Some locked }
        requires listed { Contains ((D.universe provider.now).package_named name).listed candidate }
        ensures room { KeepsRoom self.old self.new }
        ensures step { OnOk result (IsPackageStep (D.universe provider.now) name (notes_in self.old) (notes_in self.new)) }
        ensures plain { OnOk result (AddsPlainly (notes_in self.old) (notes_in self.new)) }
        ensures forbidden { OnOk result
            (candidate ≢ locked → HasUnlessExempt candidate (LockKind locked candidate) (notes_in self.old) (notes_in self.new)) }
        ensures refusal { IfErr result (IsShortage (IsFull (notes_in self.new))) }
    {
        if candidate == locked {
            return Ok(());
        }
        if is_among(&self.exempt, &candidate) {
            return Ok(());
        }
        self.add(ClauseKind::Lock {
            locked,
            forbidden: candidate,
        })?;
        Ok(())
    }

    /// Forbids the listed candidates of a package other than the locked one, unless they are exempt.
    fn lock_out_others<D: DependencyProvider<NameId = N, SolvableId = S>>(
        &mut self,
        provider: &D,
        name: N,
        listed: &[S],
        locked: Option<S>,
    ) -> Result<(), Exhausted>
        requires listed { listed.now ≡ ((D.universe provider.now).package_named name).listed }
        requires locked { locked ≡ ((D.universe provider.now).package_named name).locked }
        ensures room { KeepsRoom self.old self.new }
        ensures step { OnOk result (IsStepWhile (D.universe provider.now) (asking_for name) (λ root. ⊤) (notes_in self.old) (notes_in self.new)) }
        ensures plain { OnOk result (AddsPlainly (notes_in self.old) (notes_in self.new)) }
        ensures read { OnOk result (IsLockRead (notes_in self.new).kinds (notes_in self.old).exempt locked listed.now) }
        ensures refusal { IfErr result (IsShortage (IsFull (notes_in self.new))) }
    {
        let Some(locked) = locked else {
            return Ok(());
        };
        for candidate in listed {
            self.lock_out(provider, name, locked, *candidate)?;
        }
        Ok(())
    }

    /// Forbids a solvable that its package excludes, unless it is exempt.
    pub(super) fn exclude<D: DependencyProvider<NameId = N, SolvableId = S>>(
        &mut self,
        provider: &D,
        name: N,
        solvable: S,
        reason: StringId,
    ) -> Result<(), Exhausted>
        requires named { (D.universe provider.now).name solvable ≡ name }
        requires excluded { Contains ((D.universe provider.now).package_named name).excluded (solvable, reason) }
        ensures room { KeepsRoom self.old self.new }
        ensures step { OnOk result (IsPackageStep (D.universe provider.now) name (notes_in self.old) (notes_in self.new)) }
        ensures plain { OnOk result (AddsPlainly (notes_in self.old) (notes_in self.new)) }
        ensures forbidden { OnOk result (HasUnlessExempt solvable (ExcludedKind solvable reason) (notes_in self.old) (notes_in self.new)) }
        ensures refusal { IfErr result (IsShortage (IsFull (notes_in self.new))) }
    {
        if is_among(&self.exempt, &solvable) {
            return Ok(());
        }
        self.add(ClauseKind::Excluded { solvable, reason })?;
        Ok(())
    }

    /// Forbids the solvables that a package excludes, unless they are exempt.
    fn exclude_each<D: DependencyProvider<NameId = N, SolvableId = S>>(
        &mut self,
        provider: &D,
        name: N,
        excluded: &[(S, StringId)],
    ) -> Result<(), Exhausted>
        requires excluded { excluded.now ≡ ((D.universe provider.now).package_named name).excluded }
        ensures room { KeepsRoom self.old self.new }
        ensures step { OnOk result (IsStepWhile (D.universe provider.now) (asking_for name) (λ root. ⊤) (notes_in self.old) (notes_in self.new)) }
        ensures plain { OnOk result (AddsPlainly (notes_in self.old) (notes_in self.new)) }
        ensures read { OnOk result (All (λ e. HasUnlessExempt e.0 (ExcludedKind e.0 e.1) (notes_in self.old) (notes_in self.new)) excluded.now) }
        ensures refusal { IfErr result (IsShortage (IsFull (notes_in self.new))) }
    {
        for (solvable, reason) in excluded {
            self.exclude(provider, name, *solvable, *reason)?;
        }
        Ok(())
    }

    /// Asks a package, if it was not asked before, and adds the clauses of its lock and its exclusions.
    ///
    /// No solvable is read or registered. Packages that a requirement or a constraint names are asked when that is
    /// read; this call is for packages that a soft requirement names.
    #[inline(always)]
    pub fn ask<D: DependencyProvider<NameId = N, SolvableId = S>>(
        &mut self,
        provider: &D,
        name: N,
    ) -> Result<(), Interrupted<D::Cancel>>
        requires is_true { IsTrueCache (D.universe provider.now) (cache_in self.old) }
        ensures step { OnOk result (IsAskStep (D.universe provider.now) (IsAsking name) (λ root. ⊤) (notes_in self.old) (notes_in self.new)) }
        ensures alone { OnOk result (AsksOnly (D.universe provider.now) name (notes_in self.old) (notes_in self.new)) }
        ensures asked { OnOk result (Contains (notes_in self.new).asked name) }
        ensures limits { KeepsTrue (D.universe provider.now) self.old self.new }
        ensures refusal { IfErr result (IsStop (D.may_cancel provider.now) (IsFull (notes_in self.new))) }
    {
        if is_among(&self.asked, &name) {
            return Ok(());
        }
        self.cache.fetch_candidates(provider, name)?;
        let package = self.cache.candidates(name);
        let locked = package.locked;
        let listed = Vec::from_slice(self.alloc, &package.candidates)?;
        let excluded = Vec::from_slice(self.alloc, &package.excluded)?;
        self.lock_out_others(provider, name, &listed, locked)?;
        self.exclude_each(provider, name, &excluded)?;
        append(&mut self.asked, name)?;
        Ok(())
    }

    /// Asks the package of each version set.
    pub(super) fn ask_each<D: DependencyProvider<NameId = N, SolvableId = S>>(
        &mut self,
        provider: &D,
        named: &[VersionSetId],
    ) -> Result<(), Interrupted<D::Cancel>>
        requires is_true { IsTrueCache (D.universe provider.now) (cache_in self.old) }
        ensures room { KeepsTrue (D.universe provider.now) self.old self.new }
        ensures step { let u = D.universe provider.now in OnOk result (CallsOnly u (IsNamedBy u named.now) (notes_in self.old) (notes_in self.new)) }
        ensures asked { OnOk result (AreNamesAsked (D.universe provider.now) (notes_in self.new) named.now) }
        ensures refusal { IfErr result (IsStop (D.may_cancel provider.now) (IsFull (notes_in self.new))) }
    {
        for version_set in named {
            self.ask(provider, provider.version_set_name(*version_set))?;
        }
        Ok(())
    }

    /// Asks the packages that a requirement names.
    pub(super) fn ask_named<D: DependencyProvider<NameId = N, SolvableId = S>>(
        &mut self,
        provider: &D,
        requirement: Requirement,
    ) -> Result<(), Interrupted<D::Cancel>>
        requires is_true { IsTrueCache (D.universe provider.now) (cache_in self.old) }
        ensures room { KeepsTrue (D.universe provider.now) self.old self.new }
        ensures step { let u = D.universe provider.now in OnOk result
            (CallsOnly u (IsNamedBy u (version_sets u requirement)) (notes_in self.old) (notes_in self.new)) }
        ensures asked { let u = D.universe provider.now in OnOk result (AreNamesAsked u (notes_in self.new) (version_sets u requirement)) }
        ensures refusal { IfErr result (IsStop (D.may_cancel provider.now) (IsFull (notes_in self.new))) }
    {
        match requirement {
            Requirement::Single(version_set) => {
                self.ask_each(provider, &[version_set])?;
                Ok(())
            }
            Requirement::Union(union) => {
                self.ask_each(provider, provider.version_sets_in_union(union))?;
                Ok(())
            }
        }
    }
}
