//! Turns of soft requirements.

ghost use Rattle.std.specs.Prelude.{◌≡◌, ◌≤◌, ◌+◌, All, Contains, IfErr, IfOk, OnOk, Some, length, slice_get, take, ⊤};
ghost use Rattle.resolver_clause_store.specs.Caches.{IsTrueCache};
ghost use Rattle.resolver_clause_store.specs.declared.ClauseKind.TheVariants.{Excluded as Excludes};
ghost use Rattle.resolver_clause_store.specs.declared.Origin.TheVariants.{Solvable as SolvableOrigin};
ghost use Rattle.resolver_encoding.specs.Encodings.{IsFull, IsStepWhile, owing_for};
ghost use Rattle.resolver_encoding.specs.Refusals.{IsShortage, IsStop};
ghost use Rattle.resolver_encoding.specs.Steps.{ExemptsOne, HasLock, HasUnlessExempt};
ghost use Rattle.resolver_encoding.specs.Turns.{AddsPlainly, IsRestored, IsRegistered, IsTurnEnd, StaysRead};

use super::Encoding;
use resolver_clause_store::{
    DependencyProvider, Exhausted, Interner, Interrupted, Origin, StringId, Variable, append, has,
    is_among,
};
use std::hash::Hash;

impl<N: Copy + Eq + Hash + Drop, S: Copy + Eq + Hash + Drop> Encoding<N, S> {
    ghost use Rattle.resolver_encoding.specs.Notes.{KeepsRoom, KeepsTrue, cache_in, notes_in};

    /// Returns the solvables that are exempt from locks and exclusions, in the order in which they became exempt.
    pub fn exempt(&self) -> &[S]
        ensures { result.now ≡ (notes_in self.now).exempt }
    {
        self.exempt.as_slice()
    }

    /// Registers a solvable with those of its package, if it is new. Returns its variable.
    ///
    /// At most one registered solvable of a package is true.
    pub fn register<D: DependencyProvider<NameId = N, SolvableId = S>>(
        &mut self,
        provider: &D,
        solvable: S,
    ) -> Result<Variable, Exhausted>
        ensures registered { OnOk result (IsRegistered (D.universe provider.now) solvable (notes_in self.old) (notes_in self.new)) }
        ensures variable { IfOk result (λ v. slice_get (notes_in self.new).origins v ≡ Some (SolvableOrigin solvable)) }
        ensures limits { KeepsRoom self.old self.new }
        ensures refusal { IfErr result (IsShortage (IsFull (notes_in self.new))) }
    {
        let variable = self.table.variables.intern(Origin::Solvable(solvable))?;
        self.see(provider, solvable)?;
        Ok(variable)
    }

    /// Makes a soft solvable exempt from locks and exclusions, unless its package was asked.
    ///
    /// It stays exempt if its package is asked later.
    pub fn begin_turn<D: DependencyProvider<NameId = N, SolvableId = S>>(
        &mut self,
        provider: &D,
        solvable: S,
    ) -> Result<(), Exhausted>
        ensures only { notes_in self.new ≡ record (notes_in self.old) { exempt = (notes_in self.new).exempt } }
        ensures few { length (notes_in self.new).exempt ≤ length (notes_in self.old).exempt + 1 }
        ensures exempts { OnOk result (ExemptsOne (D.universe provider.now) solvable (notes_in self.old) (notes_in self.new)) }
        ensures stays { OnOk result (StaysRead (D.universe provider.now) (notes_in self.old) (notes_in self.new)) }
        ensures limits { KeepsRoom self.old self.new }
        ensures memory { IfErr result (λ e. e ≡ Exhausted.Memory) }
    {
        let name = provider.solvable_name(solvable);
        if is_among(&self.asked, &name) {
            return Ok(());
        }
        if is_among(&self.exempt, &solvable) {
            return Ok(());
        }
        append(&mut self.exempt, solvable)?;
        Ok(())
    }

    /// Adds the clause of the lock for a solvable, if its package lists it.
    fn restore_lock<D: DependencyProvider<NameId = N, SolvableId = S>>(
        &mut self,
        provider: &D,
        name: N,
        listed: &[S],
        locked: Option<S>,
        solvable: S,
    ) -> Result<(), Exhausted>
        requires named { (D.universe provider.now).name solvable ≡ name }
        requires asked { Contains (notes_in self.old).asked name }
        requires listed { listed.now ≡ ((D.universe provider.now).package_named name).listed }
        requires locked { locked ≡ ((D.universe provider.now).package_named name).locked }
        ensures room { KeepsRoom self.old self.new }
        ensures step { OnOk result (IsStepWhile (D.universe provider.now) (owing_for solvable) (λ root. ⊤) (notes_in self.old) (notes_in self.new)) }
        ensures plain { OnOk result (AddsPlainly (notes_in self.old) (notes_in self.new)) }
        ensures restored { OnOk result (HasLock solvable listed.now locked (notes_in self.old) (notes_in self.new)) }
        ensures refusal { IfErr result (IsShortage (IsFull (notes_in self.new))) }
    {
        let Some(locked) = locked else {
            return Ok(());
        };
        if !has(listed, &solvable) {
            return Ok(());
        }
        self.lock_out(provider, name, locked, solvable)?;
        Ok(())
    }

    /// Adds the clause of an exclusion, if it excludes this solvable.
    fn restore_exclusion<D: DependencyProvider<NameId = N, SolvableId = S>>(
        &mut self,
        provider: &D,
        name: N,
        excluded: S,
        reason: StringId,
        solvable: S,
    ) -> Result<(), Exhausted>
        requires named { (D.universe provider.now).name excluded ≡ name }
        requires asked { Contains (notes_in self.old).asked name }
        requires excluded { Contains ((D.universe provider.now).package_named name).excluded (excluded, reason) }
        ensures room { KeepsRoom self.old self.new }
        ensures step { OnOk result (IsStepWhile (D.universe provider.now) (owing_for solvable) (λ root. ⊤) (notes_in self.old) (notes_in self.new)) }
        ensures plain { OnOk result (AddsPlainly (notes_in self.old) (notes_in self.new)) }
        ensures restored { OnOk result
            (excluded ≡ solvable → HasUnlessExempt solvable (Excludes excluded reason) (notes_in self.old) (notes_in self.new)) }
        ensures refusal { IfErr result (IsShortage (IsFull (notes_in self.new))) }
    {
        if excluded != solvable {
            return Ok(());
        }
        self.exclude(provider, name, excluded, reason)?;
        Ok(())
    }

    /// Adds the clauses of a solvable's exclusions.
    fn restore_exclusions<D: DependencyProvider<NameId = N, SolvableId = S>>(
        &mut self,
        provider: &D,
        name: N,
        excluded: &[(S, StringId)],
        solvable: S,
    ) -> Result<(), Exhausted>
        requires asked { Contains (notes_in self.old).asked name }
        requires excluded { excluded.now ≡ ((D.universe provider.now).package_named name).excluded }
        ensures room { KeepsRoom self.old self.new }
        ensures step { OnOk result (IsStepWhile (D.universe provider.now) (owing_for solvable) (λ root. ⊤) (notes_in self.old) (notes_in self.new)) }
        ensures plain { OnOk result (AddsPlainly (notes_in self.old) (notes_in self.new)) }
        ensures restored { OnOk result (All
            (λ e. e.0 ≡ solvable → HasUnlessExempt solvable (Excludes e.0 e.1) (notes_in self.old) (notes_in self.new)) excluded.now) }
        ensures refusal { IfErr result (IsShortage (IsFull (notes_in self.new))) }
    {
        for (other, reason) in excluded {
            self.restore_exclusion(provider, name, *other, *reason, solvable)?;
        }
        Ok(())
    }

    /// Adds the clauses that a solvable was spared, if its package was asked.
    fn restore<D: DependencyProvider<NameId = N, SolvableId = S>>(
        &mut self,
        provider: &D,
        solvable: S,
    ) -> Result<(), Interrupted<D::Cancel>>
        requires is_true { IsTrueCache (D.universe provider.now) (cache_in self.old) }
        ensures room { KeepsTrue (D.universe provider.now) self.old self.new }
        ensures step { OnOk result (IsStepWhile (D.universe provider.now) (owing_for solvable) (λ root. ⊤) (notes_in self.old) (notes_in self.new)) }
        ensures plain { OnOk result (AddsPlainly (notes_in self.old) (notes_in self.new)) }
        ensures restored { OnOk result (IsRestored (D.universe provider.now) solvable (notes_in self.new)) }
        ensures refusal { IfErr result (IsStop (D.may_cancel provider.now) (IsFull (notes_in self.new))) }
    {
        let name = provider.solvable_name(solvable);
        if !is_among(&self.asked, &name) {
            return Ok(());
        }
        self.cache.fetch_candidates(provider, name)?;
        let package = self.cache.candidates(name);
        let locked = package.locked;
        let listed = Vec::from_slice(self.alloc, &package.candidates)?;
        let excluded = Vec::from_slice(self.alloc, &package.excluded)?;
        self.restore_lock(provider, name, &listed, locked, solvable)?;
        self.restore_exclusions(provider, name, &excluded, solvable)?;
        Ok(())
    }

    /// Ends the turn of a soft solvable that was refused: withdraws its exemption, if it became exempt in this turn,
    /// and adds the clauses that it was spared.
    ///
    /// `exempt_before` is the number of exempt solvables before the turn. The turn of an accepted solvable needs no
    /// such call.
    pub fn end_turn<D: DependencyProvider<NameId = N, SolvableId = S>>(
        &mut self,
        provider: &D,
        exempt_before: usize,
    ) -> Result<(), Interrupted<D::Cancel>>
        requires is_true { IsTrueCache (D.universe provider.now) (cache_in self.old) }
        requires one_turn { length (notes_in self.old).exempt ≤ exempt_before + 1 }
        ensures ended { OnOk result (IsTurnEnd (D.universe provider.now) (notes_in self.old) (notes_in self.new)) }
        ensures exempt { OnOk result ((notes_in self.new).exempt ≡ take exempt_before (notes_in self.old).exempt) }
        ensures limits { KeepsTrue (D.universe provider.now) self.old self.new }
        ensures refusal { IfErr result (IsStop (D.may_cancel provider.now) (IsFull (notes_in self.new))) }
    {
        if self.exempt.len() <= exempt_before {
            return Ok(());
        }
        match self.exempt.pop() {
            None => Ok(()),
            Some(solvable) => {
                self.restore(provider, solvable)?;
                Ok(())
            }
        }
    }
}
