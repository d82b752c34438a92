//! Deferred disjuncts, and the clauses that they get once they are met.

ghost use Rattle.std.specs.Prelude.{◌≡◌, IfErr, IfSome, IfNone, OnErr, OnOk, Some, slice_get, ◌≤◌, All, IfOk, length, true, ⊤};
ghost use Rattle.resolver_clause_store.specs.Variables.{AreDistinct};
ghost use Rattle.resolver_encoding.specs.Encodings.{IsEncodingOf, IsFull};
ghost use Rattle.resolver_encoding.specs.ReadState.{Deferred};
ghost use Rattle.resolver_encoding.specs.SoFar.{IsDeferral, IsIndexing, IsTakenOut, left_count, HasFired, HasMet, IsFiring, IsQuietAt};
ghost use Rattle.resolver_clause_store.specs.Caches.{IsTrueCache};
ghost use Rattle.resolver_encoding.specs.Refusals.{IsStop};
ghost use Rattle.resolver_encoding.specs.Steps.{IsQuietFor, IsQuietFrom};

use super::Encoding;
use crate::disjuncts::{Entry, is_met};
use indexmap::IndexSet;
use resolver_clause_store::{DependencyProvider, Exhausted, Interner, Interrupted, VersionSetId};
use std::hash::Hash;

impl<N: Copy + Eq + Hash + Drop, S: Copy + Eq + Hash + Drop> Encoding<N, S> {
    ghost use Rattle.resolver_encoding.specs.Notes.{KeepsRoom, KeepsTrue, cache_in, entry_of, notes_in};

    /// Notes the number of a deferred disjunct under the packages of its version sets.
    fn index_each<D: DependencyProvider<NameId = N, SolvableId = S>>(
        &mut self,
        provider: &D,
        disjunct: &[VersionSetId],
        number: usize,
    ) -> Result<(), Exhausted>
        ensures room { KeepsRoom self.old self.new }
        ensures indexed { OnOk result (IsIndexing (D.universe provider.now) number disjunct.now (notes_in self.old) (notes_in self.new)) }
        ensures origins { (notes_in self.new).origins ≡ (notes_in self.old).origins }
        ensures still { (notes_in self.new).deferred ≡ (notes_in self.old).deferred }
        ensures memory { IfErr result (λ e. e ≡ Exhausted.Memory) }
    {
        for version_set in disjunct {
            let name = provider.version_set_name(*version_set);
            self.deferred_by_name.add(name, number)?;
        }
        Ok(())
    }

    /// Defers a disjunct.
    pub(super) fn defer<D: DependencyProvider<NameId = N, SolvableId = S>>(
        &mut self,
        provider: &D,
        entry: Entry<S>,
    ) -> Result<(), Exhausted>
        requires once { AreDistinct entry.disjunct.items }
        ensures room { KeepsRoom self.old self.new }
        ensures deferred { OnOk result (IsDeferral (D.universe provider.now) (entry_of entry) (notes_in self.old) (notes_in self.new)) }
        ensures origins { (notes_in self.new).origins ≡ (notes_in self.old).origins }
        ensures still { OnErr result ((notes_in self.new).deferred ≡ (notes_in self.old).deferred) }
        ensures memory { IfErr result (λ e. e ≡ Exhausted.Memory) }
    {
        let number = self.deferred.len();
        self.index_each(provider, &entry.disjunct, number)?;
        self.deferred.push(Some(entry))?;
        Ok(())
    }

    /// Removes a disjunct and returns it, if it is still deferred.
    pub(super) fn take_out(&mut self, number: usize) -> Option<Entry<S>>
        ensures room { KeepsRoom self.old self.new }
        ensures some { IfSome result (λ entry. IsTakenOut number (entry_of entry) (notes_in self.old) (notes_in self.new)) }
        ensures none { IfNone result (notes_in self.new ≡ notes_in self.old) }
        ensures absent { IfNone result ((e : Deferred S) → slice_get (notes_in self.old).deferred number ≡ Some (Some e) → ⊥) }
    {
        if number >= self.deferred.len() {
            return None;
        }
        self.deferred[number].take()
    }

    /// Returns the number of deferred disjuncts.
    pub fn deferred_count(&self) -> usize
        ensures { result ≡ left_count (notes_in self.now) }
    {
        let mut count = 0;
        for entry in &self.deferred {
            if entry.is_some() {
                count += 1;
            }
        }
        count
    }
}

impl<N: Copy + Eq + Hash + Drop, S: Copy + Eq + Hash + Drop> Encoding<N, S> {
    ghost use Rattle.resolver_encoding.specs.Notes.{KeepsRoom, KeepsTrue, cache_in, notes_in};

    /// Fires a disjunct that is due: removes it, and encodes its requirement.
    fn fire<D: DependencyProvider<NameId = N, SolvableId = S>>(
        &mut self,
        provider: &D,
        chosen: &IndexSet<S>,
        number: usize,
    ) -> Result<(), Interrupted<D::Cancel>>
        requires is_true { IsTrueCache (D.universe provider.now) (cache_in self.old) }
        requires encoding { IsEncodingOf (D.universe provider.now) (λ root. ⊤) (notes_in self.old) }
        requires met { HasMet (D.universe provider.now) chosen.now.keys (notes_in self.old) number }
        ensures room { KeepsTrue (D.universe provider.now) self.old self.new }
        ensures firing { OnOk result (IsFiring (D.universe provider.now) chosen.now.keys (notes_in self.old) (notes_in self.new)) }
        ensures quiet { OnOk result (IsQuietAt (D.universe provider.now) chosen.now.keys (notes_in self.new) number) }
        ensures fired { OnOk result (HasFired (notes_in self.old) (notes_in self.new) true) }
        ensures refusal { IfErr result (IsStop (D.may_cancel provider.now) (IsFull (notes_in self.new))) }
    {
        match self.take_out(number) {
            Some(entry) => {
                self.encode_disjunct(provider, entry)?;
                Ok(())
            }
            None => Ok(()),
        }
    }

    /// Fires a disjunct if it is due: deferred, and met in the chosen set. Returns whether it was.
    fn fire_if_due<D: DependencyProvider<NameId = N, SolvableId = S>>(
        &mut self,
        provider: &D,
        chosen: &IndexSet<S>,
        number: usize,
    ) -> Result<bool, Interrupted<D::Cancel>>
        requires is_true { IsTrueCache (D.universe provider.now) (cache_in self.old) }
        requires encoding { IsEncodingOf (D.universe provider.now) (λ root. ⊤) (notes_in self.old) }
        ensures room { KeepsTrue (D.universe provider.now) self.old self.new }
        ensures firing { OnOk result (IsFiring (D.universe provider.now) chosen.now.keys (notes_in self.old) (notes_in self.new)) }
        ensures quiet { OnOk result (IsQuietAt (D.universe provider.now) chosen.now.keys (notes_in self.new) number) }
        ensures fired { IfOk result (HasFired (notes_in self.old) (notes_in self.new)) }
        ensures refusal { IfErr result (IsStop (D.may_cancel provider.now) (IsFull (notes_in self.new))) }
    {
        match self.deferred.get(number) {
            Some(Some(entry)) => {
                if !is_met(provider, &mut self.cache, chosen, &entry.disjunct)? {
                    return Ok(false);
                }
                self.fire(provider, chosen, number)?;
                Ok(true)
            }
            Some(None) => Ok(false),
            None => Ok(false),
        }
    }

    /// Fires each of these disjuncts that is due. Returns whether any disjunct was due.
    fn fire_each<D: DependencyProvider<NameId = N, SolvableId = S>>(
        &mut self,
        provider: &D,
        chosen: &IndexSet<S>,
        numbers: &[usize],
    ) -> Result<bool, Interrupted<D::Cancel>>
        requires is_true { IsTrueCache (D.universe provider.now) (cache_in self.old) }
        requires encoding { IsEncodingOf (D.universe provider.now) (λ root. ⊤) (notes_in self.old) }
        ensures room { KeepsTrue (D.universe provider.now) self.old self.new }
        ensures firing { OnOk result (IsFiring (D.universe provider.now) chosen.now.keys (notes_in self.old) (notes_in self.new)) }
        ensures quiet { OnOk result (All (IsQuietAt (D.universe provider.now) chosen.now.keys (notes_in self.new)) numbers.now) }
        ensures fired { IfOk result (HasFired (notes_in self.old) (notes_in self.new)) }
        ensures refusal { IfErr result (IsStop (D.may_cancel provider.now) (IsFull (notes_in self.new))) }
    {
        let mut any = false;
        for number in numbers {
            any |= self.fire_if_due(provider, chosen, *number)?;
        }
        Ok(any)
    }

    /// Fires each due disjunct that is noted under the package of a solvable. Returns whether any disjunct was due.
    fn fire_named<D: DependencyProvider<NameId = N, SolvableId = S>>(
        &mut self,
        provider: &D,
        chosen: &IndexSet<S>,
        solvable: S,
    ) -> Result<bool, Interrupted<D::Cancel>>
        requires is_true { IsTrueCache (D.universe provider.now) (cache_in self.old) }
        requires encoding { IsEncodingOf (D.universe provider.now) (λ root. ⊤) (notes_in self.old) }
        ensures room { KeepsTrue (D.universe provider.now) self.old self.new }
        ensures firing { OnOk result (IsFiring (D.universe provider.now) chosen.now.keys (notes_in self.old) (notes_in self.new)) }
        ensures quiet { OnOk result (IsQuietFor (D.universe provider.now) chosen.now.keys solvable (notes_in self.old) (notes_in self.new)) }
        ensures fired { IfOk result (HasFired (notes_in self.old) (notes_in self.new)) }
        ensures refusal { IfErr result (IsStop (D.may_cancel provider.now) (IsFull (notes_in self.new))) }
    {
        let name = provider.solvable_name(solvable);
        let numbers = Vec::from_slice(self.alloc, self.deferred_by_name.named(name))?;
        let any = self.fire_each(provider, chosen, &numbers)?;
        Ok(any)
    }

    /// Fires each disjunct that is due because of a chosen solvable from this place on. Returns whether any disjunct
    /// was due.
    pub(super) fn fire_deferred<D: DependencyProvider<NameId = N, SolvableId = S>>(
        &mut self,
        provider: &D,
        chosen: &IndexSet<S>,
        from: usize,
    ) -> Result<bool, Interrupted<D::Cancel>>
        requires is_true { IsTrueCache (D.universe provider.now) (cache_in self.old) }
        requires encoding { IsEncodingOf (D.universe provider.now) (λ root. ⊤) (notes_in self.old) }
        requires within { from ≤ length chosen.now.keys }
        ensures room { KeepsTrue (D.universe provider.now) self.old self.new }
        ensures firing { OnOk result (IsFiring (D.universe provider.now) chosen.now.keys (notes_in self.old) (notes_in self.new)) }
        ensures quiet { OnOk result (IsQuietFrom (D.universe provider.now) chosen.now.keys from (notes_in self.old) (notes_in self.new)) }
        ensures fired { IfOk result (HasFired (notes_in self.old) (notes_in self.new)) }
        ensures refusal { IfErr result (IsStop (D.may_cancel provider.now) (IsFull (notes_in self.new))) }
    {
        let mut any = false;
        for place in from..chosen.len() {
            let solvable = chosen.as_slice()[place];
            any |= self.fire_named(provider, chosen, solvable)?;
        }
        Ok(any)
    }
}
