//! Candidates that are read early, because their dependencies are available.

ghost use Rattle.std.specs.Prelude.{◌≡◌, ◌<◌, ◌≤◌, [], Contains, IfErr, IfOk, IfSome, OnOk, Some, length, true};
ghost use Rattle.std.specs.Option.{option_map_or};
ghost use Rattle.resolver_clause_store.specs.Caches.{HasCandidates, IsAvailable, IsTrueCache};
ghost use Rattle.resolver_clause_store.specs.Candidates.{requirement_candidates as candidates_of};
ghost use Rattle.resolver_clause_store.specs.Interruptions.{IsInterruption};
ghost use Rattle.resolver_clause_store.specs.Laws.{IsIdentity};
ghost use Rattle.resolver_clause_store.specs.Universe.{Universe};
ghost use Rattle.resolver_encoding.specs.Atoms.{wanted};
ghost use Rattle.resolver_encoding.specs.Encodings.{IsFull};
ghost use Rattle.resolver_encoding.specs.Hints.{AreHintsRead, AreHintsReadTo, AreReadIfHinted, HintsAtNone, IsHinted, candidates_at};
ghost use Rattle.resolver_encoding.specs.Refusals.{IsStop};
ghost use Rattle.resolver_encoding.specs.SoFar.{HasRead, IsHalfReading, IsHintedReading, IsMoreOrSame, IsReadingOf};

use super::Encoding;
use indexmap::IndexSet;
use resolver_clause_store::{
    Cache, ClauseKind, DependencyProvider, Interner, Interrupted, Requirement, is_among,
    requirement_candidates,
};
use std::hash::Hash;

/// Returns the requirement that a clause states, if any.
fn required_by<N, S>(kind: &ClauseKind<N, S>) -> Option<Requirement>
    ensures { (u : Universe N S) → option_map_or (candidates_of u) result [] ≡ wanted u kind.now }
{
    match kind {
        ClauseKind::Requires { requirement, .. } => Some(*requirement),
        _ => None,
    }
}

/// Returns the name of a package, if that hints at the dependencies of none of its solvables.
fn without_hints<N: Copy + Eq + Hash + Drop, S: Copy + Eq + Hash + Drop>(
    cache: &Cache<N, S>,
    name: N,
) -> Option<N>
    requires names { IsIdentity N.eq }
    requires has { HasCandidates cache.now name }
    ensures { (u : Universe N S) → IsTrueCache u cache.now → IfSome result (HintsAtNone u) }
{
    if cache.is_without_hints(name) {
        return Some(name);
    }
    None
}

/// Returns whether a candidate's dependencies are not available, because they were not fetched and its package, whose name is `hintless`,
/// has no hints.
fn is_out_of_reach<N: Copy + Eq + Hash + Drop, S: Copy + Eq + Hash + Drop>(
    cache: &Cache<N, S>,
    hintless: Option<N>,
    name: N,
    candidate: S,
) -> bool
    requires names { IsIdentity N.eq }
    requires solvables { IsIdentity S.eq }
    ensures { result ≡ true → hintless ≡ Some name }
{
    match hintless {
        Some(known) => {
            if known != name {
                return false;
            }
            !cache.has_dependencies(candidate)
        }
        None => false,
    }
}

impl<N: Copy + Eq + Hash + Drop, S: Copy + Eq + Hash + Drop> Encoding<N, S> {
    ghost use Rattle.resolver_encoding.specs.Notes.{KeepsTrue, cache_in, notes_in};

    /// Returns the requirement of the clause at a place, if it is a requirement clause.
    fn requirement_at(&self, place: usize) -> Option<Requirement>
        ensures { (u : Universe N S) → option_map_or (candidates_of u) result [] ≡ candidates_at u (notes_in self.now) place }
    {
        match self.table.kinds().get(place) {
            Some(kind) => required_by(kind),
            None => None,
        }
    }

    /// Returns the candidates of the clause at a place, none if it is no requirement clause.
    fn listed_candidates<D: DependencyProvider<NameId = N, SolvableId = S>>(
        &mut self,
        provider: &D,
        place: usize,
    ) -> Result<Vec<S>, Interrupted<D::Cancel>>
        requires is_true { IsTrueCache (D.universe provider.now) (cache_in self.old) }
        ensures room { KeepsTrue (D.universe provider.now) self.old self.new }
        ensures same { notes_in self.new ≡ notes_in self.old }
        ensures candidates { IfOk result (λ list. list.items ≡ candidates_at (D.universe provider.now) (notes_in self.old) place) }
        ensures refusal { IfErr result (IsInterruption (D.may_cancel provider.now)) }
    {
        match self.requirement_at(place) {
            Some(requirement) => {
                let candidates = requirement_candidates(&mut self.cache, provider, requirement)?;
                Ok(candidates)
            }
            None => Ok(Vec::new(self.alloc)),
        }
    }

    /// Reads a registered candidate if its dependencies are available, unless it was read before.
    fn read_if_at_hand<D: DependencyProvider<NameId = N, SolvableId = S>>(
        &mut self,
        provider: &D,
        chosen: &IndexSet<S>,
        candidate: S,
    ) -> Result<(), Interrupted<D::Cancel>>
        requires is_true { IsTrueCache (D.universe provider.now) (cache_in self.old) }
        requires half { IsHalfReading (D.universe provider.now) (notes_in self.old) }
        requires seen { Contains (notes_in self.old).seen candidate }
        ensures room { KeepsTrue (D.universe provider.now) self.old self.new }
        ensures reading { OnOk result (IsReadingOf (D.universe provider.now) chosen.now.keys (λ s. candidate ≡ s) (notes_in self.old) (notes_in self.new)) }
        ensures here { OnOk result (IsAvailable (D.universe provider.now) (cache_in self.old) candidate → Contains (notes_in self.new).read candidate) }
        ensures only { OnOk result ((IsAvailable (D.universe provider.now) (cache_in self.old) candidate → ⊥) → notes_in self.new ≡ notes_in self.old) }
        ensures more { OnOk result (IsMoreOrSame (notes_in self.old) (notes_in self.new)) }
        ensures refusal { IfErr result (IsStop (D.may_cancel provider.now) (IsFull (notes_in self.new))) }
    {
        if !self
            .cache
            .are_dependencies_available_for(provider, candidate)
        {
            return Ok(());
        }
        self.read_new(provider, chosen, candidate)?;
        Ok(())
    }

    /// Reads a candidate of a clause if its dependencies are available, unless it was read before.
    ///
    /// The candidate's package was asked for the sake of the clause, so its hints are known. `hintless` is the name of a package without
    /// hints, if one is known. Returns such a name.
    fn read_candidate<D: DependencyProvider<NameId = N, SolvableId = S>>(
        &mut self,
        provider: &D,
        chosen: &IndexSet<S>,
        hintless: Option<N>,
        candidate: S,
    ) -> Result<Option<N>, Interrupted<D::Cancel>>
        requires is_true { IsTrueCache (D.universe provider.now) (cache_in self.old) }
        requires half { IsHalfReading (D.universe provider.now) (notes_in self.old) }
        requires seen { Contains (notes_in self.old).seen candidate }
        requires hintless { IfSome hintless (HintsAtNone (D.universe provider.now)) }
        ensures room { KeepsTrue (D.universe provider.now) self.old self.new }
        ensures reading { OnOk result (IsReadingOf (D.universe provider.now) chosen.now.keys (λ s. candidate ≡ s) (notes_in self.old) (notes_in self.new)) }
        ensures here { OnOk result (IsHinted (D.universe provider.now) candidate → Contains (notes_in self.new).read candidate) }
        ensures hintless { IfOk result (λ next. IfSome next (HintsAtNone (D.universe provider.now))) }
        ensures more { OnOk result (IsMoreOrSame (notes_in self.old) (notes_in self.new)) }
        ensures refusal { IfErr result (IsStop (D.may_cancel provider.now) (IsFull (notes_in self.new))) }
    {
        let name = provider.solvable_name(candidate);
        if is_out_of_reach(&self.cache, hintless, name, candidate) {
            return Ok(hintless);
        }
        if is_among(&self.read, &candidate) {
            return Ok(hintless);
        }
        self.cache.fetch_candidates(provider, name)?;
        let next = without_hints(&self.cache, name);
        if is_out_of_reach(&self.cache, next, name, candidate) {
            return Ok(next);
        }
        self.read_if_at_hand(provider, chosen, candidate)?;
        Ok(next)
    }

    /// Reads those candidates of the clause at a place whose dependencies are available.
    fn read_candidates<D: DependencyProvider<NameId = N, SolvableId = S>>(
        &mut self,
        provider: &D,
        chosen: &IndexSet<S>,
        place: usize,
        candidates: &[S],
    ) -> Result<(), Interrupted<D::Cancel>>
        requires is_true { IsTrueCache (D.universe provider.now) (cache_in self.old) }
        requires half { IsHalfReading (D.universe provider.now) (notes_in self.old) }
        requires listed { candidates.now ≡ candidates_at (D.universe provider.now) (notes_in self.old) place }
        requires within { place < length (notes_in self.old).kinds }
        ensures room { KeepsTrue (D.universe provider.now) self.old self.new }
        ensures reading { OnOk result (IsHintedReading (D.universe provider.now) chosen.now.keys place (notes_in self.old) (notes_in self.new)) }
        ensures here { OnOk result (AreReadIfHinted (D.universe provider.now) (notes_in self.new) (candidates_at (D.universe provider.now) (notes_in self.new) place)) }
        ensures more { OnOk result (IsMoreOrSame (notes_in self.old) (notes_in self.new)) }
        ensures refusal { IfErr result (IsStop (D.may_cancel provider.now) (IsFull (notes_in self.new))) }
    {
        let mut hintless = None;
        for candidate in candidates {
            hintless = self.read_candidate(provider, chosen, hintless, *candidate)?;
        }
        Ok(())
    }

    /// Reads each candidate of the clause at a place whose dependencies are available.
    fn read_hinted_at<D: DependencyProvider<NameId = N, SolvableId = S>>(
        &mut self,
        provider: &D,
        chosen: &IndexSet<S>,
        place: usize,
    ) -> Result<(), Interrupted<D::Cancel>>
        requires is_true { IsTrueCache (D.universe provider.now) (cache_in self.old) }
        requires half { IsHalfReading (D.universe provider.now) (notes_in self.old) }
        requires within { place < length (notes_in self.old).kinds }
        ensures room { KeepsTrue (D.universe provider.now) self.old self.new }
        ensures reading { OnOk result (IsHintedReading (D.universe provider.now) chosen.now.keys place (notes_in self.old) (notes_in self.new)) }
        ensures here { OnOk result (AreReadIfHinted (D.universe provider.now) (notes_in self.new) (candidates_at (D.universe provider.now) (notes_in self.new) place)) }
        ensures more { OnOk result (IsMoreOrSame (notes_in self.old) (notes_in self.new)) }
        ensures refusal { IfErr result (IsStop (D.may_cancel provider.now) (IsFull (notes_in self.new))) }
    {
        let candidates = self.listed_candidates(provider, place)?;
        self.read_candidates(provider, chosen, place, &candidates)?;
        Ok(())
    }

    /// Reads each candidate of the clauses between two places whose dependencies are available.
    ///
    /// Returns whether any candidate was new.
    fn read_hinted_each<D: DependencyProvider<NameId = N, SolvableId = S>>(
        &mut self,
        provider: &D,
        chosen: &IndexSet<S>,
        from: usize,
        until: usize,
    ) -> Result<bool, Interrupted<D::Cancel>>
        requires is_true { IsTrueCache (D.universe provider.now) (cache_in self.old) }
        requires half { IsHalfReading (D.universe provider.now) (notes_in self.old) }
        requires within { until ≤ length (notes_in self.old).kinds }
        ensures room { KeepsTrue (D.universe provider.now) self.old self.new }
        ensures reading { OnOk result (IsHintedReading (D.universe provider.now) chosen.now.keys from (notes_in self.old) (notes_in self.new)) }
        ensures here { OnOk result (AreHintsReadTo (D.universe provider.now) from until (notes_in self.new)) }
        ensures any_new { IfOk result (HasRead (notes_in self.old) (notes_in self.new)) }
        ensures fit { OnOk result (length (notes_in self.new).read ≤ (notes_in self.new).variable_limit) }
        ensures refusal { IfErr result (IsStop (D.may_cancel provider.now) (IsFull (notes_in self.new))) }
    {
        let before = self.read.len();
        for place in from..until {
            self.read_hinted_at(provider, chosen, place)?;
        }
        self.table.variables.are_within_limit();
        if before < self.read.len() {
            return Ok(true);
        }
        Ok(false)
    }

    /// Reads each candidate of the clauses from a place on whose dependencies are available, and so on for
    /// the clauses that this adds.
    ///
    /// Clauses are taken in their order. Returns whether any candidate was new.
    pub(super) fn read_hinted<D: DependencyProvider<NameId = N, SolvableId = S>>(
        &mut self,
        provider: &D,
        chosen: &IndexSet<S>,
        from: usize,
    ) -> Result<bool, Interrupted<D::Cancel>>
        requires is_true { IsTrueCache (D.universe provider.now) (cache_in self.old) }
        requires half { IsHalfReading (D.universe provider.now) (notes_in self.old) }
        requires within { from ≤ length (notes_in self.old).kinds }
        ensures room { KeepsTrue (D.universe provider.now) self.old self.new }
        ensures reading { OnOk result (IsHintedReading (D.universe provider.now) chosen.now.keys from (notes_in self.old) (notes_in self.new)) }
        ensures here { OnOk result (AreHintsRead (D.universe provider.now) from (notes_in self.new)) }
        ensures any_new { IfOk result (HasRead (notes_in self.old) (notes_in self.new)) }
        ensures fit { OnOk result (length (notes_in self.new).read ≤ (notes_in self.new).variable_limit) }
        ensures refusal { IfErr result (IsStop (D.may_cancel provider.now) (IsFull (notes_in self.new))) }
    {
        let mut place = from;
        let mut any = false;
        'waves: loop {
            let until = self.clause_count();
            if !self.read_hinted_each(provider, chosen, place, until)? {
                return Ok(any);
            }
            any = true;
            place = until;
        }
    }
}
