//! Clauses of requirements.

ghost use Rattle.std.specs.Prelude.{◌≡◌, ◌<◌, ◌^◌, [], All, Contains, IfErr, IfOk, IfSome, None, OnOk, Some};
ghost use Rattle.resolver_clause_store.specs.Caches.{IsTrueCache};
ghost use Rattle.resolver_clause_store.specs.Candidates.{requirement_candidates as candidates_of, version_sets};
ghost use Rattle.resolver_clause_store.specs.Variables.{AreDistinct};
ghost use Rattle.resolver_clause_store.specs.declared.By.TheVariants.{Solvable as BySolvable};
ghost use Rattle.resolver_clause_store.specs.declared.ClauseKind.TheVariants.{Requires as RequiresKind};
ghost use Rattle.resolver_encoding.specs.Called.{IsWantedBy};
ghost use Rattle.resolver_encoding.specs.Encodings.{AreNamesAsked, HasPlainRequirement, HasRequirement, IsEncodingOf, IsEntryRead, IsFull};
ghost use Rattle.resolver_encoding.specs.Encodings.{IsLeft, IsStep, IsTrueUnder};
ghost use Rattle.resolver_encoding.specs.ReadState.{HasClause, IsReadRequirement};
ghost use Rattle.resolver_encoding.specs.Refusals.{IsStop};
ghost use Rattle.resolver_encoding.specs.Steps.{CallsOnly, IsDisjunctStep, IsEntryStep, IsPlainStep, IsRequirementStep};

use super::Encoding;
use crate::choices::{Choices, choices_of};
use crate::disjuncts::{Entry, disjuncts_of, is_met, without_repeats};
use indexmap::IndexSet;
use resolver_clause_store::{
    By, ClauseKind, ConditionId, ConditionalRequirement, DependencyProvider, Interner, Interrupted,
    Requirement, is_among,
};
use std::hash::Hash;

/// A requirement that a solvable has without a condition gets a gate if it has at least this many candidates.
const GATE_THRESHOLD: usize = 4;

/// Returns the solvable whose requirement may have a gate. Requirements of the root, and those with a condition, have
/// none.
fn plain_requirer<S: Copy>(by: By<S>, condition: Option<ConditionId>) -> Option<S>
    ensures { IfSome result (λ s. (by ≡ BySolvable s) × (condition ≡ None)) }
{
    match condition {
        Some(_) => None,
        None => match by {
            By::Root => None,
            By::Solvable(requirer) => Some(requirer),
        },
    }
}

impl<N: Copy + Eq + Hash + Drop, S: Copy + Eq + Hash + Drop> Encoding<N, S> {
    ghost use Rattle.resolver_encoding.specs.Notes.{KeepsTrue, cache_in, entry_of, notes_in};

    /// Encodes a requirement under a disjunct of its condition, with candidates that are registered.
    #[inline(always)]
    fn encode_choices<D: DependencyProvider<NameId = N, SolvableId = S>>(
        &mut self,
        provider: &D,
        entry: Entry<S>,
        choices: &Choices<S>,
    ) -> Result<(), Interrupted<D::Cancel>>
        requires is_true { IsTrueCache (D.universe provider.now) (cache_in self.old) }
        requires candidates { choices.now.candidates.items ≡ candidates_of (D.universe provider.now) entry.requirement }
        requires small { All (λ n. n < 2 ^ 63) choices.now.counts.items }
        requires asked { let u = D.universe provider.now in AreNamesAsked u (notes_in self.old) (version_sets u entry.requirement) }
        requires seen { All (Contains (notes_in self.old).seen) choices.now.candidates.items }
        requires once { AreDistinct entry.disjunct.items }
        ensures room { KeepsTrue (D.universe provider.now) self.old self.new }
        ensures step { let u = D.universe provider.now in OnOk result
            (IsStep u (IsTrueUnder u (entry_of entry)) (notes_in self.old) (notes_in self.new)) }
        ensures read { OnOk result (Contains (notes_in self.new).kinds (RequiresKind (Some entry.by) entry.disjunct entry.requirement)) }
        ensures refusal { IfErr result (IsStop (D.may_cancel provider.now) (IsFull (notes_in self.new))) }
    {
        self.help_each(provider, &entry.disjunct)?;
        let Entry {
            by,
            disjunct,
            requirement,
        } = entry;
        let kind = ClauseKind::Requires {
            parent: Some(by),
            disjunct,
            requirement,
        };
        self.add_with(kind, choices)?;
        Ok(())
    }

    /// Asks the packages of a requirement, registers its candidates and returns them.
    fn choose<D: DependencyProvider<NameId = N, SolvableId = S>>(
        &mut self,
        provider: &D,
        requirement: Requirement,
    ) -> Result<Choices<S>, Interrupted<D::Cancel>>
        requires is_true { IsTrueCache (D.universe provider.now) (cache_in self.old) }
        ensures room { KeepsTrue (D.universe provider.now) self.old self.new }
        ensures candidates { IfOk result (λ choices. choices.candidates.items ≡ candidates_of (D.universe provider.now) requirement) }
        ensures small { IfOk result (λ choices. All (λ n. n < 2 ^ 63) choices.counts.items) }
        ensures step { let u = D.universe provider.now in OnOk result (CallsOnly u (IsWantedBy u requirement) (notes_in self.old) (notes_in self.new)) }
        ensures asked { let u = D.universe provider.now in OnOk result (AreNamesAsked u (notes_in self.new) (version_sets u requirement)) }
        ensures seen { IfOk result (λ choices. All (Contains (notes_in self.new).seen) choices.candidates.items) }
        ensures refusal { IfErr result (IsStop (D.may_cancel provider.now) (IsFull (notes_in self.new))) }
    {
        self.ask_named(provider, requirement)?;
        let choices = choices_of(self.alloc, provider, &mut self.cache, requirement)?;
        self.see_all(provider, &choices.candidates)?;
        Ok(choices)
    }

    /// Asks the packages of a requirement, and encodes it under a disjunct of its condition.
    pub(super) fn encode_disjunct<D: DependencyProvider<NameId = N, SolvableId = S>>(
        &mut self,
        provider: &D,
        entry: Entry<S>,
    ) -> Result<(), Interrupted<D::Cancel>>
        requires is_true { IsTrueCache (D.universe provider.now) (cache_in self.old) }
        requires once { AreDistinct entry.disjunct.items }
        ensures room { KeepsTrue (D.universe provider.now) self.old self.new }
        ensures step { OnOk result (IsEntryStep (D.universe provider.now) (entry_of entry) (notes_in self.old) (notes_in self.new)) }
        ensures read { OnOk result (HasClause (notes_in self.new).kinds entry.by entry.disjunct.items entry.requirement) }
        ensures refusal { IfErr result (IsStop (D.may_cancel provider.now) (IsFull (notes_in self.new))) }
    {
        let choices = self.choose(provider, entry.requirement)?;
        self.encode_choices(provider, entry, &choices)?;
        Ok(())
    }

    /// Encodes a requirement under a disjunct of its condition if that is met in the chosen set, and defers the
    /// disjunct otherwise.
    fn read_disjunct<D: DependencyProvider<NameId = N, SolvableId = S>>(
        &mut self,
        provider: &D,
        chosen: &IndexSet<S>,
        entry: Entry<S>,
    ) -> Result<(), Interrupted<D::Cancel>>
        requires is_true { IsTrueCache (D.universe provider.now) (cache_in self.old) }
        requires once { AreDistinct entry.disjunct.items }
        ensures room { KeepsTrue (D.universe provider.now) self.old self.new }
        ensures step { OnOk result
            (IsDisjunctStep (D.universe provider.now) chosen.now.keys (entry_of entry) (notes_in self.old) (notes_in self.new)) }
        ensures read { OnOk result (IsEntryRead (notes_in self.new) (entry_of entry)) }
        ensures refusal { IfErr result (IsStop (D.may_cancel provider.now) (IsFull (notes_in self.new))) }
    {
        let met = is_met(provider, &mut self.cache, chosen, &entry.disjunct)?;
        if met {
            self.encode_disjunct(provider, entry)?;
            return Ok(());
        }
        self.defer(provider, entry)?;
        Ok(())
    }

    /// Reads a requirement under each disjunct of its condition, without a gate.
    fn read_direct<D: DependencyProvider<NameId = N, SolvableId = S>>(
        &mut self,
        provider: &D,
        chosen: &IndexSet<S>,
        by: By<S>,
        requirement: ConditionalRequirement,
    ) -> Result<(), Interrupted<D::Cancel>>
        requires is_true { IsTrueCache (D.universe provider.now) (cache_in self.old) }
        ensures room { KeepsTrue (D.universe provider.now) self.old self.new }
        ensures step { OnOk result
            (IsRequirementStep (D.universe provider.now) chosen.now.keys by requirement (notes_in self.old) (notes_in self.new)) }
        ensures read { OnOk result (IsReadRequirement (D.universe provider.now) (notes_in self.new).kinds (IsLeft (notes_in self.new)) by requirement) }
        ensures refusal { IfErr result (IsStop (D.may_cancel provider.now) (IsFull (notes_in self.new))) }
    {
        let disjuncts = disjuncts_of(self.alloc, provider, requirement.condition)?;
        for list in &disjuncts {
            let disjunct = without_repeats(self.alloc, list)?;
            let entry = Entry {
                by,
                disjunct,
                requirement: requirement.requirement,
            };
            self.read_disjunct(provider, chosen, entry)?;
        }
        Ok(())
    }

    /// Reads a requirement that a solvable has without a condition, by a gate if there are many candidates.
    fn read_plain<D: DependencyProvider<NameId = N, SolvableId = S>>(
        &mut self,
        provider: &D,
        requirer: S,
        requirement: Requirement,
    ) -> Result<(), Interrupted<D::Cancel>>
        requires is_true { IsTrueCache (D.universe provider.now) (cache_in self.old) }
        requires encoding { let u = D.universe provider.now in IsEncodingOf u (HasPlainRequirement u requirer requirement) (notes_in self.old) }
        ensures room { KeepsTrue (D.universe provider.now) self.old self.new }
        ensures step { OnOk result (IsPlainStep (D.universe provider.now) requirer requirement (notes_in self.old) (notes_in self.new)) }
        ensures read { OnOk result (HasClause (notes_in self.new).kinds (BySolvable requirer) [] requirement) }
        ensures refusal { IfErr result (IsStop (D.may_cancel provider.now) (IsFull (notes_in self.new))) }
    {
        if is_among(&self.gates, &requirement) {
            self.imply_gate(provider, requirer, requirement)?;
            return Ok(());
        }
        let choices = self.choose(provider, requirement)?;
        if choices.candidates.len() < GATE_THRESHOLD {
            let none = Vec::new(self.alloc);
            let entry = Entry {
                by: By::Solvable(requirer),
                disjunct: none,
                requirement,
            };
            self.encode_choices(provider, entry, &choices)?;
            return Ok(());
        }
        self.make_gate(provider, requirement, &choices)?;
        self.imply_gate(provider, requirer, requirement)?;
        Ok(())
    }

    /// Reads a requirement of the root or of a solvable: adds its clauses, and defers the disjuncts that are not met.
    pub(super) fn read_requirement<D: DependencyProvider<NameId = N, SolvableId = S>>(
        &mut self,
        provider: &D,
        chosen: &IndexSet<S>,
        by: By<S>,
        requirement: ConditionalRequirement,
    ) -> Result<(), Interrupted<D::Cancel>>
        requires is_true { IsTrueCache (D.universe provider.now) (cache_in self.old) }
        requires encoding { IsEncodingOf (D.universe provider.now) (HasRequirement (D.universe provider.now) by requirement) (notes_in self.old) }
        ensures room { KeepsTrue (D.universe provider.now) self.old self.new }
        ensures step { OnOk result
            (IsRequirementStep (D.universe provider.now) chosen.now.keys by requirement (notes_in self.old) (notes_in self.new)) }
        ensures read { OnOk result (IsReadRequirement (D.universe provider.now) (notes_in self.new).kinds (IsLeft (notes_in self.new)) by requirement) }
        ensures refusal { IfErr result (IsStop (D.may_cancel provider.now) (IsFull (notes_in self.new))) }
    {
        match plain_requirer(by, requirement.condition) {
            Some(requirer) => {
                self.read_plain(provider, requirer, requirement.requirement)?;
                Ok(())
            }
            None => {
                self.read_direct(provider, chosen, by, requirement)?;
                Ok(())
            }
        }
    }
}
