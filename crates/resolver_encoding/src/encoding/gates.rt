//! Gates: one list of candidates for all solvables that have the same requirement.

ghost use Rattle.std.specs.Prelude.{◌≡◌, ◌<◌, ◌^◌, All, Contains, IfErr, OnOk, true, ⊤};
ghost use Rattle.resolver_clause_store.specs.Candidates.{requirement_candidates as candidates_of, version_sets};
ghost use Rattle.resolver_clause_store.specs.declared.ClauseKind.TheVariants.{Implies as ImpliesKind};
ghost use Rattle.resolver_clause_store.specs.declared.Helper.TheVariants.{Gate as GateHelper};
ghost use Rattle.resolver_encoding.specs.Encodings.{AreNamesAsked, HasPlainRequirement, IsFull, IsStep};
ghost use Rattle.resolver_encoding.specs.Refusals.{IsShortage};

use super::Encoding;
use crate::choices::Choices;
use resolver_clause_store::{
    ClauseKind, DependencyProvider, Exhausted, Helper, Requirement, append, is_among,
};
use std::hash::Hash;

impl<N: Copy + Eq + Hash + Drop, S: Copy + Eq + Hash + Drop> Encoding<N, S> {
    ghost use Rattle.resolver_encoding.specs.Notes.{KeepsRoom, notes_in};

    /// Makes the gate of a requirement, if it has none yet.
    pub(super) fn make_gate<D: DependencyProvider<NameId = N, SolvableId = S>>(
        &mut self,
        provider: &D,
        requirement: Requirement,
        choices: &Choices<S>,
    ) -> Result<(), Exhausted>
        requires candidates { choices.now.candidates.items ≡ candidates_of (D.universe provider.now) requirement }
        requires small { All (λ n. n < 2 ^ 63) choices.now.counts.items }
        requires asked { let u = D.universe provider.now in AreNamesAsked u (notes_in self.old) (version_sets u requirement) }
        requires seen { All (Contains (notes_in self.old).seen) choices.now.candidates.items }
        ensures room { KeepsRoom self.old self.new }
        ensures step { OnOk result (IsStep (D.universe provider.now) (λ root. ⊤) (notes_in self.old) (notes_in self.new)) }
        ensures gate { OnOk result (Contains (notes_in self.new).gates requirement) }
        ensures refusal { IfErr result (IsShortage (IsFull (notes_in self.new))) }
    {
        if is_among(&self.gates, &requirement) {
            return Ok(());
        }
        let none = Vec::new(self.alloc);
        let kind = ClauseKind::Requires {
            parent: None,
            disjunct: none,
            requirement,
        };
        self.add_with(kind, choices)?;
        append(&mut self.gates, requirement)?;
        Ok(())
    }

    /// Adds the clause by which a requirer implies the gate of its requirement.
    pub(super) fn imply_gate<D: DependencyProvider<NameId = N, SolvableId = S>>(
        &mut self,
        provider: &D,
        requirer: S,
        requirement: Requirement,
    ) -> Result<(), Exhausted>
        ensures room { KeepsRoom self.old self.new }
        ensures step { let u = D.universe provider.now in OnOk result
            (IsStep u (HasPlainRequirement u requirer requirement) (notes_in self.old) (notes_in self.new)) }
        ensures implied { OnOk result (Contains (notes_in self.new).kinds (ImpliesKind requirer (GateHelper requirement) true)) }
        ensures refusal { IfErr result (IsShortage (IsFull (notes_in self.new))) }
    {
        self.add(ClauseKind::Implies {
            candidate: requirer,
            helper: Helper::Gate(requirement),
            value: true,
        })?;
        Ok(())
    }
}
