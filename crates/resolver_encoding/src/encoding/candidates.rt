//! Registration of candidates, and their codes.

ghost use Rattle.std.specs.Prelude.{◌≡◌, ◌⊎◌, ◌<◌, ◌≤◌, ◌^◌, ℕ, All, Contains, IfErr, OnOk, ⊤};
ghost use Rattle.resolver_clause_store.specs.Laws.{IsIdentity};
ghost use Rattle.resolver_clause_store.specs.Variables.{AreFull, limit_in, origins_in};
ghost use Rattle.resolver_clause_store.specs.declared.ClauseKind.TheVariants.{Implies as ImpliesKind};
ghost use Rattle.resolver_clause_store.specs.declared.Helper.TheVariants.{Bit};
ghost use Rattle.resolver_clause_store.specs.declared.Origin.TheVariants.{Solvable};
ghost use Rattle.resolver_encoding.specs.Called.{IsSeeing, IsSeeingEach};
ghost use Rattle.resolver_encoding.specs.Codes.{bit};
ghost use Rattle.resolver_encoding.specs.Encodings.{Grows, IsFull, IsStepWhile, coding_for};
ghost use Rattle.resolver_encoding.specs.Groups.{IsAt};
ghost use Rattle.resolver_encoding.specs.Refusals.{IsShortage};
ghost use Rattle.resolver_encoding.specs.Steps.{CallsOnly, HasBegun};
ghost use Rattle.resolver_encoding.specs.Turns.{AddsPlainly};

use super::Encoding;
use crate::codes::{digit_count, has_digit, new_digit};
use resolver_clause_store::{
    ClauseKind, DependencyProvider, Exhausted, Helper, Interner, Origin, Variables, append,
    is_among,
};
use std::hash::Hash;

/// Gives each of the candidates a variable. The new ones are consecutive, so the clauses of the candidates take little
/// memory.
fn make_variables<N: Copy + Eq + Hash + Drop, S: Copy + Eq + Hash + Drop>(
    variables: &mut Variables<N, S>,
    candidates: &[S],
) -> Result<(), Exhausted>
    requires names { IsIdentity N.eq }
    requires solvables { IsIdentity S.eq }
    ensures limit { limit_in variables.new ≡ limit_in variables.old }
    ensures grows { Grows (origins_in variables.old) (origins_in variables.new) }
    ensures refusal { IfErr result (IsShortage (AreFull variables.new)) }
{
    for candidate in candidates {
        variables.intern(Origin::Solvable(*candidate))?;
    }
    Ok(())
}

impl<N: Copy + Eq + Hash + Drop, S: Copy + Eq + Hash + Drop> Encoding<N, S> {
    ghost use Rattle.resolver_encoding.specs.Notes.{KeepsRoom, notes_in};

    /// Adds a new digit to the codes of the solvables under a name, if the number is the first one that has it.
    fn begin_digit<D: DependencyProvider<NameId = N, SolvableId = S>>(
        &mut self,
        provider: &D,
        name: N,
        number: usize,
        solvable: S,
    ) -> Result<(), Exhausted>
        requires below { (k : ℕ) (t : S) → IsAt (notes_in self.old).groups name k t → k < number }
        ensures room { KeepsRoom self.old self.new }
        ensures step { OnOk result (IsStepWhile (D.universe provider.now) (coding_for name number solvable) (λ root. ⊤) (notes_in self.old)
            (notes_in self.new)) }
        ensures begun { OnOk result (HasBegun name number (notes_in self.old) (notes_in self.new)) }
        ensures groups { OnOk result ((notes_in self.new).groups ≡ (notes_in self.old).groups) }
        ensures plain { OnOk result (AddsPlainly (notes_in self.old) (notes_in self.new)) }
        ensures refusal { IfErr result (IsShortage (IsFull (notes_in self.new))) }
    {
        let Some(index) = new_digit(number) else {
            return Ok(());
        };
        let earlier = Vec::from_slice(self.alloc, self.groups.named(name))?;
        for other in &earlier {
            self.add(ClauseKind::Implies {
                candidate: *other,
                helper: Helper::Bit { name, index },
                value: false,
            })?;
        }
        Ok(())
    }

    /// Adds the clauses of a solvable's code, which is its number in binary.
    fn add_code<D: DependencyProvider<NameId = N, SolvableId = S>>(
        &mut self,
        provider: &D,
        name: N,
        number: usize,
        solvable: S,
    ) -> Result<(), Exhausted>
        requires name { name ≡ (D.universe provider.now).name solvable }
        ensures room { KeepsRoom self.old self.new }
        ensures step { OnOk result (IsStepWhile (D.universe provider.now) (coding_for name number solvable) (λ root. ⊤) (notes_in self.old)
            (notes_in self.new)) }
        ensures code { OnOk result ((i : ℕ) → 2 ^ i ≤ number → Contains (notes_in self.new).kinds (ImpliesKind solvable (Bit name i) (bit number i))) }
        ensures groups { OnOk result ((notes_in self.new).groups ≡ (notes_in self.old).groups) }
        ensures plain { OnOk result (AddsPlainly (notes_in self.old) (notes_in self.new)) }
        ensures refusal { IfErr result (IsShortage (IsFull (notes_in self.new))) }
    {
        for index in 0..digit_count(number) {
            let value = has_digit(number, index);
            self.add(ClauseKind::Implies {
                candidate: solvable,
                helper: Helper::Bit { name, index },
                value,
            })?;
        }
        Ok(())
    }

    /// Registers a new candidate: it gets a variable, a number under its name, and the clauses of its code.
    fn register_new<D: DependencyProvider<NameId = N, SolvableId = S>>(
        &mut self,
        provider: &D,
        solvable: S,
    ) -> Result<(), Exhausted>
        requires absent { Contains (notes_in self.old).seen solvable → ⊥ }
        ensures room { KeepsRoom self.old self.new }
        ensures step { OnOk result (CallsOnly (D.universe provider.now) (IsSeeing solvable) (notes_in self.old) (notes_in self.new)) }
        ensures seen { OnOk result (Contains (notes_in self.new).seen solvable) }
        ensures asked { OnOk result ((notes_in self.new).asked ≡ (notes_in self.old).asked) }
        ensures only { OnOk result ((t : S) → Contains (notes_in self.new).seen t → Contains (notes_in self.old).seen t ⊎ (t ≡ solvable)) }
        ensures plain { OnOk result (AddsPlainly (notes_in self.old) (notes_in self.new)) }
        ensures refusal { IfErr result (IsShortage (IsFull (notes_in self.new))) }
    {
        let name = provider.solvable_name(solvable);
        self.table.variables.intern(Origin::Solvable(solvable))?;
        let number = self.groups.named(name).len();
        self.begin_digit(provider, name, number, solvable)?;
        self.add_code(provider, name, number, solvable)?;
        self.groups.add(name, solvable)?;
        append(&mut self.seen, solvable)?;
        Ok(())
    }

    /// Registers a candidate, if it is new.
    pub(super) fn see<D: DependencyProvider<NameId = N, SolvableId = S>>(
        &mut self,
        provider: &D,
        solvable: S,
    ) -> Result<(), Exhausted>
        ensures room { KeepsRoom self.old self.new }
        ensures step { OnOk result (CallsOnly (D.universe provider.now) (IsSeeing solvable) (notes_in self.old) (notes_in self.new)) }
        ensures seen { OnOk result (Contains (notes_in self.new).seen solvable) }
        ensures asked { OnOk result ((notes_in self.new).asked ≡ (notes_in self.old).asked) }
        ensures only { OnOk result ((t : S) → Contains (notes_in self.new).seen t → Contains (notes_in self.old).seen t ⊎ (t ≡ solvable)) }
        ensures plain { OnOk result (AddsPlainly (notes_in self.old) (notes_in self.new)) }
        ensures refusal { IfErr result (IsShortage (IsFull (notes_in self.new))) }
    {
        if is_among(&self.seen, &solvable) {
            return Ok(());
        }
        self.register_new(provider, solvable)?;
        Ok(())
    }

    /// Registers each of the candidates.
    pub(super) fn see_all<D: DependencyProvider<NameId = N, SolvableId = S>>(
        &mut self,
        provider: &D,
        candidates: &[S],
    ) -> Result<(), Exhausted>
        ensures room { KeepsRoom self.old self.new }
        ensures step { OnOk result (CallsOnly (D.universe provider.now) (IsSeeingEach candidates.now) (notes_in self.old) (notes_in self.new)) }
        ensures seen { OnOk result (All (Contains (notes_in self.new).seen) candidates.now) }
        ensures refusal { IfErr result (IsShortage (IsFull (notes_in self.new))) }
    {
        make_variables(&mut self.table.variables, candidates)?;
        for candidate in candidates {
            self.see(provider, *candidate)?;
        }
        Ok(())
    }
}
