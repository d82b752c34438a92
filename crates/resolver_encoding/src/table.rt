//! The table of clauses, each of which is added by its kind.

ghost use Rattle.std.specs.Prelude.{◌≡◌, ◌<◌, ◌≤◌, ◌^◌, ◌⊎◌, [], All, IfErr, OnErr, OnOk, map};
ghost use Rattle.resolver_clause_store.specs.Laws.{IsIdentity};
ghost use Rattle.resolver_clause_store.specs.Universe.{Universe};
ghost use Rattle.resolver_clause_store.specs.Variables.{AreFull};
ghost use Rattle.resolver_encoding.specs.Atoms.{wanted};
ghost use Rattle.resolver_encoding.specs.Encodings.{Grows};
ghost use Rattle.resolver_encoding.specs.Refusals.{IsShortage};
ghost use Rattle.resolver_encoding.specs.Tables.{HasAdded, IsTableFull, with_clause};
ghost use Rattle.resolver_encoding.specs.Values.{IsClauseOf, requirement_numbers};

use crate::choices::{Choices, places_behind};
use crate::kinds::Kinds;
use crate::literals::push_atoms;
use resolver_clause_store::{
    ClauseKind, Clauses, Exhausted, Literal, RequirementClause, UnionEnds, Variables, narrow,
};
use std::alloc::Global;
use std::hash::Hash;

/// The clauses, and the origin of each variable.
///
/// A clause is added by its kind alone, which determines its literals.
#[derive(Drop)]
pub(crate) struct ClauseTable<N: Copy + Eq + Hash + Drop, S: Copy + Eq + Hash + Drop> {
    alloc: Global,
    pub(crate) variables: Variables<N, S>,
    kinds: Kinds<N, S>,
    literals: Clauses,
    /// For the unions among the requirement clauses, by the numbers of the clauses.
    union_ends: UnionEnds,
    clause_limit: usize,
}

impl<N: Copy + Eq + Hash + Drop, S: Copy + Eq + Hash + Drop> ClauseTable<N, S> {
    ghost use Rattle.resolver_encoding.specs.Notes.{table_in};

    /// Creates an empty table with limits for its variables and its clauses.
    pub(crate) fn new(alloc: Global, variable_limit: usize, clause_limit: usize) -> Self
        requires { variable_limit ≤ 2 ^ 31 }
        ensures no_origins { (table_in result).origins ≡ [] }
        ensures no_literals { (table_in result).literals ≡ [] }
        ensures no_kinds { (table_in result).kinds ≡ [] }
        ensures variables { (table_in result).variable_limit ≡ variable_limit }
        ensures clauses { (table_in result).clause_limit ≡ clause_limit }
    {
        ClauseTable {
            alloc,
            variables: Variables::new(alloc, variable_limit),
            kinds: Kinds::new(alloc),
            literals: Clauses::new(alloc),
            union_ends: UnionEnds::new(alloc),
            clause_limit,
        }
    }

    /// Adds a clause, with the literals of its kind. Those of a requirement clause are made for the given candidates.
    ///
    /// An error leaves the table as it was, with one exception: if the variables reach their limit while the literals are
    /// made, the new variables stay, since `Ids` means that the table is full.
    pub(crate) fn add(
        &mut self,
        kind: ClauseKind<N, S>,
        choices: &Choices<S>,
    ) -> Result<(), Exhausted>
        requires names { IsIdentity N.eq }
        requires solvables { IsIdentity S.eq }
        requires small { All (λ n. n < 2 ^ 63) choices.now.counts.items }
        ensures added { OnOk result ((u : Universe N S) → choices.now.candidates.items ≡ wanted u kind →
            HasAdded u kind (table_in self.old) (table_in self.new)) }
        ensures clauses_unchanged { OnErr result (table_in self.new ≡ record (table_in self.old) { origins = (table_in self.new).origins }) }
        ensures unchanged { IfErr result (λ e. (table_in self.new ≡ table_in self.old) ⊎ ((e ≡ Exhausted.Ids) × AreFull self.new.variables)) }
        ensures variables { (table_in self.new).variable_limit ≡ (table_in self.old).variable_limit }
        ensures clauses { (table_in self.new).clause_limit ≡ (table_in self.old).clause_limit }
        ensures refusal { IfErr result (IsShortage (IsTableFull (table_in self.new))) }
    {
        if self.kinds().len() == self.clause_limit {
            return Err(Exhausted::Ids);
        }
        let count = self.variables.len();
        match self.add_below_limit(kind, choices) {
            Ok(()) => Ok(()),
            Err(Exhausted::Ids) => Err(Exhausted::Ids),
            Err(Exhausted::Memory) => {
                self.variables.truncate(count);
                Err(Exhausted::Memory)
            }
        }
    }

    /// Adds a clause to a table below its limit of clauses. An error may leave variables that no clause has.
    fn add_below_limit(
        &mut self,
        kind: ClauseKind<N, S>,
        choices: &Choices<S>,
    ) -> Result<(), Exhausted>
        requires names { IsIdentity N.eq }
        requires solvables { IsIdentity S.eq }
        requires small { All (λ n. n < 2 ^ 63) choices.now.counts.items }
        ensures grows { Grows (table_in self.old).origins (table_in self.new).origins }
        ensures added { OnOk result ((u : Universe N S) → choices.now.candidates.items ≡ wanted u kind →
            HasAdded u kind (table_in self.old) (table_in self.new)) }
        ensures unchanged { OnErr result (table_in self.new ≡ record (table_in self.old) { origins = (table_in self.new).origins }) }
        ensures variables { (table_in self.new).variable_limit ≡ (table_in self.old).variable_limit }
        ensures clauses { (table_in self.new).clause_limit ≡ (table_in self.old).clause_limit }
        ensures refusal { IfErr result (IsShortage (AreFull self.new.variables)) }
    {
        let mut literals = Vec::new(self.alloc);
        let ends = self.push_literals(&kind, choices, &mut literals)?;
        self.put(kind, &literals, ends)?;
        Ok(())
    }

    /// Appends the literals of a clause to an empty list. Returns the place after the candidates of each version set.
    fn push_literals(
        &mut self,
        kind: &ClauseKind<N, S>,
        choices: &Choices<S>,
        literals: &mut Vec<Literal>,
    ) -> Result<Vec<usize>, Exhausted>
        requires names { IsIdentity N.eq }
        requires solvables { IsIdentity S.eq }
        requires small { All (λ n. n < 2 ^ 63) choices.now.counts.items }
        requires empty { literals.old.items ≡ [] }
        ensures grows { Grows (table_in self.old).origins (table_in self.new).origins }
        ensures table { table_in self.new ≡ record (table_in self.old) { origins = (table_in self.new).origins } }
        ensures clause { OnOk result ((u : Universe N S) → choices.now.candidates.items ≡ wanted u kind.now →
            IsClauseOf u (table_in self.new).origins literals.new.items kind.now) }
        ensures refusal { IfErr result (IsShortage (AreFull self.new.variables)) }
    {
        literals.reserve_exact(choices.candidates.len().saturating_add(2))?;
        push_atoms(&mut self.variables, literals, kind, &choices.candidates)?;
        let start = literals.len().saturating_sub(choices.candidates.len());
        let ends = places_behind(self.alloc, start, &choices.counts)?;
        Ok(ends)
    }

    /// Appends a clause with its literals. An error leaves the clauses as they were.
    fn put(
        &mut self,
        kind: ClauseKind<N, S>,
        literals: &[Literal],
        ends: Vec<usize>,
    ) -> Result<(), Exhausted>
        ensures added { OnOk result (table_in self.new ≡ with_clause kind literals.now (table_in self.old)) }
        ensures unchanged { OnErr result (table_in self.new ≡ table_in self.old) }
        ensures variables { self.new.variables ≡ self.old.variables }
        ensures memory { IfErr result (λ e. e ≡ Exhausted.Memory) }
    {
        let is_union = !ends.is_empty();
        if is_union {
            let number = narrow(self.kinds().len())?;
            self.union_ends.note(number, ends)?;
        }
        self.kinds
            .push(&mut self.literals, kind, literals, is_union)?;
        Ok(())
    }

    /// Returns the kinds of the clauses, by their numbers.
    pub(crate) fn kinds(&self) -> &[ClauseKind<N, S>]
        ensures { result.now ≡ (table_in self.now).kinds }
    {
        self.kinds.as_slice()
    }

    /// Returns the literals of the clauses, by their numbers.
    pub(crate) fn literals(&self) -> &Clauses
        ensures { result.now ≡ (table_in self.now).literals }
    {
        &self.literals
    }

    /// Returns the requirement clauses, in the order of their numbers.
    pub(crate) fn requirements(&self) -> &[RequirementClause]
        ensures { map (λ r. r.number) result.now ≡ requirement_numbers (table_in self.now).kinds }
    {
        self.kinds.requirements()
    }

    /// Returns the places where the candidates of each version set end, for the unions among the requirement clauses, by
    /// the numbers of the clauses.
    pub(crate) fn union_ends(&self) -> &UnionEnds
        ensures { result.now ≡ self.now.union_ends }
    {
        &self.union_ends
    }
}
