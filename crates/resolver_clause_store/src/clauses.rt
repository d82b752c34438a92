//! Clauses by number, and requirement clauses.

ghost use Rattle.std.specs.Prelude.{◌<◌, ◌≡◌, ◌≤◌, ◌∷◌, ◌++◌, [], OnErr, OnOk, length, slice_index_or, slice_range};
ghost use Rattle.resolver_clause_store.specs.Formula.{clause_at};

use crate::literals::Literal;
use crate::numbers::narrow;
use std::alloc::{AllocError, Global};
use std::marker::Model;

/// A clause that states a requirement: the negations of the literals that it depends on, followed by the candidates in
/// the order in which they are tried.
#[derive(Clone, Copy)]
pub struct RequirementClause {
    /// The clause's number.
    pub number: u32,
    /// Whether the requirement is one of the root.
    pub of_root: bool,
    /// Whether the requirement is a union of version sets.
    pub is_union: bool,
}

/// A requirement clause, as a search stores it.
#[derive(Clone, Copy)]
pub struct StoredRequirement {
    /// The clause's place in the search's table.
    pub number: u32,
    /// Whether the requirement is one of the root.
    pub of_root: bool,
}

/// Clauses by number. In contracts, they are the list of the clauses' literals.
///
/// The literals lie one behind another in one list, so a clause takes four bytes for each literal and four for itself.
#[derive(Drop)]
pub struct Clauses {
    literals: Vec<Literal>,
    /// For each clause, the place after its literals.
    ends: Vec<u32>,
}

impl Model for Clauses {
    ghost use Rattle.std.specs.Prelude.{List, length};
    ghost use Rattle.resolver_clause_store.specs.Literals.{Literal};
    ghost use Rattle.resolver_clause_store.specs.Clauses.{AreEnds, between};

    ghost Value = { List (List Literal) };

    ghost view = { λ c. between 0 c.ends.items c.literals.items };

    ghost invariant = { λ c. AreEnds 0 c.ends.items (length c.literals.items) };
}

/// Returns the place of a clause's first literal.
fn first_place(ends: &[u32], number: usize) -> usize
    requires { number < length ends.now }
    ensures { result ≡ slice_index_or (0 ∷ ends.now) number 0 }
{
    if number == 0 {
        return 0;
    }
    ends[number - 1] as usize
}

/// Returns the literals between two places.
fn part(literals: &[Literal], start: usize, end: usize) -> &[Literal]
    requires in_order { start ≤ end }
    requires inside { end ≤ length literals.now }
    ensures { result.now ≡ slice_range literals.now start end }
{
    &literals[start..end]
}

/// Appends an end.
fn push_end(ends: &mut Vec<u32>, end: usize) -> Result<(), AllocError>
    ensures items { OnOk result (ends.new.items ≡ ends.old.items ++ end ∷ []) }
    ensures unchanged { OnErr result (ends.new.items ≡ ends.old.items) }
{
    let end = narrow(end)?;
    ends.push(end)?;
    Ok(())
}

impl Clauses {
    /// Returns no clauses.
    pub fn new(alloc: Global) -> Self
        ensures { result ≡ [] }
    {
        Clauses {
            literals: Vec::new(alloc),
            ends: Vec::new(alloc),
        }
    }

    /// Returns the number of clauses.
    pub fn len(&self) -> usize
        ensures { result ≡ length self.now }
    {
        self.ends.len()
    }

    /// Appends a clause with these literals. An error changes nothing.
    ///
    /// If all clauses together had 2^32 literals or more, the call is refused as for lack of memory.
    #[inline(always)]
    pub fn push(&mut self, literals: &[Literal]) -> Result<(), AllocError>
        ensures items { OnOk result (self.new ≡ self.old ++ literals.now ∷ []) }
        ensures unchanged { OnErr result (self.new ≡ self.old) }
    {
        let count = self.literals.len();
        self.literals.extend_from_slice(literals)?;
        match push_end(&mut self.ends, self.literals.len()) {
            Ok(()) => Ok(()),
            Err(e) => {
                self.literals.truncate(count);
                Err(e)
            }
        }
    }
}

/// Returns the literals of the clause with this number.
pub fn clause(clauses: &Clauses, number: usize) -> &[Literal]
    requires { number < length clauses.now }
    ensures { result.now ≡ clause_at clauses.now number }
{
    part(
        &clauses.literals,
        first_place(&clauses.ends, number),
        clauses.ends[number] as usize,
    )
}
