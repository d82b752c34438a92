//! The kinds of the clauses, and the requirement clauses among them.

ghost use Rattle.std.specs.Prelude.{◌≡◌, ◌∷◌, ◌++◌, [], OnErr, OnOk, length, map};
ghost use Rattle.resolver_encoding.specs.Values.{requirement_numbers};

use resolver_clause_store::{By, ClauseKind, Clauses, Literal, RequirementClause, narrow};
use std::alloc::{AllocError, Global};
use std::marker::Model;

/// The kinds of the clauses, by their numbers, and a list of the requirement clauses. In contracts, they are the list of
/// the kinds.
#[derive(Drop)]
pub(crate) struct Kinds<N: Drop, S: Drop> {
    kinds: Vec<ClauseKind<N, S>>,
    requirements: Vec<RequirementClause>,
}

impl<N: Drop, S: Drop> Model for Kinds<N, S> {
    ghost use Rattle.std.specs.Prelude.{◌≡◌, List, map};
    ghost use Rattle.resolver_clause_store.specs.declared.ClauseKind.{ClauseKind};
    ghost use Rattle.resolver_encoding.specs.Values.{requirement_numbers};

    ghost Value = { List (ClauseKind N S) };

    ghost view = { λ k. k.kinds.items };

    ghost invariant = { λ k. map (λ r. r.number) k.requirements.items ≡ requirement_numbers k.kinds.items };
}

/// Appends a kind and the literals of its clause. An error changes nothing.
fn push_clause<K: Drop>(
    kinds: &mut Vec<K>,
    clauses: &mut Clauses,
    kind: K,
    literals: &[Literal],
) -> Result<(), AllocError>
    ensures kinds { OnOk result (kinds.new.items ≡ kinds.old.items ++ kind ∷ []) }
    ensures clauses { OnOk result (clauses.new ≡ clauses.old ++ literals.now ∷ []) }
    ensures kinds_unchanged { OnErr result (kinds.new.items ≡ kinds.old.items) }
    ensures clauses_unchanged { OnErr result (clauses.new ≡ clauses.old) }
{
    kinds.push(kind)?;
    match clauses.push(literals) {
        Ok(()) => Ok(()),
        Err(e) => {
            kinds.pop();
            Err(e)
        }
    }
}

impl<N: Drop, S: Drop> Kinds<N, S> {
    /// Returns no kinds.
    pub(crate) fn new(alloc: Global) -> Self
        ensures { result ≡ [] }
    {
        Kinds {
            kinds: Vec::new(alloc),
            requirements: Vec::new(alloc),
        }
    }

    /// Appends the kind of a clause here, and its literals to the clauses. An error changes neither.
    pub(crate) fn push(
        &mut self,
        clauses: &mut Clauses,
        kind: ClauseKind<N, S>,
        literals: &[Literal],
        is_union: bool,
    ) -> Result<(), AllocError>
        ensures kinds { OnOk result (self.new ≡ self.old ++ kind ∷ []) }
        ensures clauses { OnOk result (clauses.new ≡ clauses.old ++ literals.now ∷ []) }
        ensures kinds_unchanged { OnErr result (self.new ≡ self.old) }
        ensures clauses_unchanged { OnErr result (clauses.new ≡ clauses.old) }
    {
        match &kind {
            ClauseKind::Requires { parent, .. } => {
                self.requirements.push(RequirementClause {
                    number: narrow(self.kinds.len())?,
                    of_root: matches!(parent, Some(By::Root)),
                    is_union,
                })?;
                match push_clause(&mut self.kinds, clauses, kind, literals) {
                    Ok(()) => Ok(()),
                    Err(e) => {
                        self.requirements.pop();
                        Err(e)
                    }
                }
            }
            _ => {
                push_clause(&mut self.kinds, clauses, kind, literals)?;
                Ok(())
            }
        }
    }

    /// Returns the kinds, by the numbers of their clauses.
    pub(crate) fn as_slice(&self) -> &[ClauseKind<N, S>]
        ensures { result.now ≡ self.now }
    {
        &self.kinds
    }

    /// Returns the requirement clauses, in the order of their numbers.
    pub(crate) fn requirements(&self) -> &[RequirementClause]
        ensures { map (λ r. r.number) result.now ≡ requirement_numbers self.now }
    {
        &self.requirements
    }
}
