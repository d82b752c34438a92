//! Conditions in disjunctive normal form.

ghost use Rattle.std.specs.Prelude.{◌≡◌, IfErr, IfOk, List, OnOk, map};
ghost use Rattle.resolver_clause_store.specs.Disjuncts.{HoldsAsSome, IsDisjunctive, IsPut};
ghost use Rattle.resolver_clause_store.specs.Universe.{Universe};
ghost use Rattle.resolver_clause_store.specs.declared.ids.ConditionId.{ConditionId};
ghost use Rattle.resolver_clause_store.specs.declared.ids.VersionSetId.{VersionSetId};

use crate::data::{Condition, Exhausted, LogicalOperator};
use crate::ids::{ConditionId, VersionSetId};
use crate::provider::Interner;
use std::alloc::Global;

/// An unfinished disjunct: the conditions that are still to be added, the next one last, and the version sets that it
/// has.
#[derive(Drop)]
struct Partial {
    pending: Vec<ConditionId>,
    chosen: Vec<VersionSetId>,
}

/// Resolves one condition of a disjunct by one step, and pushes the one or two disjuncts that result.
fn put<I: Interner>(
    alloc: Global,
    interner: &I,
    stack: &mut Vec<Partial>,
    mut partial: Partial,
    condition: ConditionId,
) -> Result<(), Exhausted>
    ensures closer { OnOk result (IsPut (I.universe interner.now) condition partial stack.old.items stack.new.items) }
    ensures memory { IfErr result (λ e. e ≡ Exhausted.Memory) }
{
    match interner.resolve_condition(condition) {
        Condition::Requirement(version_set) => {
            partial.chosen.push(version_set)?;
            stack.push(partial)?;
            Ok(())
        }
        Condition::Binary(LogicalOperator::And, left, right) => {
            partial.pending.push(right)?;
            partial.pending.push(left)?;
            stack.push(partial)?;
            Ok(())
        }
        Condition::Binary(LogicalOperator::Or, left, right) => {
            let mut other = Partial {
                pending: Vec::from_slice(alloc, &partial.pending)?,
                chosen: Vec::from_slice(alloc, &partial.chosen)?,
            };
            other.pending.push(right)?;
            stack.push(other)?;
            partial.pending.push(left)?;
            stack.push(partial)?;
            Ok(())
        }
    }
}

/// Converts a condition to disjunctive normal form.
///
/// The depth of the call stack does not depend on the condition.
pub fn convert_conditions_to_dnf<I: Interner>(
    alloc: Global,
    interner: &I,
    condition: ConditionId,
) -> Result<Vec<Vec<VersionSetId>>, Exhausted>
    ensures value { IfOk result (λ lists. IsDisjunctive (I.universe interner.now) condition (map (λ list. list.items) lists.items)) }
    ensures memory { IfErr result (λ e. e ≡ Exhausted.Memory) }
{
    let mut whole = Vec::new(alloc);
    whole.push(condition)?;
    let mut stack = Vec::new(alloc);
    stack.push(Partial {
        pending: whole,
        chosen: Vec::new(alloc),
    })?;
    let mut disjuncts = Vec::new(alloc);
    while let Some(mut partial) = stack.pop() {
        let Some(next) = partial.pending.pop() else {
            disjuncts.push(partial.chosen)?;
            continue;
        };
        put(alloc, interner, &mut stack, partial, next)?;
    }
    Ok(disjuncts)
}

pub fn a_condition_holds_where_a_disjunct_does<N, S>()
    ensures { (u : Universe N S) (c : ConditionId) (lists : List (List VersionSetId)) → IsDisjunctive u c lists → HoldsAsSome u c lists }
{}
