//! When a search restarts, and which levels it keeps.

ghost use Rattle.std.specs.Prelude.{◌<◌, length};
ghost use Rattle.resolver_clause_store.specs.Formula.{clause_at};

use crate::tuning::RESTART_LEVELS;
use resolver_clause_store::{
    Choice, Clauses, DecideQueue, Literal, Reason, StoredRequirement, Trail, Variable, clause,
};

/// Returns whether a restart is due: after each second learnt clause, in a search of few levels.
pub fn is_due(learnt: usize, levels: usize) -> bool {
    learnt % 2 == 0 && levels <= RESTART_LEVELS
}

/// What decides which of two requirements comes first, before their candidates are counted.
#[derive(Clone, Copy)]
pub struct Precedence {
    of_root: bool,
    score: u64,
}

impl Precedence {
    /// Returns whether this comes before another one.
    fn is_before(&self, other: &Precedence) -> bool {
        if self.of_root != other.of_root {
            return self.of_root;
        }
        other.score < self.score
    }
}

/// Returns whether a requirement clause is about the root: whether it begins as that of the first requirement, and that is of the root.
fn is_of_root(table: &Clauses, requirements: &[StoredRequirement], number: usize) -> bool {
    match requirements.first() {
        Some(first) => first.of_root
            && first_literal(table, number) == first_literal(table, first.number as usize),
        None => false,
    }
}

/// Returns the first literal of the clause with this number, if there is one.
fn first_literal(table: &Clauses, number: usize) -> Option<Literal> {
    if number >= table.len() {
        return None;
    }
    match clause(table, number).first() {
        Some(literal) => Some(*literal),
        None => None,
    }
}

/// Returns the precedence that a decision for a requirement clause would have now.
fn precedence_of(
    table: &Clauses,
    requirements: &[StoredRequirement],
    queue: &DecideQueue,
    variable: Variable,
    number: usize,
) -> Precedence {
    Precedence {
        of_root: is_of_root(table, requirements, number),
        score: queue.score_of(variable),
    }
}

/// Returns the level below the first decision from a place on that would now come after a choice, or the highest level
/// if there is none.
pub fn kept_level(
    trail: &Trail,
    table: &Clauses,
    requirements: &[StoredRequirement],
    queue: &DecideQueue,
    from: usize,
    choice: Choice,
) -> usize
    requires inside { choice.number < length table.now }
    requires place { choice.place < length (clause_at table.now choice.number) }
{
    let candidate = clause(table, choice.number)[choice.place].variable();
    let next = precedence_of(table, requirements, queue, candidate, choice.number);
    'places: for place in from..trail.len() {
        let variable = trail.variable_at(place);
        if let Some(slot) = trail.slot(variable)
            && let Reason::Decided(number) = slot.reason
        {
            let decided = precedence_of(table, requirements, queue, variable, number as usize);
            if next.is_before(&decided) {
                return (slot.level as usize).saturating_sub(1);
            }
        }
    }
    trail.level()
}

#[cfg(test)]
mod tests;
