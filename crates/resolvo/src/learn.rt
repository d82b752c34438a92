//! Conflict analysis: learns a clause from a conflict.

mod clause;
mod minimize;
mod resolve;

ghost use Rattle.std.specs.Prelude.{IfOk, false};
ghost use Rattle.resolver_clause_store.specs.Formula.{AreBelow};
ghost use Rattle.resolver_clause_store.specs.TrailView.{variable_at, variable_count};
ghost use Rattle.resolvo.specs.Propagation.{IsConflict, IsJustified};
ghost use Rattle.resolvo.specs.Resolvents.{AnalysisIs};

pub use clause::{Learnt, asserted_level};
use clause::{backtrack_level, literals_of, negation_of, sort_by_age};
use minimize::minimize;
pub use resolve::{BlankMarks, highest_level};
use resolve::{begin, resolve_level, unmark_all};
use resolver_clause_store::{Clauses, Trail};
use std::alloc::{AllocError, Global};

/// The result of an analysis.
#[derive(Drop)]
pub enum Analysis {
    /// The clauses with these numbers are an unsatisfiable core.
    Contradiction(Vec<usize>),
    /// A clause that follows from others.
    Clause(Learnt),
}

/// Analyzes a false clause: learns a clause from it that follows from others, is false, and has only one literal of its
/// highest level; or, if it is false at level 0, finds an unsatisfiable core.
pub fn analyze(
    alloc: Global,
    marks: &mut BlankMarks,
    table: &Clauses,
    trail: &Trail,
    number: usize,
) -> Result<Analysis, AllocError>
    requires below { AreBelow (variable_count trail.now) table.now }
    requires justified { IsJustified table.now trail.now }
    requires conflict { IsConflict trail.now table.now number }
    ensures { IfOk result (AnalysisIs table.now trail.now) }
{
    let blank = marks.take(alloc, trail.variable_count())?;
    let mut resolvent = begin(alloc, blank, table, trail, number)?;
    resolve_level(table, trail, &mut resolvent)?;
    minimize(alloc, table, trail, &mut resolvent)?;
    let mut literals = literals_of(
        alloc,
        trail,
        resolvent.marks.as_slice(),
        resolvent.marked.as_slice(),
    )?;
    sort_by_age(trail, &mut literals);
    unmark_all(&mut resolvent.marks, resolvent.marked.as_slice());
    marks.put(resolvent.marks);
    if resolvent.level == 0 {
        return Ok(Analysis::Contradiction(resolvent.causes));
    }
    let variable = trail.variable_at(resolvent.lowest);
    let backtrack_level = backtrack_level(trail, literals.as_slice(), variable);
    let literal = negation_of(trail, variable);
    Ok(Analysis::Clause(Learnt {
        literals,
        causes: resolvent.causes,
        literal,
        backtrack_level,
    }))
}
