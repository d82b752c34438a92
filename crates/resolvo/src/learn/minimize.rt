//! Minimization: the literals of a learnt clause that its others imply.

ghost use Rattle.std.specs.Prelude.{◌≡◌, ◌<◌, IfSome, OnOk, Some, true};
ghost use Rattle.resolver_clause_store.specs.TrailView.{variable_count};
ghost use Rattle.resolvo.specs.Propagation.{IsJustified};
ghost use Rattle.resolver_clause_store.specs.Literals.{Literal};
ghost use Rattle.resolvo.specs.Resolvents.{AllBefore, IsReason, IsResolvent, IsSingle, IsResolved};

use super::clause::{literals_of, sort_by_age};
use super::resolve::{Resolvent, resolve};
use resolver_clause_store::{Clauses, Literal, Reason, Trail, Variable, clause};
use std::alloc::{AllocError, Global};

/// Returns the number of the clause that forced a variable, or `None` if none did.
fn forced_by(trail: &Trail, variable: Variable) -> Option<usize>
    requires { variable < variable_count trail.now }
    ensures { IfSome result (IsReason trail.now variable) }
{
    match trail.slot(variable) {
        Some(slot) => match slot.reason {
            Reason::Forced(number) => Some(number as usize),
            Reason::Decided(_) => None,
            Reason::Assumed => None,
        },
        None => None,
    }
}

/// Returns whether all variables of a clause but this one are marked.
fn are_others_marked(marks: &[bool], clause: &[Literal], variable: Variable) -> bool {
    clause.iter().all(|literal| {
        literal.variable() == variable || marks.get(literal.variable().index()) == Some(&true)
    })
}

/// Returns the number of the clause that forced a variable, if all its other variables are marked.
fn implied_by(table: &Clauses, trail: &Trail, marks: &[bool], variable: Variable) -> Option<usize>
    requires justified { IsJustified table.now trail.now }
    requires inside { variable < variable_count trail.now }
    ensures { IfSome result (IsReason trail.now variable) }
{
    match forced_by(trail, variable) {
        Some(number) => {
            if are_others_marked(marks, clause(table, number), variable) {
                return Some(number);
            }
            None
        }
        None => None,
    }
}

/// Resolves a variable away, if other marked variables imply it, unless it is the only one of the highest level.
fn drop_implied(
    table: &Clauses,
    trail: &Trail,
    resolvent: &mut Resolvent,
    variable: Variable,
) -> Result<(), AllocError>
    requires resolved { IsResolved table.now trail.now resolvent.old }
    requires some { 0 < resolvent.old.level }
    ensures resolved { OnOk result (IsResolved table.now trail.now resolvent.new) }
    ensures level { OnOk result (resolvent.new.level ≡ resolvent.old.level) }
    ensures lowest { OnOk result (resolvent.new.lowest ≡ resolvent.old.lowest) }
{
    if variable.index() >= trail.variable_count() {
        return Ok(());
    }
    if variable == trail.variable_at(resolvent.lowest) || !resolvent.marks[variable.index()] {
        return Ok(());
    }
    match implied_by(table, trail, resolvent.marks.as_slice(), variable) {
        Some(number) => {
            resolve(table, trail, resolvent, variable, number)?;
            Ok(())
        }
        None => Ok(()),
    }
}

/// Minimizes the clause: resolves the variables away that other marked ones imply, from the youngest on. The only one of the highest
/// level stays.
pub fn minimize(
    alloc: Global,
    table: &Clauses,
    trail: &Trail,
    resolvent: &mut Resolvent,
) -> Result<(), AllocError>
    requires { IsResolved table.now trail.now resolvent.old }
    ensures { OnOk result (IsResolved table.now trail.now resolvent.new) }
{
    if resolvent.level == 0 {
        return Ok(());
    }
    let mut literals = literals_of(
        alloc,
        trail,
        resolvent.marks.as_slice(),
        resolvent.marked.as_slice(),
    )?;
    sort_by_age(trail, &mut literals);
    'implied: for index in 0..literals.len() {
        drop_implied(table, trail, resolvent, literals[index].variable())?;
    }
    Ok(())
}
