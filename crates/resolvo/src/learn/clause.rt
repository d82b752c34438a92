//! Learnt clauses: their literals, and the level to go back to.

ghost use Rattle.std.specs.List.Sorted.{IsNonDecreasingBy, IsPermutation};
ghost use Rattle.std.specs.Prelude.{◌≡◌, ◌≢◌, ◌⊎◌, ◌<◌, ◌≤◌, length, All, Any, IfOk, OnOk, Some, false, not};
ghost use Rattle.resolver_clause_store.specs.Formula.{IsBelow};
ghost use Rattle.resolver_clause_store.specs.TrailView.{slot_of, variable_count};
ghost use Rattle.resolver_clause_store.specs.declared.Slot.{Slot};
ghost use Rattle.resolver_clause_store.specs.Literals.{Literal};
ghost use Rattle.resolvo.specs.Resolvents.{AddsNegation, ListsMarks, age_in};
ghost use Rattle.resolvo.specs.Resolvents.{Negates, level_in};

use super::resolve::level_at;
use resolver_clause_store::{Literal, Trail, Variable};
use std::alloc::{AllocError, Global};

/// A learnt clause.
#[derive(Drop)]
pub struct Learnt {
    pub literals: Vec<Literal>,
    pub causes: Vec<usize>,
    /// The asserting literal: the only one of the highest level, if the clause has literals.
    pub literal: Literal,
    /// The backtrack level: the highest level of the other literals, or 0 if there are none.
    pub backtrack_level: usize,
}

/// Appends the literal of a variable that is false, if the variable is marked and has a value.
pub fn add_negation(
    literals: &mut Vec<Literal>,
    trail: &Trail,
    marks: &[bool],
    variable: Variable,
) -> Result<(), AllocError>
    requires inside { variable < variable_count trail.now }
    requires size { length marks.now ≡ variable_count trail.now }
    ensures { OnOk result (AddsNegation trail.now marks.now variable literals.old.items literals.new.items) }
{
    if !marks[variable.index()] {
        return Ok(());
    }
    match trail.slot(variable) {
        Some(slot) => {
            literals.push(Literal::new(variable, !slot.value))?;
            Ok(())
        }
        None => Ok(()),
    }
}

/// Returns the literals of the listed variables that are marked, each false on the trail.
pub fn literals_of(
    alloc: Global,
    trail: &Trail,
    marks: &[bool],
    marked: &[Variable],
) -> Result<Vec<Literal>, AllocError>
    requires size { length marks.now ≡ variable_count trail.now }
    requires listed { ListsMarks marks.now marked.now }
    ensures { IfOk result (λ literals. Negates trail.now marks.now literals.items) }
{
    let mut literals = Vec::new(alloc);
    'variables: for variable in marked {
        add_negation(&mut literals, trail, marks, *variable)?;
    }
    Ok(literals)
}

/// Returns the highest level of the clause's literals, except for the asserted variable.
pub fn backtrack_level(trail: &Trail, literals: &[Literal], asserted: Variable) -> usize
    requires { IsBelow (variable_count trail.now) literals.now }
    ensures top { All (λ (literal : Literal). (literal.variable ≡ asserted) ⊎ (level_in trail.now literal.variable ≤ result)) literals.now }
    ensures reached { (result ≡ 0) ⊎ Any (λ (literal : Literal). (literal.variable ≢ asserted) × (level_in trail.now literal.variable ≡ result)) literals.now }
{
    let mut level = 0;
    'literals: for literal in literals {
        if literal.variable() != asserted {
            level = level_at(trail, literal.variable()).max(level);
        }
    }
    level
}

/// Returns the literal of the variable that is false on the trail.
pub fn negation_of(trail: &Trail, variable: Variable) -> Literal
    requires { variable < variable_count trail.now }
    ensures { (slot : Slot) → slot_of trail.now variable ≡ Some slot → result ≡ record { variable = variable; positive = not slot.value } }
{
    match trail.slot(variable) {
        Some(slot) => Literal::new(variable, !slot.value),
        None => Literal::new(variable, false),
    }
}

/// Returns the highest level of a learnt clause: the level of its asserting literal.
pub fn asserted_level(trail: &Trail, learnt: &Learnt) -> usize
    requires { learnt.now.literal.variable < variable_count trail.now }
    ensures { result ≡ level_in trail.now learnt.now.literal.variable }
{
    level_at(trail, learnt.literal.variable())
}

/// Returns the number of places on the trail from that of the literal's variable on. Without a value, it counts as at the first place.
fn age_of(trail: &Trail, literal: Literal) -> usize
    ensures { result ≡ age_in trail.now literal }
{
    if literal.variable().index() >= trail.variable_count() {
        return trail.len();
    }
    match trail.slot(literal.variable()) {
        Some(slot) => trail.len().saturating_sub(slot.place as usize),
        None => trail.len(),
    }
}

/// Sorts literals by age, the youngest first. The next time, too, that is likely to become false last, so it is worth watching.
pub fn sort_by_age(trail: &Trail, literals: &mut Vec<Literal>)
    ensures same { IsPermutation literals.old.items literals.new.items }
    ensures sorted { IsNonDecreasingBy (age_in trail.now) literals.new.items }
{
    literals.sort_unstable_by_key(|literal| age_of(trail, *literal));
}
