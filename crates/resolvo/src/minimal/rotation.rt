//! Model rotation: turns values that obey all rules except one into values that obey all except another, without a
//! search.

ghost use Rattle.std.specs.Prelude.{◌≡◌, ◌≢◌, All, IfSome, OnOk, false, length, true};
ghost use Rattle.std.specs.List.{slice_index_or};
ghost use Rattle.resolver_clause_store.specs.Formula.{clause_true, literal_true};
ghost use Rattle.resolvo.specs.Rotations.{AreNeeded, IsStillThere, MakesOthersTrue, value_at};
ghost use Rattle.resolvo.specs.declared.minimal.rule_clauses.RuleClause.{RuleClause};

use super::rule_clauses::RuleClause;
use resolver_clause_store::Literal;
use std::alloc::{AllocError, Global};

/// Values that make the clauses of all remaining rules true, except those of one rule.
#[derive(Drop)]
struct NearModel {
    values: Vec<bool>,
    /// The place of the rule.
    rule: usize,
}

/// Returns whether a literal is true. A variable without a value is false.
fn is_true(values: &[bool], literal: Literal) -> bool
    ensures { result ≡ literal_true (value_at values.now) literal }
{
    match values.get(literal.variable().index()) {
        Some(value) => *value == literal.is_positive(),
        None => !literal.is_positive(),
    }
}

/// Returns whether a literal of the clause is true.
fn is_satisfied(values: &[bool], literals: &[Literal]) -> bool
    ensures { result ≡ true → clause_true (value_at values.now) literals.now ≡ true }
{
    for literal in literals {
        if is_true(values, *literal) {
            return true;
        }
    }
    false
}

/// Returns whether a rule remains: it was kept, or its turn is still to come.
fn is_there(kept: &[bool], rule: usize) -> bool
    ensures { result ≡ slice_index_or kept.now rule true }
{
    match kept.get(rule) {
        Some(is_kept) => *is_kept,
        None => true,
    }
}

/// Returns whether a clause is false and its rule remains.
fn is_broken(clause: &RuleClause, kept: &[bool], values: &[bool]) -> bool
    ensures { result ≡ false → IsStillThere kept.now clause.now.rule → clause_true (value_at values.now) clause.now.literals.items ≡ true }
{
    if !is_there(kept, clause.rule) {
        return false;
    }
    if is_satisfied(values, &clause.literals) {
        return false;
    }
    true
}

/// Returns the only remaining rule with a false clause, or `None` if there is no such rule or more than one.
fn only_broken(clauses: &[RuleClause], kept: &[bool], values: &[bool]) -> Option<usize>
    ensures { IfSome result (λ rule. MakesOthersTrue (value_at values.now) kept.now rule clauses.now) }
{
    let mut broken = None;
    'clauses: for index in 0..clauses.len() {
        if is_broken(&clauses[index], kept, values) {
            let rule = clauses[index].rule;
            match broken {
                Some(other) => {
                    if other != rule {
                        return None;
                    }
                }
                None => broken = Some(rule),
            }
        }
    }
    broken
}

/// Returns the length of the rule's longest false clause.
fn width_of(clauses: &[RuleClause], near: &NearModel) -> usize {
    let mut width = 0;
    for clause in clauses {
        if clause.rule == near.rule
            && clause.literals.len() > width
            && !is_satisfied(&near.values, &clause.literals)
        {
            width = clause.literals.len();
        }
    }
    width
}

/// Makes a literal true, if its variable has a value.
fn make_true(values: &mut Vec<bool>, literal: Literal) {
    let index = literal.variable().index();
    if index < values.len() {
        values[index] = literal.is_positive();
    }
}

/// Returns the values after the literal at this position of each false clause of the rule is made true.
fn flipped(
    alloc: Global,
    clauses: &[RuleClause],
    near: &NearModel,
    position: usize,
) -> Result<Vec<bool>, AllocError> {
    let mut values = Vec::from_slice(alloc, &near.values)?;
    for clause in clauses {
        if clause.rule == near.rule && !is_satisfied(&near.values, &clause.literals) {
            if let Some(literal) = clause.literals.get(position) {
                make_true(&mut values, *literal);
            }
        }
    }
    Ok(values)
}

/// Marks the only rule that these values break. If it was not marked before, keeps the values for further rotation.
fn note(
    clauses: &[RuleClause],
    kept: &[bool],
    needed: &mut Vec<bool>,
    pending: &mut Vec<NearModel>,
    values: Vec<bool>,
) -> Result<(), AllocError>
    requires needed { AreNeeded clauses.now kept.now needed.old.items }
    ensures needed { OnOk result (AreNeeded clauses.now kept.now needed.new.items) }
    ensures size { OnOk result (length needed.new.items ≡ length needed.old.items) }
{
    let broken = only_broken(clauses, kept, &values);
    let Some(rule) = broken else {
        return Ok(());
    };
    if rule >= needed.len() || needed[rule] {
        return Ok(());
    }
    pending.push(NearModel { values, rule })?;
    needed[rule] = true;
    Ok(())
}

/// Tries to make one literal of each false clause true, and notes which rule the new values break.
fn note_flips(
    alloc: Global,
    clauses: &[RuleClause],
    kept: &[bool],
    needed: &mut Vec<bool>,
    pending: &mut Vec<NearModel>,
    near: &NearModel,
) -> Result<(), AllocError>
    requires needed { AreNeeded clauses.now kept.now needed.old.items }
    ensures needed { OnOk result (AreNeeded clauses.now kept.now needed.new.items) }
    ensures size { OnOk result (length needed.new.items ≡ length needed.old.items) }
{
    'positions: for position in 0..width_of(clauses, near) {
        let values = flipped(alloc, clauses, near, position)?;
        note(clauses, kept, needed, pending, values)?;
    }
    Ok(())
}

/// Marks needed rules: without any one of them, some values make the clauses of all other remaining rules true.
///
/// It starts from values that a search has found. From each rule that it marks, it rotates once.
pub fn rotate(
    alloc: Global,
    clauses: &[RuleClause],
    kept: &[bool],
    needed: &mut Vec<bool>,
    values: Vec<bool>,
) -> Result<(), AllocError>
    requires needed { AreNeeded clauses.now kept.now needed.old.items }
    ensures needed { OnOk result (AreNeeded clauses.now kept.now needed.new.items) }
    ensures size { OnOk result (length needed.new.items ≡ length needed.old.items) }
{
    let mut pending = Vec::new(alloc);
    note(clauses, kept, needed, &mut pending, values)?;
    'steps: for _step in 0..needed.len() {
        match pending.pop() {
            Some(near) => note_flips(alloc, clauses, kept, needed, &mut pending, &near)?,
            None => return Ok(()),
        }
    }
    Ok(())
}
