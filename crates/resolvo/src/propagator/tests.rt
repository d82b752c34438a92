//! Propagation by watches, compared with scanning.

ghost use Rattle.std.specs.Prelude.{◌≡◌, IfOk, IsTrue, List, OnOk, Vec};
ghost use Rattle.std.specs.declared.alloc.Global.{Global};
ghost use Rattle.resolver_clause_store.specs.Formula.{AreBelow, IsBelow};
ghost use Rattle.resolver_clause_store.specs.TrailView.{variable_count};
ghost use Rattle.resolver_clause_store.specs.Literals.{Literal};
ghost use Rattle.resolvo.specs.Propagation.{IsJustified};
ghost use Rattle.resolvo.specs.Propagators.{IsPropagator};
ghost use Rattle.resolvo.specs.declared.propagator.Propagator.{Propagator};

use super::*;
use crate::scanning::propagate as scan;
use resolver_clause_store::{Clauses, Literal, Trail, Variable, clause};
use std::alloc::{AllocError, Global};
use std::test::Fail;

/// Returns whether each variable of the clause is below `variables`.
fn is_below(clause: &[Literal], variables: usize) -> bool
    ensures { IsTrue result → IsBelow variables clause.now }
{
    clause
        .iter()
        .all(|literal| literal.variable().index() < variables)
}

/// Returns whether each variable of each clause is below `variables`.
fn are_below(table: &Clauses, variables: usize) -> bool
    ensures { IsTrue result → AreBelow variables table.now }
{
    'clauses: for number in 0..table.len() {
        if !is_below(clause(table, number), variables) {
            return false;
        }
    }
    true
}

/// Returns the next number of a pseudorandom sequence.
fn next(seed: u64) -> u64 {
    seed.wrapping_mul(6364136223846793005)
        .wrapping_add(1442695040888963407)
}

/// Returns a literal of one of 10 variables.
fn literal(number: u64, positive: bool) -> Literal {
    Literal::new(Variable::new((number % 10) as u32), positive)
}

/// Returns a clause of two or three literals with different variables.
fn random_clause(alloc: Global, seed: u64) -> Result<Vec<Literal>, AllocError> {
    let first = (seed >> 20) % 10;
    let second = first + 1 + (seed >> 27) % 4;
    let third = first + 5 + (seed >> 34) % 5;
    let mut literals = Vec::new(alloc);
    literals.push(literal(first, (seed >> 41) % 2 == 0))?;
    literals.push(literal(second, (seed >> 42) % 2 == 0))?;
    if (seed >> 43) % 4 != 0 {
        literals.push(literal(third, (seed >> 45) % 2 == 0))?;
    }
    Ok(literals)
}

/// Returns the variable of a positive number, counted from 1, or the negation of that of a negative one.
fn literal_of(number: i32) -> Literal {
    Literal::new(
        Variable::new(number.unsigned_abs().saturating_sub(1)),
        number > 0,
    )
}

/// Returns clauses, each given by its literals' numbers.
fn table_of(alloc: Global, clauses: &[&[i32]]) -> Result<Clauses, AllocError> {
    let mut table = Clauses::new(alloc);
    for numbers in clauses {
        let mut literals = Vec::new(alloc);
        for number in *numbers {
            literals.push(literal_of(*number))?;
        }
        table.push(&literals)?;
    }
    Ok(table)
}

/// Returns 10 to 29 random clauses.
fn random(alloc: Global, start: u64) -> Result<Clauses, AllocError> {
    let mut clauses = Clauses::new(alloc);
    let mut seed = next(next(start));
    for _ in 0..10 + (seed >> 50) % 20 {
        seed = next(seed);
        clauses.push(&random_clause(alloc, seed)?)?;
    }
    Ok(clauses)
}

/// Returns a propagator that has attached all clauses.
fn begin(
    alloc: Global,
    trail: &mut Trail,
    table: &Clauses,
    variables: usize,
) -> Result<Propagator, AllocError>
    requires empty { variable_count trail.old ≡ 0 }
    requires below { AreBelow variables table.now }
    ensures size { OnOk result (variable_count trail.new ≡ variables) }
    ensures propagator { IfOk result (λ propagator. IsPropagator table.now trail.new propagator) }
    ensures justified { OnOk result (IsJustified table.now trail.new) }
{
    let mut propagator = Propagator::empty(alloc);
    trail.grow(variables)?;
    propagator.grow(variables)?;
    'clauses: for number in 0..table.len() {
        propagator.attach(trail, clause(table, number))?;
    }
    Ok(propagator)
}

/// Propagates. Returns whether no clause is false.
fn follow(
    trail: &mut Trail,
    table: &Clauses,
    propagator: &mut Propagator,
) -> Result<bool, AllocError>
    requires below { AreBelow (variable_count trail.old) table.now }
    requires justified { IsJustified table.now trail.old }
    requires propagator { IsPropagator table.now trail.old propagator.old }
    ensures size { OnOk result (variable_count trail.new ≡ variable_count trail.old) }
    ensures justified { OnOk result (IsJustified table.now trail.new) }
    ensures propagator { OnOk result (IsPropagator table.now trail.new propagator.new) }
{
    if apply_all_pending(trail, table, propagator)?.is_some() {
        return Ok(false);
    }
    Ok(propagate(trail, table, propagator)?.is_none())
}

/// Decides a literal if its variable has no value.
fn set(trail: &mut Trail, literal: Literal) -> Result<(), AllocError>
    ensures size { OnOk result (variable_count trail.new ≡ variable_count trail.old) }
    ensures justified { OnOk result ((table : List (List Literal)) → IsJustified table trail.old → IsJustified table trail.new) }
    ensures propagator { OnOk result
        ((table : List (List Literal)) (propagator : Propagator) → IsPropagator table trail.old propagator → IsPropagator table trail.new propagator) }
{
    if literal.variable().index() >= trail.variable_count() {
        return Ok(());
    }
    match trail.slot(literal.variable()) {
        Some(_) => Ok(()),
        None => {
            trail.decide(literal, 0)?;
            Ok(())
        }
    }
}

/// Returns the value of a variable, if it has one.
fn value(trail: &Trail, number: u16) -> Option<bool> {
    let variable = Variable::new(u32::from(number));
    if variable.index() >= trail.variable_count() {
        return None;
    }
    match trail.slot(variable) {
        Some(slot) => Some(slot.value),
        None => None,
    }
}

/// Returns whether the variables below 10 have the same values.
fn are_same(one: &Trail, other: &Trail) -> bool {
    for number in 0..10u16 {
        if value(one, number) != value(other, number) {
            return false;
        }
    }
    true
}

/// The result of setting one literal after another, by watches and by scanning.
#[derive(Clone, Copy, Debug, PartialEq, Eq)]
enum Outcome {
    /// Both gave the same values each time, and no clause was false.
    SameValues,
    /// Both gave the same values each time, and then both found a false clause.
    BothFalse,
    Differ,
}

/// Propagates by watches and by scanning. Returns the result, if this was the last step.
fn follow_both(
    trail: &mut Trail,
    scanned: &mut Trail,
    table: &Clauses,
    propagator: &mut Propagator,
) -> Result<Option<Outcome>, AllocError>
    requires below { AreBelow (variable_count trail.old) table.now }
    requires below_scanned { AreBelow (variable_count scanned.old) table.now }
    requires justified { IsJustified table.now trail.old }
    requires propagator { IsPropagator table.now trail.old propagator.old }
    ensures size { OnOk result (variable_count trail.new ≡ variable_count trail.old) }
    ensures size_scanned { OnOk result (variable_count scanned.new ≡ variable_count scanned.old) }
    ensures justified { OnOk result (IsJustified table.now trail.new) }
    ensures propagator { OnOk result (IsPropagator table.now trail.new propagator.new) }
{
    let holds = follow(trail, table, propagator)?;
    let expected = scan(scanned, table)?.is_none();
    if holds != expected {
        return Ok(Some(Outcome::Differ));
    }
    if !holds {
        return Ok(Some(Outcome::BothFalse));
    }
    if !are_same(trail, scanned) {
        return Ok(Some(Outcome::Differ));
    }
    Ok(None)
}

/// Sets one literal after another, and each time propagates by watches and by scanning.
fn compare(alloc: Global, table: &Clauses, seed: u64) -> Result<Outcome, AllocError> {
    if !are_below(table, 10) {
        return Ok(Outcome::Differ);
    }
    let mut scanned = Trail::new(alloc, 10)?;
    let mut trail = Trail::empty(alloc);
    let mut propagator = begin(alloc, &mut trail, table, 10)?;
    'turns: for turn in 0..11u64 {
        if let Some(outcome) = follow_both(&mut trail, &mut scanned, table, &mut propagator)? {
            return Ok(outcome);
        }
        let number = (seed >> 3) + 3 * turn;
        let positive = (seed >> (20 + turn)) % 2 == 0;
        set(&mut trail, literal(number, positive))?;
        set(&mut scanned, literal(number, positive))?;
    }
    Ok(Outcome::SameValues)
}

/// Returns how many of 300 lists of clauses ended with equal values, and how many with a false clause.
fn compare_all(alloc: Global) -> Result<(u32, u32), AllocError> {
    let mut same = 0u32;
    let mut both_false = 0u32;
    let mut seed = 20261123u64;
    for _ in 0..300 {
        seed = next(seed);
        let table = random(alloc, seed)?;
        match compare(alloc, &table, seed)? {
            Outcome::SameValues => same = same.wrapping_add(1),
            Outcome::BothFalse => both_false = both_false.wrapping_add(1),
            Outcome::Differ => (),
        }
    }
    Ok((same, both_false))
}

#[test]
fn watches_find_what_scanning_finds(rt: HostRuntime) -> Result<(), Fail> {
    let (same, both_false) = compare_all(rt.alloc())?;
    assert_eq!(rt; same.wrapping_add(both_false), 300);
    assert!(rt; same > 50 && both_false > 50, "{same} {both_false}");
    Ok(())
}
