//! The values that a trail returns.

use resolver_clause_store::{Literal, Reason, Slot, Trail, Variable};
use std::alloc::AllocError;
use std::test::Fail;

fn literal(number: u16, positive: bool) -> Literal {
    Literal::new(Variable::new(u32::from(number)), positive)
}

/// Forces a literal, if its variable has no value.
fn force(trail: &mut Trail, literal: Literal) -> Result<bool, AllocError> {
    if literal.variable().index() >= trail.variable_count()
        || trail.slot(literal.variable()).is_some()
    {
        return Ok(false);
    }
    trail.force(literal, 7)?;
    Ok(true)
}

/// Makes a variable true, if it has no value.
fn put(trail: &mut Trail, number: u16, decided: bool) -> Result<bool, AllocError> {
    let variable = Variable::new(u32::from(number));
    if variable.index() >= trail.variable_count() || trail.slot(variable).is_some() {
        return Ok(false);
    }
    let literal = Literal::new(variable, true);
    if decided {
        trail.decide(literal, 8)?;
        return Ok(true);
    }
    trail.force(literal, 9)?;
    Ok(true)
}

fn value(trail: &Trail, literal: Literal) -> Option<bool> {
    if literal.variable().index() < trail.variable_count() {
        return trail.value(literal);
    }
    None
}

fn slot(trail: &Trail, number: u16) -> Option<Slot> {
    let variable = Variable::new(u32::from(number));
    if variable.index() < trail.variable_count() {
        return trail.slot(variable);
    }
    None
}

#[test]
fn a_forced_literal_has_a_value_and_a_slot(rt: HostRuntime) -> Result<(), Fail> {
    let mut trail = Trail::new(rt.alloc(), 3)?;
    assert!(rt; trail.is_empty());
    assert!(rt; force(&mut trail, literal(2, false))?);
    assert_eq!(rt; trail.len(), 1);
    assert_eq!(rt; trail.variable_count(), 3);
    assert_eq!(rt; value(&trail, literal(2, false)), Some(true));
    assert_eq!(rt; value(&trail, literal(2, true)), Some(false));
    assert_eq!(rt; value(&trail, literal(1, true)), None);
    let expected = Slot {
        value: false,
        level: 0,
        place: 0,
        reason: Reason::Forced(7),
    };
    assert!(rt; slot(&trail, 2) == Some(expected));
    Ok(())
}

#[test]
fn undoing_keeps_the_level_and_the_lower_ones(rt: HostRuntime) -> Result<(), Fail> {
    let mut trail = Trail::new(rt.alloc(), 6)?;
    for number in 0..6u16 {
        let decided = number == 1 || number == 3 || number == 4;
        assert!(rt; put(&mut trail, number, decided)?);
    }
    assert_eq!(rt; trail.level(), 3);
    if !trail.is_empty() {
        trail.undo_last();
    }
    assert_eq!(rt; trail.len(), 5);
    trail.undo_until(1);
    assert_eq!(rt; trail.level(), 1);
    assert_eq!(rt; trail.len(), 3);
    assert_eq!(rt; value(&trail, literal(2, true)), Some(true));
    assert_eq!(rt; value(&trail, literal(3, true)), None);
    trail.undo_until(0);
    assert_eq!(rt; trail.len(), 1);
    Ok(())
}

/// Adds variables up to this many, if there are no more of them yet.
fn grow(trail: &mut Trail, variables: usize) -> Result<bool, AllocError> {
    if trail.variable_count() > variables {
        return Ok(false);
    }
    trail.grow(variables)?;
    Ok(true)
}

#[test]
fn growing_adds_variables_without_a_value(rt: HostRuntime) -> Result<(), Fail> {
    let mut trail = Trail::new(rt.alloc(), 2)?;
    assert!(rt; put(&mut trail, 1, true)?);
    assert!(rt; grow(&mut trail, 4)?);
    assert_eq!(rt; trail.variable_count(), 4);
    assert_eq!(rt; trail.len(), 1);
    assert_eq!(rt; value(&trail, literal(1, true)), Some(true));
    assert_eq!(rt; value(&trail, literal(3, true)), None);
    assert!(rt; put(&mut trail, 3, false)?);
    assert_eq!(rt; trail.len(), 2);
    assert!(rt; grow(&mut trail, 4)?);
    assert_eq!(rt; trail.variable_count(), 4);
    Ok(())
}
