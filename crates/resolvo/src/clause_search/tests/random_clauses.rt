//! Random clauses, checked against all values of their variables.

ghost use Rattle.resolvo.specs.ClauseSearches.{IsConsistent};

use super::{load_all, provider_of_nothing};
use crate::clause_search::{ClauseSearch, Outcome};
use crate::test_provider::TestProvider;
use resolver_clause_store::{Activity, Clauses, Literal, Variable};
use std::alloc::{AllocError, Global};
use std::test::Fail;

/// The number of variables.
const VARIABLES: u32 = 8;

/// A literal: the number of its variable, and whether it is positive.
type Drawn = (u32, bool);

/// The result for a list of clauses.
#[derive(Clone, Copy, PartialEq)]
enum Verdict {
    /// The values that were found make each clause true.
    Satisfied,
    /// No values make all clauses of the core true.
    Refuted,
    /// Neither.
    Wrong,
}

/// Draws the next number, below 65536.
fn draw(state: &mut u32) -> u32 {
    *state = state.wrapping_mul(1_664_525).wrapping_add(1_013_904_223);
    state.wrapping_shr(16)
}

/// Draws a clause of three literals.
fn draw_clause(alloc: Global, state: &mut u32) -> Result<Vec<Drawn>, AllocError> {
    let mut clause = Vec::new(alloc);
    for _ in 0..3 {
        let variable = draw(state) % VARIABLES;
        clause.push((variable, draw(state) % 2 == 0))?;
    }
    Ok(clause)
}

fn draw_clauses(alloc: Global, seed: u32, count: u32) -> Result<Vec<Vec<Drawn>>, AllocError> {
    let mut state = seed;
    let mut clauses = Vec::new(alloc);
    for _ in 0..count {
        clauses.push(draw_clause(alloc, &mut state)?)?;
    }
    Ok(clauses)
}

fn literals_of(alloc: Global, clause: &[Drawn]) -> Result<Vec<Literal>, AllocError> {
    let mut literals = Vec::new(alloc);
    for (number, positive) in clause {
        let variable = Variable::new(*number % VARIABLES);
        literals.push(Literal::new(variable, *positive))?;
    }
    Ok(literals)
}

fn table_of(alloc: Global, clauses: &[Vec<Drawn>]) -> Result<Clauses, AllocError> {
    let mut table = Clauses::new(alloc);
    for clause in clauses {
        table.push(&literals_of(alloc, clause)?)?;
    }
    Ok(table)
}

/// Returns the binary digit of a variable.
fn digit(variable: u32) -> u32 {
    1u32.wrapping_shl(variable)
}

/// Returns whether a clause is true if exactly the variables with these digits are.
fn is_true(clause: &[Drawn], digits: u32) -> bool {
    for (variable, positive) in clause {
        if (digits & digit(*variable) != 0) == *positive {
            return true;
        }
    }
    false
}

fn are_true(clauses: &[Vec<Drawn>], digits: u32) -> bool {
    for clause in clauses {
        if !is_true(clause, digits) {
            return false;
        }
    }
    true
}

/// Returns whether the search found that a variable is true. A variable without a value counts as false.
fn is_found_true(search: &ClauseSearch, variable: Variable) -> bool {
    if variable.index() >= search.trail().variable_count() {
        return false;
    }
    match search.trail().slot(variable) {
        Some(slot) => slot.value,
        None => false,
    }
}

/// Returns the digits of the variables that are true.
fn digits_of(search: &ClauseSearch) -> u32 {
    let mut digits = 0;
    for number in 0..VARIABLES {
        if is_found_true(search, Variable::new(number)) {
            digits |= digit(number);
        }
    }
    digits
}

/// Returns whether a clause of the core is false if exactly the variables with these digits are true.
fn is_some_false(clauses: &[Vec<Drawn>], core: &[usize], digits: u32) -> bool {
    for number in core {
        if let Some(clause) = clauses.get(*number) {
            if !is_true(clause, digits) {
                return true;
            }
        }
    }
    false
}

/// Returns whether no values make all clauses of the core true.
fn is_refuted(clauses: &[Vec<Drawn>], core: &[usize]) -> bool {
    for digits in 0..digit(VARIABLES) {
        if !is_some_false(clauses, core, digits) {
            return false;
        }
    }
    true
}

/// Returns the result of a run over the clauses, all of them as requirements.
fn verdict_of(
    alloc: Global,
    search: &mut ClauseSearch,
    provider: &TestProvider,
    clauses: &[Vec<Drawn>],
    table: &Clauses,
) -> Result<Verdict, AllocError>
    requires { IsConsistent search.old }
{
    if !load_all(alloc, search, table, 8)? {
        return Ok(Verdict::Wrong);
    }
    let found = match search.run(alloc, provider, 10_000, 10_000) {
        Ok(Outcome::Finished) => Verdict::Satisfied,
        Ok(Outcome::Contradiction(core)) if is_refuted(clauses, &core) => Verdict::Refuted,
        _ => Verdict::Wrong,
    };
    if found == Verdict::Satisfied && !are_true(clauses, digits_of(search)) {
        return Ok(Verdict::Wrong);
    }
    Ok(found)
}

/// Returns the result for this many random clauses.
fn search_drawn(alloc: Global, seed: u32, count: u32) -> Result<Verdict, AllocError> {
    let clauses = draw_clauses(alloc, seed, count)?;
    let table = table_of(alloc, &clauses)?;
    let provider = provider_of_nothing(alloc);
    let mut search = ClauseSearch::new(alloc, Activity::standard());
    let found = verdict_of(alloc, &mut search, &provider, &clauses, &table);
    drop(search);
    found
}

/// Returns how many of 200 lists of clauses are satisfied, and how many are refuted.
fn counts(alloc: Global) -> Result<(u32, u32), AllocError> {
    let (mut satisfied, mut refuted) = (0u32, 0u32);
    for seed in 0..200u32 {
        match search_drawn(alloc, seed, 24 + seed % 20)? {
            Verdict::Satisfied => satisfied = satisfied.wrapping_add(1),
            Verdict::Refuted => refuted = refuted.wrapping_add(1),
            Verdict::Wrong => (),
        }
    }
    Ok((satisfied, refuted))
}

#[test]
fn each_outcome_is_right_by_all_values(rt: HostRuntime) -> Result<(), Fail> {
    let (satisfied, refuted) = counts(rt.alloc())?;
    assert_eq!(rt; satisfied.wrapping_add(refuted), 200);
    assert!(rt; 50 < satisfied && 50 < refuted);
    Ok(())
}
