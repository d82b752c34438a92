//! Propagation and decisions by scanning every clause. Tests compare the search with them.

ghost use Rattle.std.specs.Prelude.{◌<◌, ◌≡◌, All, length};
ghost use Rattle.resolver_clause_store.specs.Formula.{AreBelow, IsBelow};
ghost use Rattle.resolver_clause_store.specs.TrailView.{variable_count};
ghost use Rattle.resolver_clause_store.specs.declared.RequirementClause.{RequirementClause as RequirementClauseOf};

use crate::clause_search::ends_of;
use crate::clause_state::{State, examine};
use resolver_clause_store::{Clauses, Literal, RequirementClause, Trail, UnionEnds, clause};
use std::alloc::AllocError;

/// The effect of a scan.
#[derive(Clone, Copy)]
pub enum Effect {
    Nothing,
    /// A literal was set.
    Assigned,
    /// Each literal of the clause with this number is false.
    Conflict(usize),
}

/// Sets the last literal of a clause whose other literals are false.
fn scan_one(trail: &mut Trail, table: &Clauses, number: usize) -> Result<Effect, AllocError>
    requires inside { number < length table.now }
    requires below { AreBelow (variable_count trail.old) table.now }
    ensures size { variable_count trail.new ≡ variable_count trail.old }
{
    match examine(trail, clause(table, number)) {
        State::Unit(literal) => {
            trail.force(literal, number)?;
            Ok(Effect::Assigned)
        }
        State::Falsified => Ok(Effect::Conflict(number)),
        State::Satisfied | State::Open => Ok(Effect::Nothing),
    }
}

/// Scans every clause once, until one is false.
fn scan_all(trail: &mut Trail, table: &Clauses) -> Result<Effect, AllocError>
    requires below { AreBelow (variable_count trail.old) table.now }
    ensures size { variable_count trail.new ≡ variable_count trail.old }
{
    let mut effect = Effect::Nothing;
    'clauses: for number in 0..table.len() {
        match scan_one(trail, table, number)? {
            Effect::Nothing => (),
            Effect::Assigned => effect = Effect::Assigned,
            Effect::Conflict(number) => return Ok(Effect::Conflict(number)),
        }
    }
    Ok(effect)
}

/// Sets every literal that is forced, until none is left or a clause is false. Returns the number of that clause.
pub fn propagate(trail: &mut Trail, table: &Clauses) -> Result<Option<usize>, AllocError>
    requires below { AreBelow (variable_count trail.old) table.now }
    ensures size { variable_count trail.new ≡ variable_count trail.old }
{
    'passes: for _ in 0..=trail.variable_count() {
        match scan_all(trail, table)? {
            Effect::Nothing => return Ok(None),
            Effect::Assigned => (),
            Effect::Conflict(number) => return Ok(Some(number)),
        }
    }
    Ok(None)
}

/// A candidate of a requirement that is not met, and the criteria by which requirements are compared.
///
/// Those of the root come first, then those with fewer candidates left in the version set, and then those with the
/// lower number.
#[derive(Clone, Copy)]
struct Candidate {
    number: usize,
    place: usize,
    of_root: bool,
    count: usize,
}

impl Candidate {
    fn is_before(&self, other: &Candidate) -> bool {
        if self.of_root != other.of_root {
            return self.of_root;
        }
        if self.count != other.count {
            return self.count < other.count;
        }
        self.number < other.number
    }
}

/// Returns the place of the first literal without a value, if no literal is true and those without a value are
/// positive.
fn first_open(trail: &Trail, clause: &[Literal]) -> Option<usize>
    requires { IsBelow (variable_count trail.now) clause.now }
{
    let mut first = None;
    for place in 0..clause.len() {
        match trail.value(clause[place]) {
            Some(true) => return None,
            Some(false) => (),
            None => {
                if !clause[place].is_positive() {
                    return None;
                }
                first = first.or(Some(place));
            }
        }
    }
    first
}

/// Returns the number of literals without a value from one place up to but not including another.
fn open_between(trail: &Trail, clause: &[Literal], from: usize, to: usize) -> usize
    requires { IsBelow (variable_count trail.now) clause.now }
{
    let mut count: usize = 0;
    for place in from..to.min(clause.len()) {
        if trail.value(clause[place]).is_none() {
            count = count.saturating_add(1);
        }
    }
    count
}

/// Returns the next candidate of a requirement, if it has to be decided.
fn candidate_of(
    trail: &Trail,
    table: &Clauses,
    requirement: &RequirementClause,
    union_ends: &UnionEnds,
) -> Option<Candidate>
    requires below { AreBelow (variable_count trail.now) table.now }
    requires inside { requirement.now.number < length table.now }
{
    let literals = clause(table, requirement.number as usize);
    let place = first_open(trail, literals)?;
    let ends = ends_of(requirement, union_ends);
    let end = ends.iter().copied().find(|end| place < *end);
    Some(Candidate {
        number: requirement.number as usize,
        place,
        of_root: requirement.of_root,
        count: open_between(trail, literals, place, end.unwrap_or(literals.len())),
    })
}

/// Returns the candidate that comes first, if there is one.
fn first_of(one: Option<Candidate>, other: Option<Candidate>) -> Option<Candidate> {
    match (one, other) {
        (Some(left), Some(right)) => {
            if right.is_before(&left) {
                return other;
            }
            one
        }
        (Some(_), None) => one,
        (None, _) => other,
    }
}

/// Returns the number of the requirement clause that is decided next, and the place of its candidate.
pub fn decide(
    trail: &Trail,
    table: &Clauses,
    requirements: &[RequirementClause],
    union_ends: &UnionEnds,
) -> Option<(usize, usize)>
    requires below { AreBelow (variable_count trail.now) table.now }
    requires inside { All (λ (requirement : RequirementClauseOf). requirement.number < length table.now) requirements.now }
{
    let mut first = None;
    for requirement in requirements {
        first = first_of(first, candidate_of(trail, table, requirement, union_ends));
    }
    let found = first?;
    Some((found.number, found.place))
}
