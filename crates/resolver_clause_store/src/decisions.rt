//! Candidates that may be decided.

ghost use Rattle.resolver_clause_store.specs.Formula.{IsBelow};
ghost use Rattle.resolver_clause_store.specs.TrailView.{variable_count};

use crate::literals::Literal;
use crate::trail::Trail;

/// A candidate that may be decided for a requirement that is not met.
#[derive(Clone, Copy, PartialEq, Eq)]
pub struct Choice {
    /// The number of the requirement's clause.
    pub number: usize,
    /// The place of the candidate in the clause.
    pub place: usize,
}

/// Returns the place after the candidates of the version set to which the candidate at `place` belongs, or the clause's
/// end.
fn end_of(ends: &[usize], place: usize, length: usize) -> usize {
    'ends: for end in ends {
        if place < *end {
            return *end;
        }
    }
    length
}

/// Returns the number of literals without a value from one place up to but not including another.
fn open_between(trail: &Trail, clause: &[Literal], from: usize, to: usize) -> usize
    requires { IsBelow (variable_count trail.now) clause.now }
{
    let mut count = 0;
    'literals: for place in from..to.min(clause.len()) {
        if trail.value(clause[place]).is_none() {
            count += 1;
        }
    }
    count
}

/// Returns the number of candidates without a value that are in the same version set as the candidate at a place of a requirement clause.
///
/// `ends` has the place after the candidates of each version set of a union, and `all` is the number of candidates without a value in the
/// whole clause.
pub fn open_count(
    trail: &Trail,
    clause: &[Literal],
    ends: &[usize],
    place: usize,
    all: usize,
) -> usize
    requires { IsBelow (variable_count trail.now) clause.now }
{
    if ends.is_empty() {
        return all;
    }
    open_between(trail, clause, place, end_of(ends, place, clause.len()))
}
