//! The state of requirements under a trail.

ghost use Rattle.resolver_clause_store.specs.Formula.{IsBelow};
ghost use Rattle.resolver_clause_store.specs.TrailView.{variable_count};
ghost use Rattle.resolver_clause_store.specs.Decisions.{StandingIs};
ghost use Rattle.resolver_clause_store.specs.Settled.{IsSettled};

use crate::literals::{Literal, Variable};
use crate::trail::Trail;

/// The state of a requirement under a trail.
#[derive(Clone, Copy)]
pub enum Standing {
    /// The requirement is inactive: it depends on this variable, which is not true.
    Inactive(Variable),
    /// The requirement is met: this candidate is true.
    Met(Variable),
    /// The requirement is active and no candidate is true.
    Open {
        /// The place of the first candidate without a value.
        first: usize,
        /// The number of candidates without a value.
        count: usize,
    },
}

/// Returns the state of a clause's requirement.
pub fn standing_of(trail: &Trail, clause: &[Literal]) -> Standing
    requires below { IsBelow (variable_count trail.now) clause.now }
    requires settled { IsSettled trail.now clause.now }
    ensures { StandingIs trail.now clause.now result }
{
    let mut first: Option<usize> = None;
    let mut count: usize = 0;
    'literals: for place in 0..clause.len() {
        let literal = clause[place];
        let variable = literal.variable();
        match trail.value(literal) {
            Some(true) => {
                if literal.is_positive() {
                    return Standing::Met(variable);
                }
                return Standing::Inactive(variable);
            }
            Some(false) => (),
            None => {
                if !literal.is_positive() {
                    return Standing::Inactive(variable);
                }
                if first.is_none() {
                    first = Some(place);
                }
                count = count.wrapping_add(1);
            }
        }
    }
    match first {
        Some(first) => Standing::Open { first, count },
        None => Standing::Open { first: 0, count },
    }
}
