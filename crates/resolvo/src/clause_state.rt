//! The state of a clause under a trail.

ghost use Rattle.resolver_clause_store.specs.Formula.{IsBelow};
ghost use Rattle.resolver_clause_store.specs.TrailView.{variable_count};
ghost use Rattle.resolvo.specs.Propagation.{StateIs};

use resolver_clause_store::{Literal, Trail};

/// The state of a clause under a trail.
#[derive(Clone, Copy)]
pub enum State {
    Satisfied,
    Falsified,
    /// All literals but this one are false, and this one has no value.
    Unit(Literal),
    Open,
}

/// Returns the state of a clause under a trail.
pub fn examine(trail: &Trail, clause: &[Literal]) -> State
    requires { IsBelow (variable_count trail.now) clause.now }
    ensures { StateIs trail.now clause.now result }
{
    let mut last: Option<usize> = None;
    'literals: for place in 0..clause.len() {
        match trail.value(clause[place]) {
            Some(true) => return State::Satisfied,
            Some(false) => (),
            None => match last {
                None => last = Some(place),
                Some(other) => {
                    if clause[other] != clause[place] {
                        return State::Open;
                    }
                }
            },
        }
    }
    match last {
        Some(place) => State::Unit(clause[place]),
        None => State::Falsified,
    }
}
