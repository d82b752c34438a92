//! The requirement that was last found left to decide.

ghost use Rattle.std.specs.Prelude.{◌<◌, ◌≡◌, ◌≤◌, IfSome, MatchBool, MatchOption, Some, length};
ghost use Rattle.resolver_clause_store.specs.Decisions.{IsFirstUnassigned};
ghost use Rattle.resolver_clause_store.specs.Formula.{IsBelow};
ghost use Rattle.resolver_clause_store.specs.LastOpens.{IsFirstNotFalse, IsOpenSince, NoneIsTrueFrom, AreFalseFrom};
ghost use Rattle.resolver_clause_store.specs.TrailView.{length_of, literal_value, variable_count};
ghost use Rattle.resolver_clause_store.specs.Literals.{Literal};

use crate::literals::Literal;
use crate::trail::Trail;

/// The requirement that was last found left to decide.
///
/// While only false variables follow on the trail, it is still left, and its candidates need not be passed over again.
#[derive(Clone, Copy)]
pub struct LastOpen {
    /// The number of the requirement.
    pub requirement: u32,
    /// The place in its clause of the first candidate that was not false.
    pub first: usize,
    /// The number of entries that the trail had.
    pub count: usize,
}

/// Returns this requirement, if the trail still has the entries that it had then. The first `kept` entries are unchanged.
pub fn unless_cut(last: Option<LastOpen>, kept: usize) -> Option<LastOpen>
    ensures { MatchOption result (IfSome last (λ lost. kept < lost.count)) (λ left. (last ≡ Some left) × (left.count ≤ kept)) }
{
    match last {
        Some(left) => {
            if left.count <= kept {
                return last;
            }
            None
        }
        None => None,
    }
}

/// Returns whether no variable from a place of the trail on is true.
fn none_is_true_from(trail: &Trail, from: usize) -> bool
    ensures { MatchBool result (NoneIsTrueFrom trail.now from (length_of trail.now)) (NoneIsTrueFrom trail.now from (length_of trail.now) → ⊥) }
{
    'places: for place in from..trail.len() {
        let variable = trail.variable_at(place);
        if trail.is_true(Literal::new(variable, true)) {
            return false;
        }
    }
    true
}

/// Returns the place of the first literal from a place on that is not false.
pub fn first_not_false(trail: &Trail, clause: &[Literal], from: usize) -> Option<usize>
    requires { IsBelow (variable_count trail.now) clause.now }
    ensures { MatchOption result (AreFalseFrom trail.now clause.now from) (IsFirstNotFalse trail.now clause.now from) }
{
    'places: for place in from..clause.len() {
        if !trail.is_false(clause[place]) {
            return Some(place);
        }
    }
    None
}

/// Returns the place in the clause of the first candidate that is not false, if the requirement is known to be left to
/// decide still.
pub fn still_open(trail: &Trail, clause: &[Literal], last: &LastOpen) -> Option<usize>
    requires { IsBelow (variable_count trail.now) clause.now }
    ensures { IfSome result (λ first. IsOpenSince trail.now clause.now last.now.first last.now.count → IsFirstUnassigned trail.now clause.now first) }
{
    if !none_is_true_from(trail, last.count) {
        return None;
    }
    first_not_false(trail, clause, last.first)
}
