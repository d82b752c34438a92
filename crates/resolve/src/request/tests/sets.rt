//! The sets that rules leave. A set is a number with a binary digit for each solvable.

use super::solving::{digit, set_of};
use crate::ids::{NameId, SolvableId};
use resolvo::{By, Rule};

fn is_there(by: &By<SolvableId>, set: u32) -> bool {
    match by {
        By::Root => true,
        By::Solvable(solvable) => set & digit(solvable.0) != 0,
    }
}

/// Returns whether a set obeys a rule by itself. A mark by itself demands nothing.
fn obeys_alone(rule: &Rule<NameId, SolvableId>, set: u32) -> bool {
    match rule {
        Rule::Requires {
            by,
            candidates,
            when,
            ..
        } => {
            let holds = when.iter().all(|list| set & set_of(list) != 0);
            !is_there(by, set) || !holds || set & set_of(candidates) != 0
        }
        Rule::Constrains { by, candidate, .. } => {
            !is_there(by, set) || set & digit(candidate.0) == 0
        }
        Rule::Lock { forbidden, .. } => set & digit(forbidden.0) == 0,
        Rule::Excluded { solvable, .. } => set & digit(solvable.0) == 0,
        Rule::OnePerPackage { .. } => true,
    }
}

/// Returns the marked instances of a name.
fn marked(rules: &[Rule<NameId, SolvableId>], wanted: NameId) -> u32 {
    let mut instances = 0;
    for rule in rules {
        if let Rule::OnePerPackage { name, instance } = rule {
            if *name == wanted {
                instances |= digit(instance.0);
            }
        }
    }
    instances
}

/// Returns whether a set has two marked instances of a name.
fn has_two(rules: &[Rule<NameId, SolvableId>], set: u32) -> bool {
    for rule in rules {
        if let Rule::OnePerPackage { name, .. } = rule {
            if 1 < (set & marked(rules, *name)).count_ones() {
                return true;
            }
        }
    }
    false
}

fn obeys(rules: &[Rule<NameId, SolvableId>], set: u32) -> bool {
    !has_two(rules, set) && rules.iter().all(|rule| obeys_alone(rule, set))
}

/// Returns whether no set below `bound` obeys the rules, while the set of the first solvable alone obeys one of them.
pub fn leave_no_set(rules: &[Rule<NameId, SolvableId>], bound: u32) -> bool {
    for set in 0..bound {
        if obeys(rules, set) {
            return false;
        }
    }
    rules.iter().any(|rule| obeys_alone(rule, digit(0)))
}
