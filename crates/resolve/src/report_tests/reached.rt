//! Which rules are kept.
//!
//! The tests own nothing: what they call makes the rules, and says whether the wanted ones are left.

use super::rules::{Row, constrained, excluded, instance_of, required, rules_of};
use resolver_clause_store::{By, Exhausted, Rule};
use resolver_report::keep_reached;
use std::alloc::Global;

fn kept_of(alloc: Global, rows: &[Row<'_>]) -> Result<Vec<Rule<u32, u32>>, Exhausted> {
    let rules = rules_of(alloc, rows)?;
    keep_reached(alloc, rules)
}

/// Whether the root's requirement and the exclusion of 1 are kept.
fn keeps_an_exclusion(alloc: Global, rows: &[Row<'_>]) -> Result<bool, Exhausted> {
    let kept = kept_of(alloc, rows)?;
    Ok(matches!(
        kept.as_slice(),
        [
            Rule::Requires { by: By::Root, .. },
            Rule::Excluded { solvable: 1, .. },
        ]
    ))
}

#[test]
fn what_is_not_reached_goes(rt: HostRuntime) {
    let rows = [
        required(By::Root, &[1]),
        excluded(1),
        excluded(2),
        Row::Lock {
            locked: 4,
            forbidden: 3,
        },
    ];
    assert!(rt; matches!(keeps_an_exclusion(rt.alloc(), &rows), Ok(true)));
}

/// Whether three requirements and the exclusions of 3 and 1 are kept.
fn keeps_a_chain(alloc: Global, rows: &[Row<'_>]) -> Result<bool, Exhausted> {
    let kept = kept_of(alloc, rows)?;
    Ok(matches!(
        kept.as_slice(),
        [
            Rule::Requires { .. },
            Rule::Requires { .. },
            Rule::Requires { .. },
            Rule::Excluded { solvable: 3, .. },
            Rule::Excluded { solvable: 1, .. },
        ]
    ))
}

#[test]
fn chains_are_reached_in_any_order(rt: HostRuntime) {
    let rows = [
        excluded(4),
        required(By::Solvable(2), &[3]),
        required(By::Solvable(1), &[2]),
        required(By::Solvable(4), &[5]),
        required(By::Root, &[1]),
        excluded(5),
        excluded(3),
        excluded(1),
    ];
    assert!(rt; matches!(keeps_a_chain(rt.alloc(), &rows), Ok(true)));
}

/// Whether three rules are kept, and the last two are a constraint on 1 and the instance 1.
fn keeps_both_sides(alloc: Global, rows: &[Row<'_>]) -> Result<bool, Exhausted> {
    let kept = kept_of(alloc, rows)?;
    Ok(matches!(
        kept.as_slice(),
        [
            _,
            Rule::Constrains { candidate: 1, .. },
            Rule::OnePerPackage { instance: 1, .. },
        ]
    ))
}

#[test]
fn both_sides_of_a_constraint_count(rt: HostRuntime) {
    let rows = [
        required(By::Root, &[1]),
        constrained(By::Root, 1),
        constrained(By::Root, 2),
        constrained(By::Solvable(2), 1),
        instance_of(7, 1),
        instance_of(7, 2),
    ];
    assert!(rt; matches!(keeps_both_sides(rt.alloc(), &rows), Ok(true)));
}
