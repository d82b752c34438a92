//! What the search finds, in the order of its choices.
//!
//! The tests own nothing: what they call makes the rules, searches, and says whether it found what is wanted.

use super::rules::{Row, constrained, excluded, instance_of, required, rules_of};
use resolver_clause_store::{By, Exhausted};
use resolver_report::find;
use std::alloc::Global;

fn found(alloc: Global, rows: &[Row<'_>]) -> Result<Option<Vec<u32>>, Exhausted> {
    let rules = rules_of(alloc, rows)?;
    find(alloc, &rules)
}

/// Whether these solvables are found, in order.
fn finds(alloc: Global, rows: &[Row<'_>], wanted: &[u32]) -> bool {
    match found(alloc, rows) {
        Ok(Some(set)) => set.as_slice() == wanted,
        _ => false,
    }
}

/// Whether the rules are refuted.
fn refutes(alloc: Global, rows: &[Row<'_>]) -> bool {
    matches!(found(alloc, rows), Ok(None))
}

#[test]
fn chains_in_order_of_choice(rt: HostRuntime) {
    let rows = [
        required(By::Solvable(2), &[3]),
        required(By::Solvable(1), &[2]),
        required(By::Solvable(4), &[5]),
        required(By::Root, &[1]),
        required(By::Root, &[3]),
    ];
    assert!(rt; finds(rt.alloc(), &rows, &[1, 2, 3]));
    assert!(rt; finds(rt.alloc(), &[], &[]));
}

#[test]
fn falls_back_to_a_later_candidate(rt: HostRuntime) {
    // The first candidate requires something without candidates.
    let dead_end = [required(By::Root, &[1, 2]), required(By::Solvable(1), &[])];
    assert!(rt; finds(rt.alloc(), &dead_end, &[2]));
    // The first candidate fails one choice later, and that choice is made again.
    let later = [
        required(By::Root, &[1, 2]),
        required(By::Root, &[3]),
        constrained(By::Solvable(1), 3),
    ];
    assert!(rt; finds(rt.alloc(), &later, &[2, 3]));
    assert!(rt; refutes(rt.alloc(), &[required(By::Root, &[])]));
}

#[test]
fn constraints(rt: HostRuntime) {
    let by_solvable = [
        required(By::Root, &[1]),
        required(By::Root, &[2]),
        constrained(By::Solvable(1), 2),
    ];
    assert!(rt; refutes(rt.alloc(), &by_solvable));
    let by_root = [
        required(By::Root, &[1, 2]),
        constrained(By::Root, 1),
        constrained(By::Solvable(3), 2),
    ];
    assert!(rt; finds(rt.alloc(), &by_root, &[2]));
}

#[test]
fn marks(rt: HostRuntime) {
    let one_name = [
        required(By::Root, &[1]),
        required(By::Root, &[2]),
        instance_of(7, 1),
        instance_of(7, 2),
    ];
    assert!(rt; refutes(rt.alloc(), &one_name));
    let two_names = [
        required(By::Root, &[1]),
        required(By::Root, &[2]),
        instance_of(7, 1),
        instance_of(8, 2),
        instance_of(7, 3),
        instance_of(7, 1),
    ];
    assert!(rt; finds(rt.alloc(), &two_names, &[1, 2]));
}

#[test]
fn conditions(rt: HostRuntime) {
    let half_met = [
        required(By::Root, &[1]),
        Row::Requires {
            by: By::Root,
            version_set: 0,
            candidates: &[2],
            when: &[&[1], &[3]],
        },
    ];
    assert!(rt; finds(rt.alloc(), &half_met, &[1]));
    let met = [
        Row::Requires {
            by: By::Root,
            version_set: 0,
            candidates: &[2],
            when: &[&[1], &[3, 4]],
        },
        required(By::Root, &[1]),
        required(By::Root, &[4]),
    ];
    assert!(rt; finds(rt.alloc(), &met, &[1, 4, 2]));
}

#[test]
fn locks_and_exclusions(rt: HostRuntime) {
    let lock = Row::Lock {
        locked: 2,
        forbidden: 1,
    };
    let locked = [required(By::Root, &[1, 2]), lock];
    assert!(rt; finds(rt.alloc(), &locked, &[2]));
    let one = [required(By::Root, &[1, 2]), excluded(1)];
    assert!(rt; finds(rt.alloc(), &one, &[2]));
    let both = [required(By::Root, &[1, 2]), excluded(1), excluded(2)];
    assert!(rt; refutes(rt.alloc(), &both));
}
