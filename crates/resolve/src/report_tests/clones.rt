//! Copies of a rule of each kind. `./refusals` refuses each allocation of the test in turn.

use super::rules::{Row, constrained, excluded, instance_of, rules_of};
use resolver_clause_store::{By, Requirement, Rule, StringId, VersionSetId};
use std::test::Fail;

/// Returns whether lists have these members.
fn are_lists(lists: &Vec<Vec<u32>>, wanted: &[&[u32]]) -> bool {
    if lists.len() != wanted.len() {
        return false;
    }
    for place in 0..lists.len() {
        if lists[place].as_slice() != wanted[place] {
            return false;
        }
    }
    true
}

/// Returns whether a rule is the requirement of a row.
fn is_requirement_of(rule: &Rule<u32, u32>, row: Row<'_>) -> bool {
    match (rule, row) {
        (
            Rule::Requires {
                by,
                requirement,
                candidates,
                when,
            },
            Row::Requires {
                by: requirer,
                version_set,
                candidates: listed,
                when: lists,
            },
        ) => {
            *by == requirer
                && *requirement == Requirement::Single(VersionSetId(version_set))
                && candidates.as_slice() == listed
                && are_lists(when, lists)
        }
        _ => false,
    }
}

/// Returns whether a rule is the constraint of a row.
fn is_constraint_of(rule: &Rule<u32, u32>, row: Row<'_>) -> bool {
    match (rule, row) {
        (
            Rule::Constrains {
                by,
                version_set,
                candidate,
            },
            Row::Constrains {
                by: requirer,
                version_set: wanted,
                candidate: solvable,
            },
        ) => *by == requirer && version_set.0 == wanted && *candidate == solvable,
        _ => false,
    }
}

/// Returns whether a rule is the one of a row.
fn is_of(rule: &Rule<u32, u32>, row: Row<'_>) -> bool {
    match (rule, row) {
        (
            Rule::Lock { locked, forbidden },
            Row::Lock {
                locked: wanted,
                forbidden: solvable,
            },
        ) => *locked == wanted && *forbidden == solvable,
        (
            Rule::Excluded { solvable, reason },
            Row::Excluded {
                solvable: wanted,
                reason: text,
            },
        ) => *solvable == wanted && *reason == StringId(text),
        (
            Rule::OnePerPackage { name, instance },
            Row::Marked {
                name: wanted,
                instance: solvable,
            },
        ) => *name == wanted && *instance == solvable,
        _ => is_requirement_of(rule, row) || is_constraint_of(rule, row),
    }
}

/// Copies a rule, and again if it is refused. Returns whether that was so.
fn copy(rule: &Rule<u32, u32>, row: Row<'_>) -> Result<bool, Fail> {
    if let Ok(copy) = rule.clone() {
        if is_of(&copy, row) {
            return Ok(false);
        }
        return Err(Fail::from("another rule"));
    }
    if !is_of(rule, row) {
        return Err(Fail::from("the rule has changed"));
    }
    match rule.clone() {
        Ok(copy) if is_of(&copy, row) => Ok(true),
        _ => Err(Fail::from("no copy")),
    }
}

/// Copies each rule, and returns whether a copy was refused.
fn copy_each(rules: &[Rule<u32, u32>], rows: &[Row<'_>]) -> Result<bool, Fail> {
    let mut refused = false;
    for place in 0..rules.len().min(rows.len()) {
        refused = copy(&rules[place], rows[place])? || refused;
    }
    Ok(refused)
}

#[test]
fn a_rule_of_each_kind(rt: HostRuntime) -> Result<(), Fail> {
    let rows = [
        Row::Requires {
            by: By::Root,
            version_set: 3,
            candidates: &[2, 1],
            when: &[&[4], &[5, 6]],
        },
        constrained(By::Solvable(1), 2),
        Row::Lock {
            locked: 2,
            forbidden: 1,
        },
        excluded(1),
        instance_of(7, 1),
    ];
    let rules = rules_of(rt.alloc(), &rows)?;
    assert_eq!(rt; rules.len(), 5);
    if copy_each(&rules, &rows)? {
        return Err(Fail::from("refused, and then met"));
    }
    Ok(())
}
