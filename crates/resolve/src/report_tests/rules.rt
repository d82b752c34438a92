//! Rules as the tests write them.

use resolver_clause_store::{By, Exhausted, Requirement, Rule, StringId, VersionSetId};
use resolver_report::{ConflictGraph, graph_of};
use std::alloc::{AllocError, Global};

/// A rule that owns nothing.
#[derive(Clone, Copy)]
pub(crate) enum Row<'x> {
    Requires {
        by: By<u32>,
        version_set: u32,
        candidates: &'x [u32],
        when: &'x [&'x [u32]],
    },
    Constrains {
        by: By<u32>,
        version_set: u32,
        candidate: u32,
    },
    Lock {
        locked: u32,
        forbidden: u32,
    },
    Excluded {
        solvable: u32,
        reason: u32,
    },
    Marked {
        name: u32,
        instance: u32,
    },
}

/// A requirement of one of these, by this version set.
pub(crate) fn required_in(by: By<u32>, version_set: u32, candidates: &[u32]) -> Row<'_> {
    Row::Requires {
        by,
        version_set,
        candidates,
        when: &[],
    }
}

/// A requirement of one of these, by version set 0.
pub(crate) fn required(by: By<u32>, candidates: &[u32]) -> Row<'_> {
    required_in(by, 0, candidates)
}

/// A constraint on a candidate, by version set 0.
pub(crate) fn constrained(by: By<u32>, candidate: u32) -> Row<'static> {
    Row::Constrains {
        by,
        version_set: 0,
        candidate,
    }
}

/// An exclusion of a solvable, for reason 0.
pub(crate) fn excluded(solvable: u32) -> Row<'static> {
    Row::Excluded {
        solvable,
        reason: 0,
    }
}

/// An instance of a name.
pub(crate) fn instance_of(name: u32, instance: u32) -> Row<'static> {
    Row::Marked { name, instance }
}

fn lists_of(alloc: Global, lists: &[&[u32]]) -> Result<Vec<Vec<u32>>, AllocError> {
    let mut copied = Vec::new(alloc);
    for list in lists {
        copied.push(list.to_vec(alloc)?)?;
    }
    Ok(copied)
}

pub(crate) fn rule_of(alloc: Global, row: Row<'_>) -> Result<Rule<u32, u32>, AllocError> {
    match row {
        Row::Requires {
            by,
            version_set,
            candidates,
            when,
        } => Ok(Rule::Requires {
            by,
            requirement: Requirement::Single(VersionSetId(version_set)),
            candidates: candidates.to_vec(alloc)?,
            when: lists_of(alloc, when)?,
        }),
        Row::Constrains {
            by,
            version_set,
            candidate,
        } => Ok(Rule::Constrains {
            by,
            version_set: VersionSetId(version_set),
            candidate,
        }),
        Row::Lock { locked, forbidden } => Ok(Rule::Lock { locked, forbidden }),
        Row::Excluded { solvable, reason } => Ok(Rule::Excluded {
            solvable,
            reason: StringId(reason),
        }),
        Row::Marked { name, instance } => Ok(Rule::OnePerPackage { name, instance }),
    }
}

pub(crate) fn rules_of(alloc: Global, rows: &[Row<'_>]) -> Result<Vec<Rule<u32, u32>>, AllocError> {
    let mut rules = Vec::new(alloc);
    for row in rows {
        rules.push(rule_of(alloc, *row)?)?;
    }
    Ok(rules)
}

pub(crate) fn graph_of_rows(
    alloc: Global,
    rows: &[Row<'_>],
) -> Result<ConflictGraph<u32>, Exhausted> {
    let rules = rules_of(alloc, rows)?;
    graph_of(alloc, &rules)
}
