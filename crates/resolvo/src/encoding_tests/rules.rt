//! Rules of small cores, worked out by hand.

ghost use Rattle.std.specs.Prelude.{All, length, ◌<◌};

use crate::test_provider::TestProvider;
use resolver_clause_store::{
    By, Cache, ClauseKind, Helper, Interrupted, Requirement, VersionSetId,
};
use resolver_encoding::rules_of_clauses;
use resolver_report::Rule;
use std::alloc::Global;
use std::cell::Cell;
use std::test::Fail;

type Kind = ClauseKind<u32, u32>;

const BOTH: Requirement = Requirement::Single(VersionSetId(20));

/// Returns the rules of a core over a provider that states nothing.
fn rules_of(
    alloc: Global,
    list: Vec<Kind>,
    core: &[usize],
) -> Result<Vec<Rule<u32, u32>>, Interrupted<u8>>
    requires { All (λ n. n < length list.items) core.now }
{
    let provider = TestProvider {
        alloc,
        requirements: Vec::new(alloc),
        constraints: Vec::new(alloc),
        cancelling: Cell::new(0),
        log: Cell::new(0),
    };
    let mut cache = Cache::new(alloc);
    rules_of_clauses(alloc, &provider, &mut cache, &list, core)
}

/// Returns whether the rule is a requirement of both versions of package 2 without a condition.
fn is_required(rule: Option<&Rule<u32, u32>>, requirer: u32) -> bool {
    match rule {
        Some(
            Rule::Requires {
                by: By::Solvable(by),
                requirement,
                candidates,
                when,
            },
        ) => {
            *by == requirer
                && *requirement == BOTH
                && candidates.as_slice() == [24, 21].as_slice()
                && when.is_empty()
        }
        _ => false,
    }
}

/// Returns whether the rule is this constraint on one candidate.
fn is_constrained(
    rule: Option<&Rule<u32, u32>>,
    parent: By<u32>,
    constraint: u32,
    excluded: u32,
) -> bool {
    match rule {
        Some(
            Rule::Constrains {
                by,
                version_set,
                candidate,
            },
        ) => *by == parent && version_set.0 == constraint && *candidate == excluded,
        _ => false,
    }
}

/// Returns whether the rule lists this instance of package 2.
fn is_marked(rule: Option<&Rule<u32, u32>>, marked: u32) -> bool {
    match rule {
        Some(Rule::OnePerPackage { name, instance }) => *name == 2 && *instance == marked,
        _ => false,
    }
}

fn implies(candidate: u32, helper: Helper<u32>, value: bool) -> Kind {
    ClauseKind::Implies {
        candidate,
        helper,
        value,
    }
}

fn asks_through_gate(candidate: u32) -> Kind {
    implies(candidate, Helper::Gate(BOTH), true)
}

fn gate(alloc: Global) -> Kind {
    ClauseKind::Requires {
        parent: None,
        disjunct: Vec::new(alloc),
        requirement: BOTH,
    }
}

fn constrains_through_helper(parent: By<u32>) -> Kind {
    ClauseKind::Constrains {
        parent,
        version_set: VersionSetId(29),
        candidate: None,
    }
}

fn excludes(candidate: u32) -> Kind {
    implies(candidate, Helper::Constraint(VersionSetId(29)), true)
}

fn has_bit(instance: u32, index: u32, value: bool) -> Kind {
    implies(instance, Helper::Bit { name: 2, index }, value)
}

#[test]
fn a_gate_stands_for_its_requirers_in_the_core(rt: HostRuntime) -> Result<(), Fail> {
    let kinds = vec![in rt.alloc();
        ClauseKind::InstallRoot,
        asks_through_gate(11),
        asks_through_gate(14),
        gate(rt.alloc()),
    ]?;
    let rules = rules_of(rt.alloc(), kinds, &[0, 2, 3])?;
    assert_eq!(rt; rules.len(), 1);
    assert!(rt; is_required(rules.get(0), 14));
    Ok(())
}

#[test]
fn a_gate_without_requirers_states_nothing(rt: HostRuntime) -> Result<(), Fail> {
    let kinds = vec![in rt.alloc(); asks_through_gate(11), gate(rt.alloc())]?;
    let rules = rules_of(rt.alloc(), kinds, &[1])?;
    assert_eq!(rt; rules.len(), 0);
    Ok(())
}

#[test]
fn each_parent_excludes_each_candidate(rt: HostRuntime) -> Result<(), Fail> {
    let kinds = vec![in rt.alloc();
        constrains_through_helper(By::Root),
        excludes(21),
        constrains_through_helper(By::Solvable(11)),
        excludes(24),
    ]?;
    let rules = rules_of(rt.alloc(), kinds, &[0, 1, 2, 3])?;
    assert_eq!(rt; rules.len(), 4);
    assert!(rt; is_constrained(rules.get(0), By::Root, 29, 21));
    assert!(rt; is_constrained(rules.get(1), By::Root, 29, 24));
    assert!(rt; is_constrained(rules.get(2), By::Solvable(11), 29, 21));
    assert!(rt; is_constrained(rules.get(3), By::Solvable(11), 29, 24));
    Ok(())
}

#[test]
fn an_instance_is_marked_once(rt: HostRuntime) -> Result<(), Fail> {
    let kinds = vec![in rt.alloc();
        has_bit(21, 0, true),
        has_bit(24, 0, false),
        has_bit(21, 1, true),
        has_bit(24, 1, true),
    ]?;
    let rules = rules_of(rt.alloc(), kinds, &[0, 1, 2, 3])?;
    assert_eq!(rt; rules.len(), 2);
    assert!(rt; is_marked(rules.get(0), 21));
    assert!(rt; is_marked(rules.get(1), 24));
    Ok(())
}
