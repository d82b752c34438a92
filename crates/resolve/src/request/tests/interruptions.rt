//! Each check that may stop a search does so in turn, and each answer and text of a provider is refused in turn.

use super::sets::leave_no_set;
use super::solving::{request, set_of};
use super::wrapped::{Behaviour, Wrapped};
use crate::ids::{NameId, SolvableId};
use resolvo::{
    ConditionalRequirement, EmptySolvables, Exhausted, Problem, SoftRequirement, Solver,
    UnsolvableOrCancelled, VersionSetId,
};
use std::alloc::{AllocError, Global};
use std::process::Abort;
use std::test::Fail;

/// The end of a call.
#[derive(Clone, Copy, PartialEq)]
pub enum Ended {
    /// These solvables are chosen, of which these are exempt, and this many disjuncts are deferred.
    Answer(u32, u32, usize),
    /// There is a conflict, and no set of the first six solvables obeys its rules.
    Refuted,
    /// There is a conflict, and a set of the first six solvables obeys its rules.
    Obeyed,
    Cancelled(u64),
    Exhausted(Exhausted),
}

impl Ended {
    /// Returns whether the call was stopped or refused.
    fn is_early(self) -> bool {
        matches!(self, Ended::Cancelled(_) | Ended::Exhausted(_))
    }
}

/// The ends of a call and, if it was stopped or refused, of the next one for the same problem. The counts are those
/// after the first call.
#[derive(Clone, Copy)]
pub struct Twice {
    pub first: Ended,
    /// Whether two solvables are chosen in the first call or, if it was stopped, in the second one: first the first one,
    /// then the second one.
    in_order: bool,
    pub exempt: usize,
    clauses: usize,
    checks: u64,
    answers: u64,
    log: u64,
    pub second: Ended,
}

type Outcome = Result<Vec<SolvableId>, UnsolvableOrCancelled<Wrapped>>;

fn ending_of(solver: &Solver<Wrapped>, outcome: &Outcome) -> Ended {
    match outcome {
        Ok(chosen) => Ended::Answer(
            set_of(chosen),
            set_of(solver.exempt_solvables()),
            solver.deferred_requirements_count(),
        ),
        Err(UnsolvableOrCancelled::Unsolvable(conflict)) => {
            if leave_no_set(conflict.rules(), 64) {
                Ended::Refuted
            } else {
                Ended::Obeyed
            }
        }
        Err(UnsolvableOrCancelled::Cancelled(value)) => Ended::Cancelled(*value),
        Err(UnsolvableOrCancelled::Exhausted(e)) => Ended::Exhausted(*e),
    }
}

/// Returns whether the first solvable and then the second one are chosen.
fn are_in_order(outcome: &Outcome) -> bool {
    match outcome {
        Ok(chosen) => chosen.as_slice() == [SolvableId(0), SolvableId(1)].as_slice(),
        Err(_) => false,
    }
}

type InputProblem = Problem<SolvableId, EmptySolvables<SolvableId>>;

/// Returns a problem with copies of these parts.
fn problem_of(
    alloc: Global,
    requirements: &[ConditionalRequirement],
    constraints: &[VersionSetId],
    soft: &[SoftRequirement<SolvableId>],
) -> Result<InputProblem, AllocError> {
    let requirements = Vec::from_slice(alloc, requirements)?;
    let constraints = Vec::from_slice(alloc, constraints)?;
    let soft = Vec::from_slice(alloc, soft)?;
    Ok(
        Problem::new()
            .requirements(requirements)
            .constraints(constraints)
            .soft_list(soft),
    )
}

fn solve_both(
    alloc: Global,
    provider: Wrapped,
    first: InputProblem,
    second: InputProblem,
) -> Twice {
    let mut solver = Solver::new(alloc, provider);
    let mut outcome = solver.solve(first);
    let ended = ending_of(&solver, &outcome);
    let mut twice = Twice {
        first: ended,
        in_order: false,
        exempt: solver.exempt_solvables().len(),
        clauses: solver.clause_count(),
        checks: solver.provider().checks(),
        answers: solver.provider().answers(),
        log: solver.provider().log(),
        second: ended,
    };
    if ended.is_early() {
        outcome = solver.solve(second);
        twice.second = ending_of(&solver, &outcome);
    } else {
        drop(second);
    }
    twice.in_order = are_in_order(&outcome);
    drop(outcome);
    drop(solver);
    twice
}

/// Solves the problem of an input with a provider of this behaviour, and again if the first call was stopped or refused.
pub fn solve_twice(alloc: Global, input: &str, behaviour: Behaviour) -> Result<Twice, Fail> {
    let request = request(alloc, input)?;
    let first = problem_of(
        alloc,
        &request.requirements,
        &request.constraints,
        &request.soft_requirements,
    )?;
    let second = problem_of(
        alloc,
        &request.requirements,
        &request.constraints,
        &request.soft_requirements,
    )?;
    let provider = Wrapped::new(alloc, request.catalog, behaviour);
    Ok(solve_both(alloc, provider, first, second))
}

/// Inputs and their outcomes: one requirement, soft requirements of all kinds, a shared requirement, a clash, a condition
/// that does not hold, and one that does.
pub const ROWS: [(&str, Ended); 6] = [
    (
        "package asdf=1\npackage efgh=4\npackage dummy=6\nrequires asdf=1 efgh\nrequire asdf\n",
        Ended::Answer(0b11, 0, 0),
    ),
    (
        "package a=1\npackage b=1\npackage b=2\npackage c=1\npackage d=1\npackage e=1\npackage locked=1\npackage locked=2\npackage unknown-deps=1\nrequires a=1 b@0..10\nrequires e=1 d\nlock locked=2\nunknown unknown-deps=1 no data\nrequire a@0..10\nconstrain b@1..2\nconstrain c\nsoft b=2\nsoft c=1\nsoft e=1\nsoft locked=1\nsoft unknown-deps=1\n",
        Ended::Answer(0b111_1011, 0b110_0000, 0),
    ),
    (
        "package x=1\npackage y=1\npackage z=1\npackage z=2\npackage z=3\npackage z=4\npackage z=5\nrequires x=1 z\nrequires y=1 z\nrequires z=5 missing\nrequire x\nrequire y\n",
        Ended::Answer(0b10_0011, 0, 0),
    ),
    (
        "package p=1\npackage p=2\npackage q=1\npackage q=2\npackage r=1\npackage r=2\nrequires p=1 r@1\nrequires p=2 r@1\nrequires q=1 r@2\nrequires q=2 r@2\nrequire p\nrequire q\n",
        Ended::Refuted,
    ),
    (
        "package p=1\npackage c=1\npackage x=1\nrequires p=1 x if c or e\nrequire p\n",
        Ended::Answer(0b1, 0, 2),
    ),
    (
        "package p=1\npackage c=1\npackage x=1\nrequires p=1 x if c or e\nrequire p\nrequire c\n",
        Ended::Answer(0b111, 0, 1),
    ),
];

#[test]
fn each_row_is_met(rt: HostRuntime) -> Result<(), Fail> {
    for (input, wanted) in ROWS {
        let twice = solve_twice(rt.alloc(), input, Behaviour::Same)?;
        assert!(rt; twice.first == wanted, "{input}");
    }
    Ok(())
}

/// Asserts that a call ended early, with nothing exempt and with clauses between these numbers, and that the next one
/// meets the row.
fn expect_early(
    rt: &impl Abort,
    twice: Twice,
    early: Ended,
    wanted: Ended,
    clauses: (usize, usize),
) {
    assert!(rt; twice.first == early);
    assert!(rt; twice.second == wanted);
    assert_eq!(rt; twice.exempt, 0);
    assert!(rt; clauses.0 <= twice.clauses && twice.clauses <= clauses.1);
}

/// Stops the search at each check that the provider counts. The later the check, the more clauses are counted.
fn stop_at_each_check(rt: &impl Abort, alloc: Global, row: (&str, Ended)) -> Result<(), Fail> {
    let undisturbed = solve_twice(alloc, row.0, Behaviour::Same)?;
    let mut clauses = 0;
    for check in 1..undisturbed.checks.saturating_add(1) {
        let stopped = Behaviour::StoppedAt {
            check,
            value: check,
        };
        let twice = solve_twice(alloc, row.0, stopped)?;
        let between = (clauses, undisturbed.clauses);
        expect_early(rt, twice, Ended::Cancelled(check), row.1, between);
        clauses = twice.clauses;
    }
    assert!(rt; 2 < undisturbed.checks);
    Ok(())
}

/// Refuses each answer that the provider counts.
fn refuse_each_answer(rt: &impl Abort, alloc: Global, row: (&str, Ended)) -> Result<(), Fail> {
    let undisturbed = solve_twice(alloc, row.0, Behaviour::Same)?;
    let mut clauses = 0;
    for answer in 1..undisturbed.answers.saturating_add(1) {
        let twice = solve_twice(alloc, row.0, Behaviour::RefusedAt(answer))?;
        let between = (clauses, undisturbed.clauses);
        let refused = Ended::Exhausted(Exhausted::Memory);
        expect_early(rt, twice, refused, row.1, between);
        clauses = twice.clauses;
    }
    assert!(rt; 2 < undisturbed.answers);
    Ok(())
}

#[test]
fn each_check_may_stop_the_search(rt: HostRuntime) -> Result<(), Fail> {
    for row in ROWS {
        stop_at_each_check(&rt, rt.alloc(), row)?;
    }
    Ok(())
}

#[test]
fn each_answer_of_the_provider_may_be_refused(rt: HostRuntime) -> Result<(), Fail> {
    for row in ROWS {
        refuse_each_answer(&rt, rt.alloc(), row)?;
    }
    Ok(())
}

#[test]
fn the_third_check_stops_the_search(rt: HostRuntime) -> Result<(), Fail> {
    let stopped = Behaviour::StoppedAt { check: 3, value: 7 };
    let twice = solve_twice(rt.alloc(), ROWS[0].0, stopped)?;
    assert!(rt; twice.first == Ended::Cancelled(7));
    assert!(rt; twice.second == Ended::Answer(0b11, 0, 0));
    assert!(rt; twice.in_order);
    Ok(())
}

/// The package x of the inputs with a condition.
const X: NameId = NameId(2);

#[test]
fn the_package_behind_a_condition_is_not_asked_where_that_does_not_hold(
    rt: HostRuntime,
) -> Result<(), Fail> {
    let plain = solve_twice(rt.alloc(), ROWS[4].0, Behaviour::Same)?;
    assert_eq!(rt; plain.log, 124);
    let stopped = Behaviour::StoppedOnceAsked {
        package: X,
        value: 9,
    };
    let without = solve_twice(rt.alloc(), ROWS[4].0, stopped)?;
    assert!(rt; without.first == Ended::Answer(0b1, 0, 2));
    let with = solve_twice(rt.alloc(), ROWS[5].0, stopped)?;
    assert!(rt; with.first == Ended::Cancelled(9));
    Ok(())
}

/// The newest three of four versions of one package each need a missing package, and three other packages of five
/// versions are required as well.
const FAILING: &str =
    "package a=1\npackage a=2\npackage a=3\npackage a=4\nrequires a=2 missing\nrequires a=3 missing\nrequires a=4 missing\npackage b=1\npackage b=2\npackage b=3\npackage b=4\npackage b=5\npackage c=1\npackage c=2\npackage c=3\npackage c=4\npackage c=5\npackage d=1\npackage d=2\npackage d=3\npackage d=4\npackage d=5\nrequire a\nrequire b\nrequire c\nrequire d\n";

/// The other packages are decided at first and at the end, which takes 23 checks. If they were decided after each version
/// that fails, it would be 32.
#[test]
fn nothing_else_is_decided_while_versions_fail_one_after_another(
    rt: HostRuntime,
) -> Result<(), Fail> {
    let twice = solve_twice(rt.alloc(), FAILING, Behaviour::Same)?;
    assert!(rt; matches!(twice.first, Ended::Answer(_, _, _)));
    assert!(rt; twice.checks < 28);
    Ok(())
}
