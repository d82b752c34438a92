//! A solver whose provider hints that the dependencies of all candidates are available, so that each candidate is read
//! early.

use super::super::Request;
use super::counts::{Counts, answered, counts_of};
use super::solving::{request, set_of};
use super::wrapped::{Behaviour, Wrapped};
use crate::ids::SolvableId;
use resolvo::{EmptySolvables, Problem, Solver};
use std::alloc::Global;
use std::test::Fail;

/// Returns the counts of a solver after a request, and the chosen set, if there is an answer.
fn counts_in(alloc: Global, request: Request) -> Counts {
    let problem = Problem::<SolvableId, EmptySolvables<SolvableId>>::new()
        .requirements(request.requirements)
        .constraints(request.constraints);
    let provider = Wrapped::new(alloc, request.catalog, Behaviour::Hinting);
    let mut solver = Solver::new(alloc, provider);
    let outcome = solver.solve(problem);
    let chosen = match &outcome {
        Ok(chosen) => Some(set_of(chosen)),
        Err(_) => None,
    };
    let counts = Counts {
        clauses: solver.clause_count(),
        deferred: solver.deferred_requirements_count(),
        chosen,
    };
    drop(outcome);
    drop(solver);
    counts
}

/// The same for the problem of an input.
fn hinted_counts(alloc: Global, input: &str) -> Result<Counts, Fail> {
    let request = request(alloc, input)?;
    Ok(counts_in(alloc, request))
}

#[test]
fn a_candidate_that_is_not_chosen_is_read_where_hints_say_so(rt: HostRuntime) -> Result<(), Fail> {
    let input = "package a=1\npackage a=2\npackage b=1\nrequires a=1 b\nrequire a\n";
    assert_eq!(rt; counts_of(rt.alloc(), input)?, answered(4, 0, 0b10));
    assert_eq!(rt; hinted_counts(rt.alloc(), input)?, answered(5, 0, 0b10));
    Ok(())
}

#[test]
fn versions_that_clash_are_passed_over_with_hints(rt: HostRuntime) -> Result<(), Fail> {
    let input =
        "package af=3\npackage af=2\npackage af=1\npackage api=3\npackage api=2\npackage api=1\npackage otlp=1\npackage grpc=1\nrequires af=3 api@2..4\nrequires af=3 otlp\nrequires af=2 api@2..4\nrequires af=2 otlp\nrequires api=3 sdk\nrequires otlp=1 grpc\nrequires grpc=1 api@1\nrequire af\n";
    let plain = counts_of(rt.alloc(), input)?;
    let hinted = hinted_counts(rt.alloc(), input)?;
    assert_eq!(rt; plain, answered(23, 0, 0b100));
    assert_eq!(rt; hinted, plain);
    Ok(())
}

#[test]
fn hints_take_out_no_disjunct_that_does_not_hold(rt: HostRuntime) -> Result<(), Fail> {
    let input = "package p=1\npackage c=1\npackage x=1\nrequires p=1 x if c or e\nrequire p\n";
    assert_eq!(rt; hinted_counts(rt.alloc(), input)?, answered(2, 2, 0b1));
    let input =
        "package p=1\npackage c=1\npackage x=1\nrequires p=1 x if c or e\nrequire p\nrequire c\n";
    assert_eq!(rt; hinted_counts(rt.alloc(), input)?, answered(5, 1, 0b111));
    Ok(())
}
