//! Inputs whose answers are the same if no score ever grows.

use super::super::{Fault, Outcome, outcome_of};
use crate::request::{Request, read_request};
use resolvo::{Problem, Solver};
use std::alloc::Global;
use std::test::Fail;

/// Returns the outcome of a request if no score ever grows.
fn solve_without_scores(alloc: Global, request: Request) -> Result<Outcome, Fault> {
    let problem = Problem::new()
        .requirements(request.requirements)
        .constraints(request.constraints)
        .soft_list(request.soft_requirements);
    let solver = Solver::new(alloc, request.catalog);
    let mut solver = solver.with_activity_params(0, 0);
    let answered = solver.solve(problem);
    let outcome = outcome_of(alloc, &solver, &answered);
    drop(answered);
    drop(solver);
    outcome
}

/// Returns whether an outcome is an answer with these lines.
fn are_lines(outcome: &Result<Outcome, Fault>, wanted: &str) -> bool {
    match outcome {
        Ok(outcome) => match outcome {
            Outcome::Answer(text) => text.as_str() == wanted,
            Outcome::Conflict(_) => false,
        },
        Err(_) => false,
    }
}

/// Returns whether an input has an answer with these lines if no score ever grows.
fn answers(alloc: Global, input: &str, wanted: &str) -> bool {
    match read_request(alloc, input.as_bytes()) {
        Ok(request) => are_lines(&solve_without_scores(alloc, request), wanted),
        Err(_) => false,
    }
}

#[test]
fn versions_are_passed_over(rt: HostRuntime) -> Result<(), Fail> {
    let input =
        "package asdf=1\npackage efgh=4\npackage dummy=6\nrequires asdf=1 efgh\nrequire asdf\n";
    assert!(rt; answers(rt.alloc(), input, "asdf=1\nefgh=4\n"));
    let input =
        "package asdf=4\npackage asdf=3\npackage b=1\nrequires asdf=4 b\nrequires b=1 idontexist\nrequire asdf\n";
    assert!(rt; answers(rt.alloc(), input, "asdf=3\n"));
    let input =
        "package af=3\npackage af=2\npackage af=1\npackage api=3\npackage api=2\npackage api=1\npackage otlp=1\npackage grpc=1\nrequires af=3 api@2..4\nrequires af=3 otlp\nrequires af=2 api@2..4\nrequires af=2 otlp\nrequires api=3 sdk\nrequires otlp=1 grpc\nrequires grpc=1 api@1\nrequire af\n";
    assert!(rt; answers(rt.alloc(), input, "af=1\n"));
    Ok(())
}

#[test]
fn favored_versions_are_tried_first_or_give_way(rt: HostRuntime) -> Result<(), Fail> {
    let input =
        "package a=1\npackage a=2\npackage b=1\npackage b=2\npackage c=1\npackage c=2\nrequires a=1 c@1\nrequires b=1 c@1\nrequires b=2 c@2\nfavor a=1\nfavor b=1\nfavor c=1\nrequire a\nrequire b@2\n";
    assert!(rt; answers(rt.alloc(), input, "a=2\nb=2\nc=2\n"));
    let input =
        "package a=1\npackage a=2\npackage b=1\npackage b=2\npackage c=1\npackage c=2\nfavor a=1\nfavor b=1\nfavor c=1\nrequire a\nrequire b@2\n";
    assert!(rt; answers(rt.alloc(), input, "a=1\nb=2\n"));
    Ok(())
}

#[test]
fn unions_have_a_version_each(rt: HostRuntime) -> Result<(), Fail> {
    let input =
        "package p=1\npackage c=1\npackage c=2\npackage d=1\nrequires p=1 c | d\nrequires p=1 x if c@2\nexclude c=1 old\nrequire p\n";
    assert!(rt; answers(rt.alloc(), input, "d=1\np=1\n"));
    let input =
        "package a=1\npackage b=1\npackage c=1\npackage d=1\npackage e=1\npackage f=1\nrequires c=1 a\nrequires d=1 b\nrequires e=1 a | b\nrequires f=1 b\nconstrains f=1 a@2\nrequire c | d\nrequire e\nrequire f\n";
    assert!(rt; answers(rt.alloc(), input, "b=1\nd=1\ne=1\nf=1\n"));
    Ok(())
}
