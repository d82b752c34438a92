//! Soft requirements of an input.

use super::super::Request;
use super::solving::request;
use crate::ids::SolvableId;
use resolvo::{Problem, SoftRequirement, Solver, VersionSetId};
use std::alloc::Global;
use std::test::Fail;

fn has_soft(
    alloc: Global,
    input: &str,
    wanted: &[SoftRequirement<SolvableId>],
) -> Result<bool, Fail> {
    let request = request(alloc, input)?;
    Ok(request.soft_requirements.as_slice() == wanted)
}

#[test]
fn soft_requirements_keep_the_order_of_their_lines(rt: HostRuntime) -> Result<(), Fail> {
    let input = "package a=1\npackage b=1\nsoft b=1\nsoft a\nsoft a=1\nsoft b=1\n";
    let wanted = [
        SoftRequirement::Solvable(SolvableId(1)),
        SoftRequirement::Matching(VersionSetId(0)),
        SoftRequirement::Solvable(SolvableId(0)),
        SoftRequirement::Solvable(SolvableId(1)),
    ];
    assert!(rt; has_soft(rt.alloc(), input, &wanted)?);
    Ok(())
}

fn exempts_in(alloc: Global, request: Request, wanted: &[SolvableId]) -> bool {
    let problem = Problem::new()
        .requirements(request.requirements)
        .constraints(request.constraints)
        .soft_list(request.soft_requirements);
    let mut solver = Solver::new(alloc, request.catalog);
    let outcome = solver.solve(problem);
    let is_right = outcome.is_ok() & (solver.exempt_solvables() == wanted);
    drop(outcome);
    drop(solver);
    is_right
}

/// Returns whether an input has an answer with exactly these exempt solvables, in this order.
fn exempts(alloc: Global, input: &str, wanted: &[SolvableId]) -> Result<bool, Fail> {
    let request = request(alloc, input)?;
    Ok(exempts_in(alloc, request, wanted))
}

/// Returns whether soft lines after other lines have an answer with exactly these exempt solvables.
fn exempt_behind(
    alloc: Global,
    lines: &str,
    soft: &str,
    wanted: &[SolvableId],
) -> Result<bool, Fail> {
    let mut input = String::from_str(alloc, lines)?;
    input.push_str(soft)?;
    exempts(alloc, &input, wanted)
}

#[test]
fn one_that_is_locked_out_is_exempt_if_it_came_first(rt: HostRuntime) -> Result<(), Fail> {
    let lines = "package a=1\npackage a=2\nlock a=2\n";
    let first = "soft a=1\nsoft a=2\n";
    assert!(rt; exempt_behind(rt.alloc(), lines, first, &[SolvableId(0)])?);
    assert!(rt; exempt_behind(rt.alloc(), lines, "soft a=1\nrequire a\n", &[])?);
    Ok(())
}

#[test]
fn a_condition_that_holds_later_asks_for_a_package(rt: HostRuntime) -> Result<(), Fail> {
    let lines =
        "package p=1\npackage c=1\npackage x=1\npackage x=2\nrequires p=1 x if c\nlock x=2\nrequire p\n";
    let both = [SolvableId(2), SolvableId(1)];
    assert!(rt; exempt_behind(rt.alloc(), lines, "soft x=1\nsoft c=1\n", &both)?);
    assert!(rt; exempt_behind(rt.alloc(), lines, "soft c=1\nsoft x=1\n", &[SolvableId(1)])?);
    Ok(())
}

#[test]
fn one_whose_package_another_one_asked_for_is_not_exempt(rt: HostRuntime) -> Result<(), Fail> {
    let lines = "package t=1\npackage u=1\nexclude t=1 old\nrequires u=1 t\n";
    let both = [SolvableId(0), SolvableId(1)];
    assert!(rt; exempt_behind(rt.alloc(), lines, "soft t=1\nsoft u=1\n", &both)?);
    assert!(rt; exempt_behind(rt.alloc(), lines, "soft u=1\nsoft t=1\n", &[])?);
    Ok(())
}

#[test]
fn accepted_ones_of_packages_that_were_not_asked_are_exempt(rt: HostRuntime) -> Result<(), Fail> {
    let lines =
        "package a=1\npackage b=1\npackage b=2\npackage c=1\npackage d=1\npackage e=1\npackage locked=1\npackage locked=2\npackage unknown-deps=1\nrequires a=1 b@0..10\nrequires e=1 d\nlock locked=2\nunknown unknown-deps=1 no data\nrequire a@0..10\nconstrain b@1..2\nconstrain c\n";
    let soft = "soft b=2\nsoft c=1\nsoft e=1\nsoft locked=1\nsoft unknown-deps=1\n";
    let wanted = [SolvableId(5), SolvableId(6)];
    assert!(rt; exempt_behind(rt.alloc(), lines, soft, &wanted)?);
    Ok(())
}

#[test]
fn candidates_of_a_version_set_are_not_exempt(rt: HostRuntime) -> Result<(), Fail> {
    let locked = "package a=1\npackage a=2\npackage a=3\nlock a=2\n";
    assert!(rt; exempt_behind(rt.alloc(), locked, "soft a@1..4\n", &[])?);
    let excluded = "package t=1\nexclude t=1 old\n";
    assert!(rt; exempt_behind(rt.alloc(), excluded, "soft t\nsoft t=1\n", &[])?);
    assert!(rt; exempt_behind(rt.alloc(), excluded, "soft t=1\nsoft t\n", &[SolvableId(0)])?);
    Ok(())
}
