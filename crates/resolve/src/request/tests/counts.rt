//! The number of clauses that the solver reports.

use super::solving::{Asked, solve};
use std::alloc::Global;
use std::fmt::Write;
use std::test::Fail;

/// The numbers of clauses and of deferred disjuncts that the solver reports after the problem of an input, and the
/// chosen set, if there is an answer.
#[derive(Clone, Copy, Debug, PartialEq, Eq)]
pub struct Counts {
    pub clauses: usize,
    pub deferred: usize,
    pub chosen: Option<u32>,
}

pub fn counts_of(alloc: Global, input: &str) -> Result<Counts, Fail> {
    let solved = solve(alloc, Asked::new(input))?;
    Ok(Counts {
        clauses: solved.clauses,
        deferred: solved.deferred,
        chosen: solved.chosen(),
    })
}

/// Returns the counts of a problem that has an answer.
pub fn answered(clauses: usize, deferred: usize, chosen: u32) -> Counts {
    Counts {
        clauses,
        deferred,
        chosen: Some(chosen),
    }
}

#[test]
fn a_clause_for_each_requirement_and_each_digit_of_two_instances(
    rt: HostRuntime,
) -> Result<(), Fail> {
    assert_eq!(rt; counts_of(rt.alloc(), "")?, answered(1, 0, 0));
    let input =
        "package asdf=1\npackage efgh=4\npackage dummy=6\nrequires asdf=1 efgh\nrequire asdf\n";
    assert_eq!(rt; counts_of(rt.alloc(), input)?, answered(3, 0, 0b11));
    let input =
        "package asdf=4\npackage asdf=3\npackage b=1\nrequires asdf=4 b\nrequires b=1 idontexist\nrequire asdf\n";
    assert_eq!(rt; counts_of(rt.alloc(), input)?, answered(6, 0, 0b10));
    Ok(())
}

#[test]
fn clauses_for_conditions_exclusions_and_constraints(rt: HostRuntime) -> Result<(), Fail> {
    let input =
        "package p=1\npackage c=1\npackage c=2\npackage d=1\nrequires p=1 c | d\nrequires p=1 x if c@2\nexclude c=1 old\nrequire p\n";
    assert_eq!(rt; counts_of(rt.alloc(), input)?.clauses, 9);
    let input =
        "package a=1\npackage a=2\nexclude a=1 it is bad\nexclude a=2 it is worse\nrequire a@1\n";
    assert_eq!(rt; counts_of(rt.alloc(), input)?.clauses, 4);
    let input = "package a=1\nconstrains a=1 a@2..3\nrequire a@1\n";
    assert_eq!(rt; counts_of(rt.alloc(), input)?.clauses, 3);
    Ok(())
}

#[test]
fn disjuncts_that_do_not_hold_are_put_off(rt: HostRuntime) -> Result<(), Fail> {
    let input = "package p=1\npackage c=1\npackage x=1\nrequires p=1 x if c or e\nrequire p\n";
    assert_eq!(rt; counts_of(rt.alloc(), input)?, answered(2, 2, 0b1));
    Ok(())
}

#[test]
fn a_disjunct_that_holds_is_taken_out(rt: HostRuntime) -> Result<(), Fail> {
    let input =
        "package p=1\npackage c=1\npackage x=1\nrequires p=1 x if c or e\nrequire p\nrequire c\n";
    assert_eq!(rt; counts_of(rt.alloc(), input)?, answered(5, 1, 0b111));
    Ok(())
}

#[test]
fn of_two_disjuncts_with_a_version_set_in_common_one_may_hold(rt: HostRuntime) -> Result<(), Fail> {
    let input =
        "package p=1\npackage c=1\npackage e=1\npackage x=1\nrequires p=1 x if c and ( e or c )\nrequire p\nrequire c\n";
    let found = counts_of(rt.alloc(), input)?;
    assert_eq!(rt; found.deferred, 1);
    assert_eq!(rt; found.chosen, Some(0b1011));
    Ok(())
}

#[test]
fn constraints_that_forbid_four_versions_share_a_helper(rt: HostRuntime) -> Result<(), Fail> {
    let five =
        "package x=1\npackage y=1\npackage z=1\npackage z=2\npackage z=3\npackage z=4\npackage z=5\nconstrains x=1 z@9\nconstrains y=1 z@9\nrequire x\nrequire y\n";
    assert_eq!(rt; counts_of(rt.alloc(), five)?, answered(10, 0, 0b11));
    let three =
        "package x=1\npackage y=1\npackage z=1\npackage z=2\npackage z=3\nconstrains x=1 z@9\nconstrains y=1 z@9\nrequire x\nrequire y\n";
    assert_eq!(rt; counts_of(rt.alloc(), three)?.clauses, 9);
    Ok(())
}

#[test]
fn requirers_of_four_versions_share_a_gate(rt: HostRuntime) -> Result<(), Fail> {
    let four =
        "package x=1\npackage y=1\npackage z=1\npackage z=2\npackage z=3\npackage z=4\nrequires x=1 z\nrequires y=1 z\nrequire x\nrequire y\n";
    assert_eq!(rt; counts_of(rt.alloc(), four)?, answered(14, 0, 0b10_0011));
    let three =
        "package x=1\npackage y=1\npackage z=1\npackage z=2\npackage z=3\nrequires x=1 z\nrequires y=1 z\nrequire x\nrequire y\n";
    assert_eq!(rt; counts_of(rt.alloc(), three)?.clauses, 11);
    Ok(())
}

/// Returns an input that requires a package with this many versions, from 1 on.
fn versions_of_z(alloc: Global, count: u32) -> Result<String, Fail> {
    let mut input = String::new(alloc);
    for place in 0..count {
        let version = place.wrapping_add(1);
        write!(input, "package z={version}\n")?;
    }
    input.push_str("require z\n")?;
    Ok(input)
}

fn clauses_of_versions(alloc: Global, count: u32) -> Result<usize, Fail> {
    let input = versions_of_z(alloc, count)?;
    let found = counts_of(alloc, &input)?;
    Ok(found.clauses)
}

#[test]
fn two_hundred_versions_have_eight_digits_each(rt: HostRuntime) -> Result<(), Fail> {
    assert_eq!(rt; clauses_of_versions(rt.alloc(), 200)?, 1602);
    Ok(())
}

#[test]
fn a_requirement_that_is_listed_twice_has_its_clause_twice(rt: HostRuntime) -> Result<(), Fail> {
    let input =
        "package asdf=1\npackage efgh=4\npackage dummy=6\nrequires asdf=1 efgh\nrequires asdf=1 efgh\nrequire asdf\n";
    assert_eq!(rt; counts_of(rt.alloc(), input)?, answered(4, 0, 0b11));
    Ok(())
}
