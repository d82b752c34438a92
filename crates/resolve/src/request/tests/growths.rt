//! Growths that are refused. `./refusals` refuses each allocation of these tests in turn.
//!
//! A test fails with these words if a call was refused, the next one met what is wanted, and so did all others.

use super::graphs::{CLASH, Call, Known, MISSING, Made, make};
use super::interruptions::{Ended, ROWS, solve_twice};
use super::wrapped::Behaviour;
use resolvo::Exhausted;
use std::alloc::Global;
use std::test::Fail;

const MET_AGAIN: &str = "refused, and then met";

/// Solves the problem of a row. If memory is refused, nothing is exempt, and the same solver meets the row in the next
/// call.
fn meet(alloc: Global, row: usize) -> Result<(), Fail> {
    let Some((input, wanted)) = ROWS.get(row) else {
        return Err(Fail::from("no such row"));
    };
    let twice = solve_twice(alloc, input, Behaviour::Same)?;
    if twice.second != *wanted {
        return Err(Fail::from("another outcome"));
    }
    if twice.first == *wanted {
        return Ok(());
    }
    if twice.first != Ended::Exhausted(Exhausted::Memory) || twice.exempt != 0 {
        return Err(Fail::from("no refusal"));
    }
    Err(Fail::from(MET_AGAIN))
}

#[test]
fn one_requirement(rt: HostRuntime) -> Result<(), Fail> {
    meet(rt.alloc(), 0)
}

#[test]
fn soft_requirements(rt: HostRuntime) -> Result<(), Fail> {
    meet(rt.alloc(), 1)
}

#[test]
fn a_shared_requirement(rt: HostRuntime) -> Result<(), Fail> {
    meet(rt.alloc(), 2)
}

#[test]
fn a_clash(rt: HostRuntime) -> Result<(), Fail> {
    meet(rt.alloc(), 3)
}

#[test]
fn a_condition_that_does_not_hold(rt: HostRuntime) -> Result<(), Fail> {
    meet(rt.alloc(), 4)
}

#[test]
fn a_condition_that_holds(rt: HostRuntime) -> Result<(), Fail> {
    meet(rt.alloc(), 5)
}

/// Makes a call on a conflict, and again if it is refused.
fn tell(alloc: Global, known: Known, call: Call) -> Result<(), Fail> {
    match make(alloc, known, call)? {
        Made::AtOnce => Ok(()),
        Made::Again => Err(Fail::from(MET_AGAIN)),
        Made::Wrong => Err(Fail::from("another outcome")),
    }
}

#[test]
fn the_graph_of_a_clash(rt: HostRuntime) -> Result<(), Fail> {
    tell(rt.alloc(), CLASH, Call::Graph)
}

#[test]
fn a_copy_of_the_graph_of_a_clash(rt: HostRuntime) -> Result<(), Fail> {
    tell(rt.alloc(), CLASH, Call::Copy)
}

#[test]
fn the_groups_of_a_clash(rt: HostRuntime) -> Result<(), Fail> {
    tell(rt.alloc(), CLASH, Call::Groups)
}

#[test]
fn the_text_of_a_clash(rt: HostRuntime) -> Result<(), Fail> {
    tell(rt.alloc(), CLASH, Call::Text)
}

#[test]
fn the_formatted_message_of_a_clash(rt: HostRuntime) -> Result<(), Fail> {
    tell(rt.alloc(), CLASH, Call::Format)
}

#[test]
fn the_minimal_conflict_of_a_clash(rt: HostRuntime) -> Result<(), Fail> {
    tell(rt.alloc(), CLASH, Call::Minimal)
}

#[test]
fn the_graph_of_what_is_missing(rt: HostRuntime) -> Result<(), Fail> {
    tell(rt.alloc(), MISSING, Call::Graph)
}

#[test]
fn a_copy_of_the_graph_of_what_is_missing(rt: HostRuntime) -> Result<(), Fail> {
    tell(rt.alloc(), MISSING, Call::Copy)
}

#[test]
fn the_groups_of_what_is_missing(rt: HostRuntime) -> Result<(), Fail> {
    tell(rt.alloc(), MISSING, Call::Groups)
}

#[test]
fn the_text_of_what_is_missing(rt: HostRuntime) -> Result<(), Fail> {
    tell(rt.alloc(), MISSING, Call::Text)
}

#[test]
fn the_formatted_message_of_what_is_missing(rt: HostRuntime) -> Result<(), Fail> {
    tell(rt.alloc(), MISSING, Call::Format)
}

#[test]
fn the_minimal_conflict_of_what_is_missing(rt: HostRuntime) -> Result<(), Fail> {
    tell(rt.alloc(), MISSING, Call::Minimal)
}
