//! An answer and a conflict of the worked provider.

use super::Worked;
use resolver_clause_store::{ConditionalRequirement, Exhausted, Requirement, VersionSetId};
use resolvo::{Conflict, Problem, Solver, UnsolvableOrCancelled};
use std::alloc::{AllocError, Global};
use std::process::Abort;
use std::test::Fail;

type Outcome = Result<Vec<u32>, UnsolvableOrCancelled<Worked>>;

/// The requirement of a version set.
fn required(version_set: u32) -> ConditionalRequirement {
    ConditionalRequirement {
        condition: None,
        requirement: Requirement::Single(VersionSetId(version_set)),
    }
}

/// Returns the message of a conflict.
fn conflict_text(
    solver: &Solver<Worked>,
    conflict: &Conflict<u32, u32>,
) -> Result<String, Exhausted> {
    let message = conflict.display_user_friendly(solver)?;
    let text = message.text();
    drop(message);
    text
}

/// Returns the message of a call that gave no answer, or an empty text if it found no conflict.
fn refusal_text(
    alloc: Global,
    solver: &Solver<Worked>,
    why: &UnsolvableOrCancelled<Worked>,
) -> Result<String, Exhausted> {
    match why {
        UnsolvableOrCancelled::Unsolvable(conflict) => conflict_text(solver, conflict),
        UnsolvableOrCancelled::Exhausted(_) => Ok(String::new(alloc)),
        UnsolvableOrCancelled::Cancelled(_) => Ok(String::new(alloc)),
    }
}

/// Returns the message of an outcome, or an empty text if it has none.
fn message_of(
    alloc: Global,
    solver: &Solver<Worked>,
    outcome: &Outcome,
) -> Result<String, Exhausted> {
    match outcome {
        Ok(_) => Ok(String::new(alloc)),
        Err(why) => refusal_text(alloc, solver, why),
    }
}

/// Returns whether the outcome is these solvables, in the order in which they were chosen.
fn is_answer(outcome: &Outcome, wanted: &[u32]) -> bool {
    match outcome {
        Ok(chosen) => chosen.as_slice() == wanted,
        Err(_) => false,
    }
}

/// Returns whether `app ^2.0` has this answer.
fn app_has(alloc: Global, wanted: &[u32]) -> Result<bool, AllocError> {
    let requirements = Vec::from_array(alloc, [required(0)])?;
    let mut solver = Solver::new(alloc, Worked { alloc });
    let outcome = solver.solve(Problem::new().requirements(requirements));
    let is_right = is_answer(&outcome, wanted);
    drop(outcome);
    drop(solver);
    Ok(is_right)
}

/// Returns the message of `app ^2.0` beside `log =1.1.0`.
fn clash_text(alloc: Global) -> Result<String, Exhausted> {
    let requirements = Vec::from_array(alloc, [required(0), required(5)])?;
    let mut solver = Solver::new(alloc, Worked { alloc });
    let outcome = solver.solve(Problem::new().requirements(requirements));
    let text = message_of(alloc, &solver, &outcome);
    drop(outcome);
    drop(solver);
    text
}

/// Asserts the message of this clash.
fn expect_clash(rt: &impl Abort, alloc: Global, wanted: &str) -> Result<(), Exhausted> {
    let text = clash_text(alloc)?;
    assert_eq!(rt; text.as_str(), wanted);
    Ok(())
}

#[test]
fn the_newest_releases_are_taken(rt: HostRuntime) -> Result<(), Fail> {
    assert!(rt; app_has(rt.alloc(), &[0, 2, 5])?);
    Ok(())
}

#[test]
fn a_conflict_is_explained(rt: HostRuntime) -> Result<(), Fail> {
    let wanted = "The following packages are incompatible
├─ app ^2.0 can be installed with any of the following options:
│  └─ app 2.0.0 would require
│     └─ web ^2.0, which can be installed with any of the following options:
│        └─ web 2.1.0 would require
│           └─ log ^2.0, which can be installed with any of the following options:
│              └─ log 2.0.1
└─ log =1.1.0 cannot be installed because there are no viable options:
   └─ log 1.1.0, which conflicts with the versions reported above.
";
    expect_clash(&rt, rt.alloc(), wanted)?;
    Ok(())
}
