//! Each text that a message asks for is refused in turn.

use super::solving::request;
use super::wrapped::{Behaviour, Wrapped};
use crate::ids::SolvableId;
use resolvo::{EmptySolvables, Problem, Solver, UnsolvableOrCancelled};
use std::alloc::Global;
use std::process::Abort;
use std::test::Fail;

/// The result of making a message.
#[derive(Clone, Copy, PartialEq)]
enum Text {
    Right,
    Refused,
    Wrong,
}

/// The results of making a message twice, and the number of answers and texts of the provider before the first one and
/// after it.
#[derive(Clone, Copy)]
struct Told {
    first: Text,
    second: Text,
    before: u64,
    after: u64,
}

type InputProblem = Problem<SolvableId, EmptySolvables<SolvableId>>;

type Outcome = Result<Vec<SolvableId>, UnsolvableOrCancelled<Wrapped>>;

fn text_of(solver: &Solver<Wrapped>, outcome: &Outcome, message: &str) -> Text {
    let Err(UnsolvableOrCancelled::Unsolvable(conflict)) = outcome else {
        return Text::Wrong;
    };
    let Ok(displayed) = conflict.display_user_friendly(solver) else {
        return Text::Wrong;
    };
    match displayed.text() {
        Ok(text) => {
            if text.as_str() == message {
                Text::Right
            } else {
                Text::Wrong
            }
        }
        Err(_) => Text::Refused,
    }
}

fn tell_twice(alloc: Global, provider: Wrapped, problem: InputProblem, message: &str) -> Told {
    let mut solver = Solver::new(alloc, provider);
    let outcome = solver.solve(problem);
    let before = solver.provider().answers();
    let first = text_of(&solver, &outcome, message);
    let after = solver.provider().answers();
    let second = text_of(&solver, &outcome, message);
    drop(outcome);
    drop(solver);
    Told {
        first,
        second,
        before,
        after,
    }
}

/// Makes the message of an input's conflict twice, with a provider of this behaviour.
fn tell(alloc: Global, input: &str, message: &str, behaviour: Behaviour) -> Result<Told, Fail> {
    let request = request(alloc, input)?;
    let problem = Problem::new()
        .requirements(request.requirements)
        .constraints(request.constraints);
    let provider = Wrapped::new(alloc, request.catalog, behaviour);
    Ok(tell_twice(alloc, provider, problem, message))
}

/// Refuses each text of a message in turn. There are at least this many.
fn refuse_each_text(
    rt: &impl Abort,
    alloc: Global,
    input: &str,
    message: &str,
    least: u64,
) -> Result<(), Fail> {
    let told = tell(alloc, input, message, Behaviour::Same)?;
    assert!(rt; told.first == Text::Right && told.second == Text::Right);
    assert!(rt; told.before.saturating_add(least) <= told.after);
    let end = told.after.saturating_add(1);
    for text in told.before.saturating_add(1)..end {
        let refused = tell(alloc, input, message, Behaviour::RefusedAt(text))?;
        assert!(rt; refused.first == Text::Refused, "{text}");
        assert!(rt; refused.second == Text::Right, "{text}");
    }
    Ok(())
}

#[test]
fn names_version_sets_and_merged_versions_may_be_refused(rt: HostRuntime) -> Result<(), Fail> {
    let input =
        "package p=1\npackage p=2\npackage q=1\npackage q=2\npackage r=1\npackage r=2\nrequires p=1 r@1\nrequires p=2 r@1\nrequires q=1 r@2\nrequires q=2 r@2\nrequire p\nrequire q\n";
    let message = "The following packages are incompatible
├─ q * can be installed with any of the following options:
│  └─ q 1 | 2 would require
│     └─ r >=2, <3, which can be installed with any of the following options:
│        └─ r 2
└─ p * cannot be installed because there are no viable options:
   └─ p 1 | 2 would require
      └─ r >=1, <2, which cannot be installed because there are no viable options:
         └─ r 1, which conflicts with the versions reported above.
";
    refuse_each_text(&rt, rt.alloc(), input, message, 12)
}

#[test]
fn reasons_may_be_refused(rt: HostRuntime) -> Result<(), Fail> {
    let input = "package a=1\nexclude a=1 it is bad\nrequire a\n";
    let message = "The following packages are incompatible
└─ a * cannot be installed because there are no viable options:
   └─ a 1 is excluded because it is bad
";
    refuse_each_text(&rt, rt.alloc(), input, message, 4)
}
