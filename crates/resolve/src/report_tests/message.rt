//! Messages of graphs, byte for byte.
//!
//! The tests own nothing: what they call makes the rules, the graph and the message, and asserts it.

use super::rules::{Row, instance_of, required_in};
use super::texts::expect_message;
use resolver_clause_store::By;
use std::test::Fail;

#[test]
fn two_edges_to_the_unresolved_node(rt: HostRuntime) -> Result<(), Fail> {
    let rows = [required_in(By::Root, 7, &[]), required_in(By::Root, 7, &[])];
    let text = "x * cannot be installed because there are no viable options:\n";
    expect_message(&rt, rt.alloc(), &rows, text)?;
    Ok(())
}

#[test]
fn two_versions_of_a_shared_dependency(rt: HostRuntime) -> Result<(), Fail> {
    let rows = [
        required_in(By::Root, 4, &[3]),
        required_in(By::Solvable(3), 5, &[4]),
        required_in(By::Root, 6, &[5]),
        instance_of(3, 5),
        instance_of(3, 4),
    ];
    let text = "The following packages are incompatible
├─ bluesky-widgets >=0, <100 can be installed with any of the following options:
│  └─ bluesky-widgets 42 would require
│     └─ suitcase-utils >=0, <54, which can be installed with any of the following options:
│        └─ suitcase-utils 53
└─ suitcase-utils >=54, <100 cannot be installed because there are no viable options:
   └─ suitcase-utils 54, which conflicts with the versions reported above.
";
    expect_message(&rt, rt.alloc(), &rows, text)?;
    Ok(())
}

#[test]
fn a_lock_that_is_newer(rt: HostRuntime) -> Result<(), Fail> {
    let rows = [
        required_in(By::Root, 1, &[1]),
        Row::Lock {
            locked: 0,
            forbidden: 1,
        },
    ];
    let text = "The following packages are incompatible
└─ a >=2, <3 can be installed with any of the following options:
   └─ a 2
├─ a 1 is locked, but another version is required as reported above
";
    expect_message(&rt, rt.alloc(), &rows, text)?;
    Ok(())
}

#[test]
fn a_cycle_ends(rt: HostRuntime) -> Result<(), Fail> {
    let rows = [
        required_in(By::Root, 0, &[0]),
        required_in(By::Solvable(0), 2, &[2]),
        required_in(By::Solvable(2), 0, &[0]),
    ];
    let text = "The following packages are incompatible
└─ a * cannot be installed because there are no viable options:
   └─ a 1 would require
      └─ b *, which cannot be installed because there are no viable options:
         └─ b 1 would require
            └─ a *, which cannot be installed because there are no viable options:
";
    expect_message(&rt, rt.alloc(), &rows, text)?;
    Ok(())
}

#[test]
fn a_cycle_of_one_ends(rt: HostRuntime) -> Result<(), Fail> {
    let rows = [
        required_in(By::Root, 0, &[0]),
        required_in(By::Solvable(0), 0, &[0]),
    ];
    let text = "The following packages are incompatible
└─ a * cannot be installed because there are no viable options:
   └─ a 1 would require
      └─ a *, which cannot be installed because there are no viable options:
";
    expect_message(&rt, rt.alloc(), &rows, text)?;
    Ok(())
}

#[test]
fn a_constraint_of_the_root(rt: HostRuntime) -> Result<(), Fail> {
    let rows = [
        required_in(By::Root, 0, &[0]),
        Row::Constrains {
            by: By::Root,
            version_set: 3,
            candidate: 2,
        },
        required_in(By::Solvable(0), 2, &[2]),
    ];
    let text = "The following packages are incompatible
└─ a * can be installed with any of the following options:
   └─ a 1 would require
      └─ b *, which can be installed with any of the following options:
         └─ b 1
├─ the constraint b >=2, <3 cannot be fulfilled
";
    expect_message(&rt, rt.alloc(), &rows, text)?;
    Ok(())
}
