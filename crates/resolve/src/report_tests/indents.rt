//! The indents of messages: the levels above each line, and those above a line with siblings below it.

use super::rules::required_in;
use super::texts::expect_message;
use resolver_clause_store::By;
use std::test::Fail;

/// The last of its siblings, one with a sibling below it, the last twice, and one with a sibling below it.
#[test]
fn levels_one_after_the_other(rt: HostRuntime) -> Result<(), Fail> {
    let rows = [
        required_in(By::Root, 0, &[1, 0]),
        required_in(By::Solvable(1), 2, &[2]),
        required_in(By::Solvable(2), 4, &[3]),
        required_in(By::Solvable(2), 5, &[4]),
    ];
    let text = "The following packages are incompatible
└─ a * can be installed with any of the following options:
   ├─ a 2 would require
   │  └─ b *, which can be installed with any of the following options:
   │     └─ b 1 would require
   │        ├─ bluesky-widgets >=0, <100, which can be installed with any of the following options:
   │        │  └─ bluesky-widgets 42
   │        └─ suitcase-utils >=0, <54, which can be installed with any of the following options:
   │           └─ suitcase-utils 53
   └─ a 1
";
    expect_message(&rt, rt.alloc(), &rows, text)?;
    Ok(())
}

/// Without an indent at the top, the last of one line has none, and the last of one below it has a single level.
#[test]
fn no_indent_at_the_top(rt: HostRuntime) -> Result<(), Fail> {
    let rows = [
        required_in(By::Root, 0, &[1]),
        required_in(By::Solvable(1), 7, &[]),
    ];
    let text = "a * cannot be installed because there are no viable options:
└─ a 2 would require
   └─ x *, for which no candidates were found.
";
    expect_message(&rt, rt.alloc(), &rows, text)?;
    Ok(())
}
