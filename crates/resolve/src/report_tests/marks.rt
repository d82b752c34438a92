//! What messages say of what can be installed and of what is missing, in a few small graphs.
//!
//! The line of a requirement says whether one of its candidates can be installed. If so, only those that can be stand
//! below it. What is missing comes first, without an indent at the top.
//!
//! The tests own nothing: what they call makes the rules, the graph and the message, and asserts it.

use super::rules::{required, required_in, rule_of};
use super::texts::{Texts, expect_message};
use resolver_clause_store::{By, Exhausted, Rule};
use resolver_report::{ConflictGraph, DisplayUnsat, graph_of};
use std::alloc::Global;
use std::process::Abort;
use std::test::Fail;

/// Adds the rules by which the root requires the first of 200 solvables, and each of them the next. The last one requires
/// what has no candidates, or nothing. The text of each is "suitcase-utils 1".
fn push_chain(rules: &mut Vec<Rule<u32, u32>>, ends_missing: bool) -> Result<(), Exhausted> {
    let alloc = *rules.allocator();
    rules.push(rule_of(alloc, required(By::Root, &[1001]))?)?;
    for s in 1001..1200 {
        rules.push(rule_of(alloc, required(By::Solvable(s), &[s + 1]))?)?;
    }
    if ends_missing {
        rules.push(rule_of(alloc, required(By::Solvable(1200), &[]))?)?;
    }
    Ok(())
}

fn chain_graph(alloc: Global, ends_missing: bool) -> Result<ConflictGraph<u32>, Exhausted> {
    let mut rules = Vec::new(alloc);
    push_chain(&mut rules, ends_missing)?;
    graph_of(alloc, &rules)
}

/// The message of such a chain.
fn chain_text(alloc: Global, ends_missing: bool) -> Result<String, Exhausted> {
    let graph = chain_graph(alloc, ends_missing)?;
    DisplayUnsat::new(graph, &Texts).text()
}

/// What is compared of a long message.
#[derive(Clone, Copy, PartialEq, Eq)]
struct Counts {
    bytes: usize,
    lines: usize,
    /// Lines of requirements with a candidate that can be installed.
    installable: usize,
    /// Lines of requirements with none.
    refused: usize,
}

fn lines_with_end(text: &str, end: &str) -> usize {
    text.lines().filter(|line| line.ends_with(end)).count()
}

fn counts_of(text: &str) -> Counts {
    Counts {
        bytes: text.len(),
        lines: text.lines().count(),
        installable: lines_with_end(text, " can be installed with any of the following options:"),
        refused: lines_with_end(
            text,
            " cannot be installed because there are no viable options:",
        ),
    }
}

/// Whether the message of such a chain has these counts.
fn chain_has(alloc: Global, ends_missing: bool, wanted: Counts) -> Result<bool, Exhausted> {
    let text = chain_text(alloc, ends_missing)?;
    Ok(counts_of(text.as_str()) == wanted)
}

/// The heading has 40 bytes. Below it 200 requirements and 200 candidates stand each one level below the other, which
/// takes 7 bytes for the branch of each and 3 for each level above it, 242,200 in all. The texts of the requirements take 56
/// bytes and 199 times 63, those of the candidates 199 times 31 and 17.
#[test]
fn long_chain_to_nothing_more(rt: HostRuntime) -> Result<(), Fail> {
    let wanted = Counts {
        bytes: 261_019,
        lines: 401,
        installable: 200,
        refused: 0,
    };
    assert!(rt; chain_has(rt.alloc(), false, wanted)?);
    Ok(())
}

/// There is no heading. The first requirement has no indent, and what stands below it takes the same 242,200 bytes for
/// indents. The texts of the requirements take 61 bytes, 199 times 68, and 41 for what has no candidates, those of the
/// candidates 200 times 31.
#[test]
fn long_chain_to_what_is_missing(rt: HostRuntime) -> Result<(), Fail> {
    let wanted = Counts {
        bytes: 262_034,
        lines: 401,
        installable: 0,
        refused: 200,
    };
    assert!(rt; chain_has(rt.alloc(), true, wanted)?);
    Ok(())
}

/// Two solvables require each other, so neither can be installed, and neither is missing.
#[test]
fn nothing_holds_a_cycle(rt: HostRuntime) -> Result<(), Fail> {
    let rows = [
        required(By::Root, &[1]),
        required(By::Solvable(1), &[2]),
        required(By::Solvable(2), &[1]),
    ];
    let text = "The following packages are incompatible
└─ a * cannot be installed because there are no viable options:
   └─ a 2 would require
      └─ a *, which cannot be installed because there are no viable options:
         └─ b 1 would require
            └─ a *, which cannot be installed because there are no viable options:
";
    expect_message(&rt, rt.alloc(), &rows, text)?;
    Ok(())
}

/// One of the same cycle can leave it.
#[test]
fn way_out_of_a_cycle(rt: HostRuntime) -> Result<(), Fail> {
    let rows = [
        required(By::Root, &[1]),
        required(By::Solvable(1), &[2]),
        required(By::Solvable(2), &[1, 3]),
    ];
    let text = "The following packages are incompatible
└─ a * can be installed with any of the following options:
   └─ a 2 would require
      └─ a *, which can be installed with any of the following options:
         └─ b 1 would require
            └─ a *, which can be installed with any of the following options:
               └─ bluesky-widgets 42
";
    expect_message(&rt, rt.alloc(), &rows, text)?;
    Ok(())
}

/// Asserts the message where the root requires the solvable 5, and this requirer has three requirements. The second has
/// these candidates. The third has two, and one of them is missing.
fn expect_of_runs(
    rt: &impl Abort,
    alloc: Global,
    by: By<u32>,
    second: &[u32],
    text: &str,
) -> Result<(), Exhausted> {
    let rows = [
        required_in(By::Root, 6, &[5]),
        required_in(by, 0, &[1]),
        required_in(by, 5, second),
        required_in(by, 2, &[2, 3]),
        required_in(By::Solvable(2), 7, &[]),
        required_in(By::Solvable(4), 7, &[]),
    ];
    expect_message(rt, alloc, &rows, text)?;
    Ok(())
}

/// One candidate of the second can be installed, so 5 can.
#[test]
fn one_of_each_run(rt: HostRuntime) -> Result<(), Fail> {
    let text = "The following packages are incompatible
└─ suitcase-utils >=54, <100 can be installed with any of the following options:
   └─ suitcase-utils 54 would require
      ├─ a *, which can be installed with any of the following options:
      │  └─ a 2
      ├─ suitcase-utils >=0, <54, which can be installed with any of the following options:
      │  └─ a 2
      └─ b *, which can be installed with any of the following options:
         └─ bluesky-widgets 42
";
    expect_of_runs(&rt, rt.alloc(), By::Solvable(5), &[4, 1], text)?;
    Ok(())
}

/// Both candidates of the second are missing, so 5 is.
#[test]
fn all_of_one_run(rt: HostRuntime) -> Result<(), Fail> {
    let text = "suitcase-utils >=54, <100 cannot be installed because there are no viable options:
└─ suitcase-utils 54 would require
   ├─ a *, which can be installed with any of the following options:
   │  └─ a 2
   ├─ b *, which can be installed with any of the following options:
   │  └─ bluesky-widgets 42
   └─ suitcase-utils >=0, <54, which cannot be installed because there are no viable options:
      ├─ suitcase-utils 53 would require
      │  └─ x *, for which no candidates were found.
      └─ b 1 would require
         └─ x *, for which no candidates were found.
";
    expect_of_runs(&rt, rt.alloc(), By::Solvable(5), &[4, 2], text)?;
    Ok(())
}

/// The root's edges to 2 and 4, which are missing, are told of first.
#[test]
fn one_of_each_run_of_the_root(rt: HostRuntime) -> Result<(), Fail> {
    let text = "suitcase-utils >=0, <54 cannot be installed because there are no viable options:
└─ suitcase-utils 53 would require
   └─ x *, for which no candidates were found.
b * cannot be installed because there are no viable options:
└─ b 1 would require
   └─ x *, for which no candidates were found.
The following packages are incompatible
├─ suitcase-utils >=54, <100 can be installed with any of the following options:
│  └─ suitcase-utils 54
├─ a * can be installed with any of the following options:
│  └─ a 2
├─ suitcase-utils >=0, <54 can be installed with any of the following options:
│  └─ a 2
└─ b * can be installed with any of the following options:
   └─ bluesky-widgets 42
";
    expect_of_runs(&rt, rt.alloc(), By::Root, &[4, 1], text)?;
    Ok(())
}

#[test]
fn all_of_one_run_of_the_root(rt: HostRuntime) -> Result<(), Fail> {
    let text = "suitcase-utils >=0, <54 cannot be installed because there are no viable options:
├─ suitcase-utils 53 would require
│  └─ x *, for which no candidates were found.
└─ b 1 would require
   └─ x *, for which no candidates were found.
b * cannot be installed because there are no viable options:
└─ b 1 would require
   └─ x *, for which no candidates were found.
The following packages are incompatible
├─ suitcase-utils >=54, <100 can be installed with any of the following options:
│  └─ suitcase-utils 54
├─ a * can be installed with any of the following options:
│  └─ a 2
└─ b * can be installed with any of the following options:
   └─ bluesky-widgets 42
";
    expect_of_runs(&rt, rt.alloc(), By::Root, &[4, 2], text)?;
    Ok(())
}
