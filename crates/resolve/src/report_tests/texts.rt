//! A few packages with texts, and the messages of graphs in these.

ghost use Rattle.std.specs.Prelude.{◌≡◌, refl};
ghost use Rattle.std.proofs.Common.{rules};
ghost use Rattle.std.proofs.lemmas.Bool.{eqb-true, eq-eqb};
ghost use Rattle.resolve.specs.TestTexts.{name_number, name_text, set_number, set_text, test_texts, version_text};

use super::rules::{Row, graph_of_rows};
use resolver_clause_store::{
    Condition, ConditionId, Exhausted, Interner, StringId, VersionSetId, VersionSetUnionId,
};
use resolver_report::DisplayUnsat;
use std::alloc::Global;
use std::process::Abort;

/// The texts of a few packages.
pub(crate) struct Texts;

fn name_of(solvable: u32) -> u32
    ensures { result ≡ name_number solvable }
{
    match solvable {
        0 | 1 => 0,
        2 => 1,
        3 => 2,
        _ => 3,
    }
}

fn name_of_set(version_set: u32) -> u32
    ensures { result ≡ set_number version_set }
{
    match version_set {
        0 | 1 => 0,
        2 | 3 => 1,
        4 => 2,
        7 => 4,
        _ => 3,
    }
}

fn name(n: u32) -> &'static str
    ensures { result.now ≡ name_text n }
{
    match n {
        0 => "a",
        1 => "b",
        2 => "bluesky-widgets",
        3 => "suitcase-utils",
        _ => "x",
    }
}

fn version(solvable: u32) -> &'static str
    ensures { result.now ≡ version_text solvable }
{
    match solvable {
        1 => "2",
        3 => "42",
        4 => "53",
        5 => "54",
        _ => "1",
    }
}

fn set(version_set: u32) -> &'static str
    ensures { result.now ≡ set_text version_set }
{
    match version_set {
        1 | 3 => ">=2, <3",
        4 => ">=0, <100",
        5 => ">=0, <54",
        6 => ">=54, <100",
        _ => "*",
    }
}

impl Interner for Texts {
    type NameId = u32;

    type SolvableId = u32;

    ghost universe = { λ it. test_texts };

    ghost lawful_ids = { Prim.search rules };

    ghost names_are_values = { record { alone = eqb-true; itself = λ a. eq-eqb a a refl } };

    ghost solvables_are_values = { record { alone = eqb-true; itself = λ a. eq-eqb a a refl } };

    ghost solvables_compare = { λ it. refl };

    fn solvable_name(&self, solvable: u32) -> u32 {
        name_of(solvable)
    }

    fn version_set_name(&self, version_set: VersionSetId) -> u32 {
        name_of_set(version_set.0)
    }

    fn version_sets_in_union(&self, _version_set_union: VersionSetUnionId) -> &[VersionSetId] {
        &[]
    }

    fn resolve_condition(&self, condition: ConditionId) -> Condition {
        Condition::Requirement(VersionSetId(condition.0))
    }

    fn display_name(&self, n: u32, out: &mut String) -> Result<(), Exhausted> {
        out.push_str(name(n))?;
        Ok(())
    }

    fn display_version_set(
        &self,
        version_set: VersionSetId,
        out: &mut String,
    ) -> Result<(), Exhausted> {
        out.push_str(set(version_set.0))?;
        Ok(())
    }

    fn display_string(&self, _string: StringId, out: &mut String) -> Result<(), Exhausted> {
        out.push_str("it is bad")?;
        Ok(())
    }

    fn display_merged_solvables(
        &self,
        solvables: &[u32],
        out: &mut String,
    ) -> Result<(), Exhausted> {
        let [first, ..] = solvables else {
            return Ok(());
        };
        out.push_str(name(name_of(*first)))?;
        out.push_str(" ")?;
        out.push_str(version(*first))?;
        Ok(())
    }
}

/// The message of the graph of some rules.
fn message_of(alloc: Global, rows: &[Row<'_>]) -> Result<String, Exhausted> {
    let graph = graph_of_rows(alloc, rows)?;
    let message = format!(in alloc; "{}", DisplayUnsat::new(graph, &Texts))?;
    Ok(message)
}

/// Asserts the message of the graph of some rules.
pub(crate) fn expect_message(
    rt: &impl Abort,
    alloc: Global,
    rows: &[Row<'_>],
    text: &str,
) -> Result<(), Exhausted> {
    let message = message_of(alloc, rows)?;
    assert_eq!(rt; message.as_str(), text);
    Ok(())
}
