//! The texts of version sets, requirements and versions, and the lines of the root's own conflicts.

ghost use Rattle.std.specs.Prelude.{◌≡◌, ◌∷◌, [], IfErr, OnOk, Some, map};
ghost use Rattle.resolver_report.specs.ConflictTexts.{conflict_line_text};
ghost use Rattle.resolver_report.specs.Indents.{is_last_child, Writes};
ghost use Rattle.resolver_report.specs.Messages.{conflict_text, constraint_text, joined_texts, lock_text, reason_text, requirement_text as requirement_text_in};
ghost use Rattle.resolver_report.specs.Messages.{run_after as after_run, run_before as before_run, run_text as run_text_of};
ghost use Rattle.resolver_report.specs.Messages.{version_set_text as version_set_text_in};

use crate::graph::{ConflictCause, ConflictEdge, ConflictNode, Edge};
use crate::indenter::{ChildOrder, write_branch};
use resolver_clause_store::{Exhausted, Interner, Requirement, VersionSetId};

/// Writes the package name of a version set, then the version set.
pub fn write_version_set<I: Interner>(
    interner: &I,
    version_set: VersionSetId,
    out: &mut String,
) -> Result<(), Exhausted>
    ensures ok { OnOk result (Writes out.old out.new (version_set_text_in (I.universe interner.now) version_set)) }
    ensures memory { IfErr result (λ e. e ≡ Exhausted.Memory) }
{
    interner.display_name(interner.version_set_name(version_set), out)?;
    out.push_str(" ")?;
    interner.display_version_set(version_set, out)?;
    Ok(())
}

/// Writes version sets, separated by bars.
fn write_joined<I: Interner>(
    interner: &I,
    version_sets: &[VersionSetId],
    out: &mut String,
) -> Result<(), Exhausted>
    ensures ok { OnOk result (Writes out.old out.new (joined_texts (map (version_set_text_in (I.universe interner.now)) version_sets.now))) }
    ensures memory { IfErr result (λ e. e ≡ Exhausted.Memory) }
{
    let mut rest = version_sets;
    while let [first, next @ ..] = rest {
        write_version_set(interner, *first, out)?;
        if !next.is_empty() {
            out.push_str(" | ")?;
        }
        rest = next;
    }
    Ok(())
}

/// Writes the text of a requirement.
fn write_requirement<I: Interner>(
    interner: &I,
    requirement: Requirement,
    out: &mut String,
) -> Result<(), Exhausted>
    ensures ok { OnOk result (Writes out.old out.new (requirement_text_in (I.universe interner.now) requirement)) }
    ensures memory { IfErr result (λ e. e ≡ Exhausted.Memory) }
{
    match requirement {
        Requirement::Single(version_set) => {
            write_version_set(interner, version_set, out)?;
            Ok(())
        }
        Requirement::Union(union) => {
            write_joined(interner, interner.version_sets_in_union(union), out)?;
            Ok(())
        }
    }
}

/// The text before a requirement.
fn run_before(top: bool, unresolved: bool) -> &'static str
    ensures { result.now ≡ before_run top unresolved }
{
    if top && unresolved {
        "No candidates were found for "
    } else {
        ""
    }
}

/// The text after a requirement.
fn run_after(top: bool, unresolved: bool, viable: bool) -> &'static str
    ensures { result.now ≡ after_run top unresolved viable }
{
    match (top, unresolved, viable) {
        (true, true, _) => ".",
        (false, true, _) => ", for which no candidates were found.",
        (true, false, true) => " can be installed with any of the following options:",
        (false, false, true) => ", which can be installed with any of the following options:",
        (true, false, false) => " cannot be installed because there are no viable options:",
        (false, false, false) => ", which cannot be installed because there are no viable options:",
    }
}

/// Writes the line of a run, without its indent.
pub fn write_run_text<I: Interner>(
    interner: &I,
    top: bool,
    unresolved: bool,
    viable: bool,
    requirement: Requirement,
    out: &mut String,
) -> Result<(), Exhausted>
    ensures ok { OnOk result (Writes out.old out.new (run_text_of top unresolved viable (requirement_text_in (I.universe interner.now) requirement))) }
    ensures memory { IfErr result (λ e. e ≡ Exhausted.Memory) }
{
    out.push_str(run_before(top, unresolved))?;
    write_requirement(interner, requirement, out)?;
    out.push_str(run_after(top, unresolved, viable))?;
    Ok(())
}

/// Writes the reason that a node stands for.
pub fn write_reason<I: Interner>(
    interner: &I,
    node: &ConflictNode<I::SolvableId>,
    out: &mut String,
) -> Result<(), Exhausted>
    ensures ok { OnOk result (Writes out.old out.new (reason_text (I.universe interner.now) (Some node.now))) }
    ensures memory { IfErr result (λ e. e ≡ Exhausted.Memory) }
{
    match node {
        ConflictNode::Excluded(reason) => {
            interner.display_string(*reason, out)?;
            Ok(())
        }
        ConflictNode::Root | ConflictNode::Solvable(_) | ConflictNode::UnresolvedDependency => Ok(
            (),
        ),
    }
}

/// Writes that a constraint of the root cannot be fulfilled.
fn write_constraint<I: Interner>(
    interner: &I,
    version_set: VersionSetId,
    out: &mut String,
) -> Result<(), Exhausted>
    ensures ok { OnOk result (Writes out.old out.new (constraint_text (I.universe interner.now) version_set)) }
    ensures memory { IfErr result (λ e. e ≡ Exhausted.Memory) }
{
    out.push_str("the constraint ")?;
    write_version_set(interner, version_set, out)?;
    out.push_str(" cannot be fulfilled")?;
    Ok(())
}

/// Writes a single solvable.
pub fn write_version<I: Interner>(
    interner: &I,
    solvable: I::SolvableId,
    out: &mut String,
) -> Result<(), Exhausted>
    ensures ok { OnOk result (Writes out.old out.new ((I.universe interner.now).merged_text (solvable ∷ []))) }
    ensures memory { IfErr result (λ e. e ≡ Exhausted.Memory) }
{
    let mut alone = Vec::new(*out.allocator());
    alone.push(solvable)?;
    interner.display_merged_solvables(&alone, out)?;
    Ok(())
}

/// Writes that a solvable is locked.
fn write_lock<I: Interner>(
    interner: &I,
    locked: &I::SolvableId,
    out: &mut String,
) -> Result<(), Exhausted>
    ensures ok { OnOk result (Writes out.old out.new (lock_text (I.universe interner.now) locked.now)) }
    ensures memory { IfErr result (λ e. e ≡ Exhausted.Memory) }
{
    write_version(interner, *locked, out)?;
    out.push_str(" is locked, but another version is required as reported above")?;
    Ok(())
}

/// Writes the line of one of the root's own conflicts.
fn write_conflict_line<I: Interner>(
    interner: &I,
    weight: &ConflictEdge<I::SolvableId>,
    order: ChildOrder,
    out: &mut String,
) -> Result<(), Exhausted>
    ensures ok { OnOk result (Writes out.old out.new (conflict_line_text (I.universe interner.now) weight.now (is_last_child order))) }
    ensures memory { IfErr result (λ e. e ≡ Exhausted.Memory) }
{
    match weight {
        ConflictEdge::Conflict(ConflictCause::Constrains(version_set)) => {
            write_branch(order, out)?;
            write_constraint(interner, *version_set, out)?;
            out.push_str("\n")?;
            Ok(())
        }
        ConflictEdge::Conflict(ConflictCause::Locked(solvable)) => {
            write_branch(order, out)?;
            write_lock(interner, solvable, out)?;
            out.push_str("\n")?;
            Ok(())
        }
        _ => Ok(()),
    }
}

/// Writes the root's own conflicts, given its edges, newest first.
pub fn write_conflicts<I: Interner>(
    interner: &I,
    edges: &[Edge<I::SolvableId>],
    out: &mut String,
) -> Result<(), Exhausted>
    ensures ok { OnOk result (Writes out.old out.new (conflict_text (I.universe interner.now) edges.now)) }
    ensures memory { IfErr result (λ e. e ≡ Exhausted.Memory) }
{
    let mut rest = edges;
    while let [first, next @ ..] = rest {
        write_conflict_line(interner, &first.weight, ChildOrder::before(next), out)?;
        rest = next;
    }
    Ok(())
}
