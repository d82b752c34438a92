//! The tree of a message.

ghost use Rattle.std.specs.Prelude.{◌≡◌, ◌∷◌, ◌++◌, ◌<◌, ◌==◌, [], false, length};
ghost use Rattle.std.specs.Prelude.{IfErr, IfOk, IsFalse, IsTrue, OnOk, IsSome};
ghost use Rattle.std.specs.Prelude.{string_bytes};
ghost use Rattle.resolver_report.specs.Indents.{levels_in, Writes, WritesFirst, line_at};
ghost use Rattle.resolver_report.specs.Messages.{excluded, constraint_line as constraint_line_in, is_reported as is_reported_in};
ghost use Rattle.resolver_report.specs.Messages.{with_group, run_line};
ghost use Rattle.resolver_report.specs.PendingTexts.{HasLevels, TellsPending, below_run as below_run_in, pending_text, pending_view};
ghost use Rattle.resolver_report.specs.Outlines.{run_told_view, runs_view};
ghost use Rattle.resolver_report.specs.Tellings.{IsOutline, IsToldNode, is_requires, verdict_rest, version_text_in, IsToldAt, constraint_lines, verdict_in, reason_in, candidate_text, runs_text, edges_text};
ghost use Rattle.resolver_report.specs.Shapes.{solvable_at as solvable_at_place};
ghost use Rattle.resolver_report.specs.Verdicts.{verdict_view};

use crate::findings::group_at_node;
use crate::graph::{Edge, NodeId};
use crate::indenter::{ChildOrder, Indenter};
use crate::marks::is_marked;
use crate::outline::{Findings, NodeOutline, RunOutline, outlines_of};
use crate::pending::{Pending, set_mark};
use crate::simplify::{MergedConflictNode, solvable_at};
use crate::texts::{write_reason, write_run_text, write_version, write_version_set};
use crate::verdict::Verdict;
use resolver_clause_store::{Exhausted, Interner, VersionSetId};
use std::collections::HashMap;
use std::rc::Rc;

/// All that a message is written from.
#[derive(Drop)]
pub struct Outline<'i, I: Interner> {
    pub interner: &'i I,
    pub findings: Findings<'i, I::SolvableId>,
    /// The groups of solvables that are told of together.
    pub groups: HashMap<I::SolvableId, Rc<MergedConflictNode<I::SolvableId>>>,
    /// What is told of each node.
    pub nodes: Vec<NodeOutline>,
}

/// Whether a group is reported already.
fn is_reported(group: Option<usize>, reported: &[bool]) -> bool
    ensures { result ≡ is_reported_in group reported.now }
{
    match group {
        Some(first) => is_marked(reported, NodeId(first)),
        None => false,
    }
}

/// Notes that a group is reported.
fn report(group: Option<usize>, reported: &mut Vec<bool>)
    ensures { reported.new.items ≡ with_group group reported.old.items }
{
    match group {
        Some(first) => set_mark(reported, first, true),
        None => {}
    }
}

/// What is told of a node. `None` if it is no solvable, its group is reported already, or it is on the branch above.
fn told_node<'s, I: Interner>(
    outline: &'s Outline<'_, I>,
    n: NodeId,
    reported: &[bool],
    branch: &[bool],
) -> Option<&'s NodeOutline>
    requires { IsOutline I.universe outline.now I.SolvableId.eq }
    ensures { IsToldAt I.universe outline.now branch.now n.0 reported.now result }
{
    let Some(_) = solvable_at(&outline.findings.graph.graph, n.0) else {
        return None;
    };
    let node = &outline.nodes[n.0];
    if is_reported(node.group, reported) {
        return None;
    }
    if is_marked(branch, n) {
        return None;
    }
    Some(node)
}

/// Writes a solvable as one version, or as the versions of its group.
fn write_versions<I: Interner>(
    outline: &Outline<'_, I>,
    n: NodeId,
    out: &mut String,
) -> Result<(), Exhausted>
    requires outline { IsOutline I.universe outline.now I.SolvableId.eq }
    requires solvable { IsSome (solvable_at_place outline.now.findings.graph.now.graph n.0) }
    ensures ok { OnOk result (Writes out.old out.new (version_text_in I.universe outline.now n.0)) }
    ensures memory { IfErr result (λ e. e ≡ Exhausted.Memory) }
{
    let Some(group) = group_at_node(
        outline.interner,
        outline.findings.graph,
        &outline.groups,
        n.0,
    ) else {
        let Some(solvable) = solvable_at(&outline.findings.graph.graph, n.0) else {
            return Ok(());
        };
        write_version(outline.interner, solvable, out)?;
        return Ok(());
    };
    outline.interner.display_merged_solvables(&group.ids, out)?;
    Ok(())
}

/// Writes the line of a version set that a candidate would constrain.
fn write_constraint_line<I: Interner>(
    interner: &I,
    deeper: &Indenter,
    version_set: VersionSetId,
    out: &mut String,
) -> Result<(), Exhausted>
    ensures ok { OnOk result (Writes out.old out.new (line_at deeper.now (constraint_line_in (I.universe interner.now) version_set))) }
    ensures memory { IfErr result (λ e. e ≡ Exhausted.Memory) }
{
    deeper.write(out)?;
    write_version_set(interner, version_set, out)?;
    out.push_str(", which conflicts with any installable versions previously reported")?;
    out.push_str("\n")?;
    Ok(())
}

/// Writes the line of a version set that a candidate would constrain, given those that follow.
fn write_next_constraint<I: Interner>(
    interner: &I,
    indenter: &Indenter,
    version_set: VersionSetId,
    rest: &[VersionSetId],
    out: &mut String,
) -> Result<(), Exhausted>
    ensures ok { OnOk result (WritesFirst (constraint_lines (I.universe interner.now) indenter.now) out.old out.new version_set rest.now) }
    ensures memory { IfErr result (λ e. e ≡ Exhausted.Memory) }
{
    let order = ChildOrder::before(rest);
    let deeper = indenter.deeper(order)?;
    write_constraint_line(interner, &deeper, version_set, out)?;
    Ok(())
}

/// Writes the lines of the version sets that a candidate would constrain.
fn write_constraint_lines<I: Interner>(
    interner: &I,
    indenter: &Indenter,
    version_sets: &[VersionSetId],
    out: &mut String,
) -> Result<(), Exhausted>
    ensures ok { OnOk result (Writes out.old out.new (constraint_lines (I.universe interner.now) indenter.now version_sets.now)) }
    ensures memory { IfErr result (λ e. e ≡ Exhausted.Memory) }
{
    let mut rest = version_sets;
    while let [first, next @ ..] = rest {
        write_next_constraint(interner, indenter, *first, next, out)?;
        rest = next;
    }
    Ok(())
}

/// Writes what follows the versions of a candidate: the end of its line, and the lines of what it would constrain.
fn write_verdict<I: Interner>(
    outline: &Outline<'_, I>,
    indenter: &Indenter,
    verdict: &Verdict,
    out: &mut String,
) -> Result<(), Exhausted>
    ensures ok { OnOk result (Writes out.old out.new (verdict_in I.universe outline.now indenter.now (verdict_view verdict.now))) }
    ensures memory { IfErr result (λ e. e ≡ Exhausted.Memory) }
{
    match verdict {
        Verdict::Excluded(reason) => {
            write_exclusion(outline, *reason, out)?;
            Ok(())
        }
        Verdict::Alone => {
            out.push_str("\n")?;
            Ok(())
        }
        Verdict::Second => {
            write_end(", which conflicts with the versions reported above.", out)?;
            Ok(())
        }
        Verdict::Constrains(version_sets) => {
            write_end(" would constrain", out)?;
            write_constraint_lines(outline.interner, indenter, version_sets, out)?;
            Ok(())
        }
        Verdict::Requires => {
            write_end(" would require", out)?;
            Ok(())
        }
    }
}

/// Writes a text and ends the line.
pub fn write_end(text: &str, out: &mut String) -> Result<(), Exhausted>
    ensures ok { OnOk result (Writes out.old out.new (text.now ++ 10 ∷ [])) }
    ensures memory { IfErr result (λ e. e ≡ Exhausted.Memory) }
{
    out.push_str(text)?;
    out.push_str("\n")?;
    Ok(())
}

/// Writes the reason that a node stands for.
fn write_reason_at<I: Interner>(
    outline: &Outline<'_, I>,
    n: NodeId,
    out: &mut String,
) -> Result<(), Exhausted>
    ensures ok { OnOk result (Writes out.old out.new (reason_in I.universe outline.now n)) }
    ensures memory { IfErr result (λ e. e ≡ Exhausted.Memory) }
{
    match outline.findings.graph.graph.nodes().get(n.0) {
        Some(node) => {
            write_reason(outline.interner, node, out)?;
            Ok(())
        }
        None => Ok(()),
    }
}

/// Writes that a candidate is excluded, and why.
fn write_exclusion<I: Interner>(
    outline: &Outline<'_, I>,
    reason: NodeId,
    out: &mut String,
) -> Result<(), Exhausted>
    ensures ok { OnOk result (Writes out.old out.new (verdict_rest I.universe outline.now false [] (excluded reason))) }
    ensures memory { IfErr result (λ e. e ≡ Exhausted.Memory) }
{
    out.push_str(" is excluded because ")?;
    write_reason_at(outline, reason, out)?;
    out.push_str("\n")?;
    Ok(())
}

/// Writes the line of a candidate, and the lines of what it would constrain.
fn write_candidate<I: Interner>(
    outline: &Outline<'_, I>,
    indenter: &Indenter,
    n: NodeId,
    verdict: &Verdict,
    out: &mut String,
) -> Result<(), Exhausted>
    requires outline { IsOutline I.universe outline.now I.SolvableId.eq }
    requires solvable { IsSome (solvable_at_place outline.now.findings.graph.now.graph n.0) }
    ensures ok { OnOk result (Writes out.old out.new (candidate_text I.universe outline.now indenter.now n.0 (verdict_view verdict.now))) }
    ensures memory { IfErr result (λ e. e ≡ Exhausted.Memory) }
{
    indenter.write(out)?;
    write_versions(outline, n, out)?;
    write_verdict(outline, indenter, verdict, out)?;
    Ok(())
}

/// Whether a tree of requirements follows a candidate.
fn requires_more(verdict: &Verdict) -> bool
    ensures { result ≡ is_requires (verdict_view verdict.now) }
{
    match verdict {
        Verdict::Requires => true,
        Verdict::Excluded(_) | Verdict::Alone | Verdict::Second | Verdict::Constrains(_) => false,
    }
}

/// Writes the line of a run.
fn write_run_line<I: Interner>(
    interner: &I,
    indenter: &Indenter,
    top: bool,
    run: &RunOutline,
    out: &mut String,
) -> Result<(), Exhausted>
    ensures ok { OnOk result (Writes out.old out.new (line_at indenter.now (run_line (I.universe interner.now) top (run_told_view run.now)))) }
    ensures memory { IfErr result (λ e. e ≡ Exhausted.Memory) }
{
    indenter.write(out)?;
    write_run_text(
        interner,
        top,
        run.is_unresolved,
        run.is_viable,
        run.requirement,
        out,
    )?;
    out.push_str("\n")?;
    Ok(())
}

/// The candidates to tell of below a run.
fn below_run(run: &RunOutline) -> &[NodeId]
    ensures { result.now ≡ below_run_in (run_told_view run.now) }
{
    if run.is_unresolved {
        return &[];
    }
    &run.candidates
}

/// Writes the line of a run, and moves on to its candidates.
fn tell_run<'s, I: Interner>(
    outline: &Outline<'_, I>,
    pending: &mut Pending<'s>,
    run: &'s RunOutline,
    rest: &'s [RunOutline],
    out: &mut String,
) -> Result<(), Exhausted>
    requires levels { HasLevels pending.old }
    requires candidates { pending.old.candidates.now ≡ [] }
    requires runs { pending.old.runs.now ≡ run.now ∷ rest.now }
    ensures step { OnOk result (TellsPending I.universe outline.now pending.old pending.new out.old out.new) }
    ensures levels { OnOk result (HasLevels pending.new) }
    ensures memory { IfErr result (λ e. e ≡ Exhausted.Memory) }
{
    let order = ChildOrder::before(rest);
    let deeper = pending.indenter.deeper(order)?;
    let top = pending.frames.is_empty();
    write_run_line(outline.interner, &deeper, top, run, out)?;
    pending.candidates = below_run(run);
    pending.runs = rest;
    Ok(())
}

/// The levels of the candidate that comes just before `rest`.
fn candidate_levels(pending: &Pending<'_>, rest: &[NodeId]) -> Result<Indenter, Exhausted>
    ensures levels { IfOk result (λ deeper.
        levels_in deeper ≡ levels_in pending.now.indenter ++ (length pending.now.runs.now == 0) ∷ (length rest.now == 0) ∷ []) }
    ensures top { IfOk result (λ deeper. deeper.top_level_indent ≡ pending.now.indenter.top_level_indent) }
    ensures memory { IfErr result (λ e. e ≡ Exhausted.Memory) }
{
    let run = pending.indenter.deeper(ChildOrder::before(pending.runs))?;
    let candidate = run.deeper(ChildOrder::before(rest))?;
    Ok(candidate)
}

/// Writes the lines of a candidate that is told of, and descends into its requirements.
fn tell_node<'s, I: Interner>(
    outline: &'s Outline<'_, I>,
    pending: &mut Pending<'s>,
    n: NodeId,
    node: &'s NodeOutline,
    rest: &'s [NodeId],
    out: &mut String,
) -> Result<(), Exhausted>
    requires outline { IsOutline I.universe outline.now I.SolvableId.eq }
    requires levels { HasLevels pending.old }
    requires candidates { pending.old.candidates.now ≡ n ∷ rest.now }
    requires deep { length pending.old.frames.items < pending.old.limit }
    requires node { IsToldNode I.universe outline.now pending.old.branch.items n.0 pending.old.reported.items node.now }
    ensures step { OnOk result (TellsPending I.universe outline.now pending.old pending.new out.old out.new) }
    ensures levels { OnOk result (HasLevels pending.new) }
    ensures memory { IfErr result (λ e. e ≡ Exhausted.Memory) }
{
    report(node.group, &mut pending.reported);
    let deeper = candidate_levels(pending, rest)?;
    write_candidate(outline, &deeper, n, &node.verdict, out)?;
    if !requires_more(&node.verdict) {
        pending.candidates = rest;
        return Ok(());
    }
    pending.enter(n, rest, &node.runs, deeper)?;
    Ok(())
}

/// Writes the lines of a candidate, unless it is not told of, and descends into its requirements.
fn tell_candidate<'s, I: Interner>(
    outline: &'s Outline<'_, I>,
    pending: &mut Pending<'s>,
    n: NodeId,
    rest: &'s [NodeId],
    out: &mut String,
) -> Result<(), Exhausted>
    requires outline { IsOutline I.universe outline.now I.SolvableId.eq }
    requires levels { HasLevels pending.old }
    requires candidates { pending.old.candidates.now ≡ n ∷ rest.now }
    ensures step { OnOk result (TellsPending I.universe outline.now pending.old pending.new out.old out.new) }
    ensures levels { OnOk result (HasLevels pending.new) }
    ensures memory { IfErr result (λ e. e ≡ Exhausted.Memory) }
{
    if pending.frames.len() >= pending.limit {
        pending.candidates = rest;
        return Ok(());
    }
    let Some(node) = told_node(outline, n, &pending.reported, &pending.branch) else {
        pending.candidates = rest;
        return Ok(());
    };
    tell_node(outline, pending, n, node, rest, out)?;
    Ok(())
}

/// Tells the next candidate or run, or returns from a finished tree. `false` if nothing was left to do.
fn tell_next<'s, I: Interner>(
    outline: &'s Outline<'_, I>,
    pending: &mut Pending<'s>,
    out: &mut String,
) -> Result<bool, Exhausted>
    requires outline { IsOutline I.universe outline.now I.SolvableId.eq }
    requires levels { HasLevels pending.old }
    ensures step { IfOk result (λ more. IsTrue more → TellsPending I.universe outline.now pending.old pending.new out.old out.new) }
    ensures levels { IfOk result (λ more. IsTrue more → HasLevels pending.new) }
    ensures told { IfOk result (λ more. IsFalse more → pending_text I.universe outline.now (pending_view pending.old) ≡ []) }
    ensures same { IfOk result (λ more. IsFalse more → string_bytes out.new ≡ string_bytes out.old) }
    ensures memory { IfErr result (λ e. e ≡ Exhausted.Memory) }
{
    if let [n, rest @ ..] = pending.candidates {
        tell_candidate(outline, pending, *n, rest, out)?;
        return Ok(true);
    }
    if let [run, rest @ ..] = pending.runs {
        tell_run(outline, pending, run, rest, out)?;
        return Ok(true);
    }
    let more = pending.leave();
    Ok(more)
}

/// Writes all that is still to be told.
fn tell_pending<'s, I: Interner>(
    outline: &'s Outline<'_, I>,
    pending: &mut Pending<'s>,
    out: &mut String,
) -> Result<(), Exhausted>
    requires outline { IsOutline I.universe outline.now I.SolvableId.eq }
    requires levels { HasLevels pending.old }
    ensures text { OnOk result (Writes out.old out.new (pending_text I.universe outline.now (pending_view pending.old))) }
    ensures memory { IfErr result (λ e. e ≡ Exhausted.Memory) }
{
    while tell_next(outline, pending, out)? {}
    Ok(())
}

/// Reserves room in a text for `room` bytes and all that is still to be told, and returns how many bytes that is. Each line is
/// written to a buffer and discarded. So a text that does not fit into memory is refused before it is written, and one that
/// fits is not copied as it grows.
fn reserve_pending<'s, I: Interner>(
    outline: &'s Outline<'_, I>,
    pending: &mut Pending<'s>,
    line: &mut String,
    room: usize,
    out: &mut String,
) -> Result<usize, Exhausted>
    requires outline { IsOutline I.universe outline.now I.SolvableId.eq }
    requires levels { HasLevels pending.old }
    ensures kept { OnOk result (string_bytes out.new ≡ string_bytes out.old) }
    ensures memory { IfErr result (λ e. e ≡ Exhausted.Memory) }
{
    let mut length = room;
    while tell_next(outline, pending, line)? {
        length = length.saturating_add(line.len());
        line.clear();
        out.reserve(length)?;
    }
    Ok(length)
}

/// Reserves room in a text for `room` bytes and the tree of these outlines, and returns how many bytes that is.
fn reserve_tree<'s, I: Interner>(
    outline: &'s Outline<'_, I>,
    runs: &'s [RunOutline],
    top_level_indent: bool,
    room: usize,
    out: &mut String,
) -> Result<usize, Exhausted>
    requires { IsOutline I.universe outline.now I.SolvableId.eq }
    ensures kept { OnOk result (string_bytes out.new ≡ string_bytes out.old) }
    ensures memory { IfErr result (λ e. e ≡ Exhausted.Memory) }
{
    let count = outline.findings.graph.graph.nodes().len();
    let mut pending = Pending::whole(*out.allocator(), runs, top_level_indent, count)?;
    let mut line = String::new(*out.allocator());
    let length = reserve_pending(outline, &mut pending, &mut line, room, out)?;
    drop(pending);
    Ok(length)
}

/// Reserves room in a text for `room` bytes and the tree of some of the root's edges, and returns how many bytes that is.
pub fn reserve_edges<I: Interner>(
    outline: &Outline<'_, I>,
    edges: &[Edge<I::SolvableId>],
    top_level_indent: bool,
    room: usize,
    out: &mut String,
) -> Result<usize, Exhausted>
    requires { IsOutline I.universe outline.now I.SolvableId.eq }
    ensures kept { OnOk result (string_bytes out.new ≡ string_bytes out.old) }
    ensures memory { IfErr result (λ e. e ≡ Exhausted.Memory) }
{
    let alloc = *out.allocator();
    let runs = outlines_of(alloc, &outline.findings, edges)?;
    let length = reserve_tree(outline, &runs, top_level_indent, room, out)?;
    Ok(length)
}

/// Writes the tree of these outlines.
fn tell_tree<'s, I: Interner>(
    outline: &'s Outline<'_, I>,
    runs: &'s [RunOutline],
    top_level_indent: bool,
    out: &mut String,
) -> Result<(), Exhausted>
    requires { IsOutline I.universe outline.now I.SolvableId.eq }
    ensures text { OnOk result (Writes out.old out.new (runs_text I.universe outline.now top_level_indent (runs_view runs.now))) }
    ensures memory { IfErr result (λ e. e ≡ Exhausted.Memory) }
{
    let count = outline.findings.graph.graph.nodes().len();
    let mut pending = Pending::whole(*out.allocator(), runs, top_level_indent, count)?;
    tell_pending(outline, &mut pending, out)?;
    drop(pending);
    Ok(())
}

/// Writes the tree of some of the root's edges, newest first.
pub fn tell_edges<I: Interner>(
    outline: &Outline<'_, I>,
    edges: &[Edge<I::SolvableId>],
    top_level_indent: bool,
    out: &mut String,
) -> Result<(), Exhausted>
    requires { IsOutline I.universe outline.now I.SolvableId.eq }
    ensures ok { OnOk result (Writes out.old out.new (edges_text I.universe outline.now top_level_indent edges.now)) }
    ensures memory { IfErr result (λ e. e ≡ Exhausted.Memory) }
{
    let alloc = *out.allocator();
    let runs = outlines_of(alloc, &outline.findings, edges)?;
    tell_tree(outline, &runs, top_level_indent, out)?;
    Ok(())
}
