//! What a message tells of each node.

ghost use Rattle.std.specs.Prelude.{◌≡◌, ◌<◌, ◌++◌, ◌∷◌, [], IfOk, IfErr, OnOk, filter, length, map, reverse};
ghost use Rattle.std.specs.Option.{option_map};
ghost use Rattle.resolver_clause_store.specs.Lists.{without_repeats};
ghost use Rattle.resolver_report.specs.ConflictGraphs.{shape_of};
ghost use Rattle.resolver_report.specs.EdgeRuns.{run_view};
ghost use Rattle.resolver_report.specs.Messages.{is_unresolved as is_unresolved_in, is_viable as is_viable_in};
ghost use Rattle.resolver_report.specs.Outlines.{HasGroupsOf, are_together, edges_told, group_of_node as group_at_in, groups_in, is_candidate_of, node_told, node_view, nodes_told, run_told, run_told_view, runs_told, runs_view, with_node};

use crate::graph::{ConflictGraph, ConflictNode, Edge, NodeId};
use crate::marks::{is_marked, is_place, some_marked};
use crate::runs::{EdgeRun, outgoing, runs_of};
use crate::verdict::{Verdict, verdict_of};
use itertools::Itertools;
use resolver_clause_store::{Exhausted, Requirement};
use std::alloc::Global;
use std::collections::HashSet;

/// A graph, with the groups of its nodes and the marks of those that can be installed.
#[derive(Drop)]
pub struct Findings<'g, S> {
    pub graph: &'g ConflictGraph<S>,
    /// For each node, the place of the first node of its group, or `None` if it has no group.
    pub groups: Vec<Option<usize>>,
    /// Which nodes can be installed.
    pub installable: Vec<bool>,
}

/// What is told of a run: neighbouring edges with one requirement.
#[derive(Drop)]
pub struct RunOutline {
    pub requirement: Requirement,
    /// Whether the requirement has no candidates at all.
    pub is_unresolved: bool,
    /// Whether some candidate can be installed.
    pub is_viable: bool,
    /// The candidates to tell of, oldest first.
    pub candidates: Vec<NodeId>,
}

/// What is told of a node.
#[derive(Drop)]
pub struct NodeOutline {
    pub group: Option<usize>,
    pub verdict: Verdict,
    pub runs: Vec<RunOutline>,
}

/// The group of a node.
fn group_at(groups: &[Option<usize>], n: NodeId) -> Option<usize>
    ensures { result ≡ group_at_in groups.now n.0 }
{
    match groups.get(n.0) {
        Some(group) => *group,
        None => None,
    }
}

/// Appends a node, unless one of its group is listed already.
fn add_node(
    groups: &[Option<usize>],
    told: &mut HashSet<usize>,
    found: &mut Vec<NodeId>,
    n: NodeId,
) -> Result<(), Exhausted>
    requires { HasGroupsOf groups.now found.old.items told.old }
    ensures found { OnOk result (found.new.items ≡ with_node groups.now n found.old.items) }
    ensures told { OnOk result (HasGroupsOf groups.now found.new.items told.new) }
    ensures memory { IfErr result (λ e. e ≡ Exhausted.Memory) }
{
    let Some(group) = group_at(groups, n) else {
        found.push(n)?;
        return Ok(());
    };
    if told.contains(&group) {
        return Ok(());
    }
    told.insert(group)?;
    found.push(n)?;
    Ok(())
}

/// Keeps the first node of each group, and each node without a group.
fn first_of_groups(
    alloc: Global,
    groups: &[Option<usize>],
    nodes: &[NodeId],
) -> Result<Vec<NodeId>, Exhausted>
    ensures value { IfOk result (λ v. v.items ≡ without_repeats (are_together groups.now) nodes.now) }
    ensures memory { IfErr result (λ e. e ≡ Exhausted.Memory) }
{
    let mut found = Vec::new(alloc);
    let mut told = HashSet::new(alloc);
    for n in nodes {
        add_node(groups, &mut told, &mut found, *n)?;
    }
    Ok(found)
}

/// Whether a run tells of a node: a solvable that can be installed, or any solvable if the run is not viable.
fn is_candidate<S>(findings: &Findings<'_, S>, is_viable: bool, n: NodeId) -> bool
    ensures { result ≡ is_candidate_of findings.now is_viable n.0 }
{
    match findings.graph.graph.nodes().get(n.0) {
        Some(ConflictNode::Solvable(_)) => !is_viable || is_marked(&findings.installable, n),
        _ => false,
    }
}

/// The solvables that a run tells of, newest first.
fn candidate_targets<S>(
    alloc: Global,
    findings: &Findings<'_, S>,
    is_viable: bool,
    targets: &[NodeId],
) -> Result<Vec<NodeId>, Exhausted>
    ensures value { IfOk result (λ v. v.items ≡ filter (λ n. is_candidate_of findings.now is_viable n.0) targets.now) }
    ensures memory { IfErr result (λ e. e ≡ Exhausted.Memory) }
{
    let found = targets
        .iter()
        .copied()
        .filter(|n| is_candidate(findings, is_viable, *n));
    Ok(found.collect_vec(alloc)?)
}

/// Whether a run is a single edge to the unresolved node.
fn is_unresolved(unresolved: Option<NodeId>, targets: &[NodeId]) -> bool
    ensures { result ≡ is_unresolved_in (option_map (λ n. n.0) unresolved) targets.now }
{
    let [n] = targets else {
        return false;
    };
    is_place(unresolved, *n)
}

/// Whether some target of a run can be installed.
fn is_viable<S>(findings: &Findings<'_, S>, run: &EdgeRun) -> bool
    ensures { result ≡ is_viable_in (shape_of findings.now.graph.now) (groups_in findings.now) findings.now.installable.items (run_view run.now) }
{
    some_marked(&findings.installable, &run.targets)
}

/// What is told of a run.
fn run_outline<S>(
    alloc: Global,
    findings: &Findings<'_, S>,
    run: &EdgeRun,
) -> Result<RunOutline, Exhausted>
    ensures value { IfOk result (λ s. run_told_view s ≡ run_told findings.now (run_view run.now)) }
    ensures memory { IfErr result (λ e. e ≡ Exhausted.Memory) }
{
    let is_viable = is_viable(findings, run);
    let targets = candidate_targets(alloc, findings, is_viable, &run.targets)?;
    let mut candidates = first_of_groups(alloc, &findings.groups, &targets)?;
    candidates.reverse();
    Ok(RunOutline {
        requirement: run.requirement,
        is_unresolved: is_unresolved(findings.graph.unresolved_node, &run.targets),
        is_viable,
        candidates,
    })
}

/// Appends what is told of a run, if its viability is the wanted one.
fn add_outline<S>(
    alloc: Global,
    findings: &Findings<'_, S>,
    run: &EdgeRun,
    wanted: bool,
    outlines: &mut Vec<RunOutline>,
) -> Result<(), Exhausted>
    ensures ok { OnOk result (runs_view outlines.new.items ≡ runs_view outlines.old.items ++ runs_told findings.now wanted (run_view run.now ∷ [])) }
    ensures memory { IfErr result (λ e. e ≡ Exhausted.Memory) }
{
    if is_viable(findings, run) != wanted {
        return Ok(());
    }
    outlines.push(run_outline(alloc, findings, run)?)?;
    Ok(())
}

/// Appends what is told of the runs with the wanted viability, oldest first.
fn add_stories<S>(
    alloc: Global,
    findings: &Findings<'_, S>,
    runs: &[EdgeRun],
    wanted: bool,
    outlines: &mut Vec<RunOutline>,
) -> Result<(), Exhausted>
    ensures ok { OnOk result (runs_view outlines.new.items ≡ runs_view outlines.old.items ++ runs_told findings.now wanted (reverse (map run_view runs.now))) }
    ensures memory { IfErr result (λ e. e ≡ Exhausted.Memory) }
{
    let mut rest = runs;
    while let [before @ .., last] = rest {
        add_outline(alloc, findings, last, wanted, outlines)?;
        rest = before;
    }
    Ok(())
}

/// What is told of edges that come newest first: viable runs before the others, and older ones first among each.
pub fn outlines_of<S: Copy + Drop>(
    alloc: Global,
    findings: &Findings<'_, S>,
    edges: &[Edge<S>],
) -> Result<Vec<RunOutline>, Exhausted>
    ensures value { IfOk result (λ v. runs_view v.items ≡ edges_told findings.now edges.now) }
    ensures memory { IfErr result (λ e. e ≡ Exhausted.Memory) }
{
    let runs = runs_of(alloc, edges)?;
    let mut outlines = Vec::new(alloc);
    add_stories(alloc, findings, &runs, true, &mut outlines)?;
    add_stories(alloc, findings, &runs, false, &mut outlines)?;
    Ok(outlines)
}

/// What is told of a node.
fn node_outline<S: Copy + Drop>(
    alloc: Global,
    findings: &Findings<'_, S>,
    n: NodeId,
) -> Result<NodeOutline, Exhausted>
    requires { n.0 < length findings.now.graph.now.graph.nodes }
    ensures value { IfOk result (λ s. node_view s ≡ node_told (shape_of findings.now.graph.now) (groups_in findings.now) findings.now.installable.items n.0) }
    ensures memory { IfErr result (λ e. e ≡ Exhausted.Memory) }
{
    let edges = outgoing(alloc, &findings.graph.graph, n)?;
    let verdict = verdict_of(alloc, &edges)?;
    let runs = outlines_of(alloc, findings, &edges)?;
    Ok(NodeOutline {
        group: group_at(&findings.groups, n),
        verdict,
        runs,
    })
}

/// What is told of each node.
pub fn node_stories<S: Copy + Drop>(
    alloc: Global,
    findings: &Findings<'_, S>,
) -> Result<Vec<NodeOutline>, Exhausted>
    ensures value { IfOk result (λ v. map node_view v.items ≡ nodes_told findings.now) }
    ensures memory { IfErr result (λ e. e ≡ Exhausted.Memory) }
{
    let mut outlines = Vec::new(alloc);
    for n in 0..findings.graph.graph.nodes().len() {
        outlines.push(node_outline(alloc, findings, NodeId(n))?)?;
    }
    Ok(outlines)
}
