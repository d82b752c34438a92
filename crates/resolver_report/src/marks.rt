//! Which nodes of a graph can be installed, and which are missing.

ghost use Rattle.std.specs.Prelude.{◌≡◌, ◌<◌, ◌++◌, ◌∷◌, [], IfOk, IfErr, OnOk, length, map};
ghost use Rattle.std.specs.Option.{option_map};
ghost use Rattle.resolver_report.specs.ConflictGraphs.{shape_of};
ghost use Rattle.resolver_report.specs.Causes.{has_exclusion};
ghost use Rattle.resolver_report.specs.EdgePlaces.{lists_in};
ghost use Rattle.resolver_report.specs.EdgeRuns.{run_view};
ghost use Rattle.resolver_report.specs.Implications.{implied};
ghost use Rattle.resolver_report.specs.Marks.{IsLeastClosed, can_be_installed as can_be_installed_by, installable as installable_in, is_marked as is_marked_in};
ghost use Rattle.resolver_report.specs.Marks.{is_place as is_place_at, missing as missing_in, must_be_missing as must_be_missing_by};
ghost use Rattle.resolver_report.specs.Marks.{some_marked as some_marked_in};
ghost use Rattle.resolver_report.specs.NodeImplications.{all_of_run, each_alone, installable_by, missing_by, of_each_node};
ghost use Rattle.resolver_report.specs.Shapes.{ConflictShape, incoming};

use crate::graph::{ConflictGraph, Graph, NodeId};
use crate::implications::{Implication, least_marks};
use crate::runs::{EdgeRun, has_conflict, is_exclusion, outgoing, runs_of};
use resolver_clause_store::Exhausted;
use std::alloc::Global;

/// Whether a node is marked. Nodes past the end of the marks are not.
pub fn is_marked(marks: &[bool], n: NodeId) -> bool
    ensures { result ≡ is_marked_in marks.now n.0 }
{
    match marks.get(n.0) {
        Some(mark) => *mark,
        None => false,
    }
}

/// Whether one of the nodes is marked.
pub fn some_marked(marks: &[bool], nodes: &[NodeId]) -> bool
    ensures { result ≡ some_marked_in marks.now nodes.now }
{
    nodes.iter().any(|n| is_marked(marks, *n))
}

/// Whether `n` is the node at this place, if there is one.
pub fn is_place(place: Option<NodeId>, n: NodeId) -> bool
    ensures { result ≡ is_place_at (option_map (λ m. m.0) place) n.0 }
{
    match place {
        Some(m) => m.0 == n.0,
        None => false,
    }
}

/// Whether an incoming edge of a node is an exclusion.
fn is_excluded<S: Drop>(graph: &Graph<S>, n: NodeId) -> bool
    requires { n.0 < length graph.now.nodes }
    ensures { result ≡ has_exclusion (incoming graph.now.edges n.0) }
{
    for edge in graph.incoming(n) {
        if is_exclusion(edge) {
            return true;
        }
    }
    false
}

/// The targets of each run.
fn targets_of(alloc: Global, runs: &[EdgeRun]) -> Result<Vec<Vec<NodeId>>, Exhausted>
    ensures value { IfOk result (λ v. lists_in v.items ≡ map (λ run. run.targets) (map run_view runs.now)) }
    ensures memory { IfErr result (λ e. e ≡ Exhausted.Memory) }
{
    let mut groups = Vec::new(alloc);
    for run in runs {
        groups.push(Vec::from_slice(alloc, &run.targets)?)?;
    }
    Ok(groups)
}

/// A list of one node.
fn alone(alloc: Global, n: NodeId) -> Result<Vec<NodeId>, Exhausted>
    ensures value { IfOk result (λ v. v.items ≡ n ∷ []) }
    ensures memory { IfErr result (λ e. e ≡ Exhausted.Memory) }
{
    let mut nodes = Vec::new(alloc);
    nodes.push(n)?;
    Ok(nodes)
}

/// Puts each node into a list of its own.
fn alone_each(alloc: Global, nodes: &[NodeId]) -> Result<Vec<Vec<NodeId>>, Exhausted>
    ensures value { IfOk result (λ v. lists_in v.items ≡ each_alone nodes.now) }
    ensures memory { IfErr result (λ e. e ≡ Exhausted.Memory) }
{
    let mut groups = Vec::new(alloc);
    for n in nodes {
        groups.push(alone(alloc, *n)?)?;
    }
    Ok(groups)
}

/// Adds, for each run, that `n` is missing if all its targets are.
fn add_runs(
    alloc: Global,
    runs: &[EdgeRun],
    n: NodeId,
    found: &mut Vec<Implication>,
) -> Result<(), Exhausted>
    ensures ok { OnOk result (map implied found.new.items ≡ map implied found.old.items ++ map (all_of_run n.0) (map run_view runs.now)) }
    ensures memory { IfErr result (λ e. e ≡ Exhausted.Memory) }
{
    for run in runs {
        let groups = alone_each(alloc, &run.targets)?;
        found.push(Implication { groups, node: n })?;
    }
    Ok(())
}

/// Adds the implication by which a node can be installed, if it has one.
fn add_installable<S: Copy + Drop>(
    alloc: Global,
    graph: &ConflictGraph<S>,
    n: NodeId,
    found: &mut Vec<Implication>,
) -> Result<(), Exhausted>
    requires { n.0 < length graph.now.graph.nodes }
    ensures ok { OnOk result (map implied found.new.items ≡ map implied found.old.items ++ installable_by (shape_of graph.now) n.0) }
    ensures memory { IfErr result (λ e. e ≡ Exhausted.Memory) }
{
    if is_place(graph.unresolved_node, n) {
        return Ok(());
    }
    if is_excluded(&graph.graph, n) {
        return Ok(());
    }
    let edges = outgoing(alloc, &graph.graph, n)?;
    if has_conflict(&edges) {
        return Ok(());
    }
    let runs = runs_of(alloc, &edges)?;
    let groups = targets_of(alloc, &runs)?;
    found.push(Implication { groups, node: n })?;
    Ok(())
}

/// Adds the implications by which a node is missing.
fn add_missing<S: Copy + Drop>(
    alloc: Global,
    graph: &ConflictGraph<S>,
    n: NodeId,
    found: &mut Vec<Implication>,
) -> Result<(), Exhausted>
    requires { n.0 < length graph.now.graph.nodes }
    ensures ok { OnOk result (map implied found.new.items ≡ map implied found.old.items ++ missing_by (shape_of graph.now) n.0) }
    ensures memory { IfErr result (λ e. e ≡ Exhausted.Memory) }
{
    if is_place(graph.unresolved_node, n) {
        let groups = Vec::new(alloc);
        found.push(Implication { groups, node: n })?;
        return Ok(());
    }
    let edges = outgoing(alloc, &graph.graph, n)?;
    if has_conflict(&edges) {
        return Ok(());
    }
    let runs = runs_of(alloc, &edges)?;
    add_runs(alloc, &runs, n, found)?;
    Ok(())
}

/// Collects the implications by which nodes can be installed.
fn all_installable<S: Copy + Drop>(
    alloc: Global,
    graph: &ConflictGraph<S>,
) -> Result<Vec<Implication>, Exhausted>
    ensures value { IfOk result (λ v. map implied v.items ≡ of_each_node (shape_of graph.now) (installable_by (shape_of graph.now))) }
    ensures memory { IfErr result (λ e. e ≡ Exhausted.Memory) }
{
    let mut found = Vec::new(alloc);
    for n in 0..graph.graph.nodes().len() {
        add_installable(alloc, graph, NodeId(n), &mut found)?;
    }
    Ok(found)
}

/// Collects the implications by which nodes are missing.
fn all_missing<S: Copy + Drop>(
    alloc: Global,
    graph: &ConflictGraph<S>,
) -> Result<Vec<Implication>, Exhausted>
    ensures value { IfOk result (λ v. map implied v.items ≡ of_each_node (shape_of graph.now) (missing_by (shape_of graph.now))) }
    ensures memory { IfErr result (λ e. e ≡ Exhausted.Memory) }
{
    let mut found = Vec::new(alloc);
    for n in 0..graph.graph.nodes().len() {
        add_missing(alloc, graph, NodeId(n), &mut found)?;
    }
    Ok(found)
}

/// Marks the nodes that can be installed.
pub fn installable<S: Copy + Drop>(
    alloc: Global,
    graph: &ConflictGraph<S>,
) -> Result<Vec<bool>, Exhausted>
    ensures value { IfOk result (λ v. v.items ≡ installable_in (shape_of graph.now)) }
    ensures memory { IfErr result (λ e. e ≡ Exhausted.Memory) }
{
    let implications = all_installable(alloc, graph)?;
    let marks = least_marks(alloc, graph.graph.nodes().len(), &implications)?;
    Ok(marks)
}

/// Marks the nodes that are missing.
pub fn missing<S: Copy + Drop>(
    alloc: Global,
    graph: &ConflictGraph<S>,
) -> Result<Vec<bool>, Exhausted>
    ensures value { IfOk result (λ v. v.items ≡ missing_in (shape_of graph.now)) }
    ensures memory { IfErr result (λ e. e ≡ Exhausted.Memory) }
{
    let implications = all_missing(alloc, graph)?;
    let marks = least_marks(alloc, graph.graph.nodes().len(), &implications)?;
    Ok(marks)
}

/// The marks of the nodes that can be installed, and of those that are missing, are the least ones closed under their
/// rules: each node that the rule marks, given the marks, is marked, and any other marks that are closed so have at
/// least these.
pub fn marks_are_least_closed<S>()
    ensures installable { (g : ConflictShape S) → IsLeastClosed (length g.shape.nodes) (can_be_installed_by g) (installable_in g) }
    ensures missing { (g : ConflictShape S) → IsLeastClosed (length g.shape.nodes) (must_be_missing_by g) (missing_in g) }
{}
