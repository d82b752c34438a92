//! Runs: neighbouring edges with one requirement. And tests of what edges say.

ghost use Rattle.std.specs.Prelude.{◌≡◌, ◌<◌, ◌++◌, ◌∷◌, [], IfOk, IfErr, OnOk, length, map};
ghost use Rattle.resolver_report.specs.Causes.{has_conflict as has_conflict_in, has_second_instance as has_second_instance_in, is_conflict as is_conflict_in};
ghost use Rattle.resolver_report.specs.Causes.{is_exclusion as is_exclusion_in, is_second_instance as is_second_instance_in};
ghost use Rattle.resolver_report.specs.Runs.{runs_of as runs_of_edges};
ghost use Rattle.resolver_report.specs.EdgeRuns.{and_then, new_run, run_view};
ghost use Rattle.resolver_clause_store.specs.SameRequirements.{same_requirement};
ghost use Rattle.resolver_report.specs.Shapes.{outgoing as outgoing_in};

use crate::graph::{ConflictCause, ConflictEdge, Edge, Graph, NodeId};
use itertools::Itertools;
use resolver_clause_store::{Exhausted, Requirement};
use std::alloc::Global;

/// Neighbouring edges with one requirement, and their targets.
#[derive(Drop)]
pub struct EdgeRun {
    pub requirement: Requirement,
    pub targets: Vec<NodeId>,
}

/// The edges from a node, newest first.
pub fn outgoing<S: Copy + Drop>(
    alloc: Global,
    graph: &Graph<S>,
    n: NodeId,
) -> Result<Vec<Edge<S>>, Exhausted>
    requires { n.0 < length graph.now.nodes }
    ensures value { IfOk result (λ v. v.items ≡ outgoing_in graph.now.edges n.0) }
    ensures memory { IfErr result (λ e. e ≡ Exhausted.Memory) }
{
    Ok(graph.outgoing(n).copied().collect_vec(alloc)?)
}

/// Whether two requirements are the same.
fn is_same_requirement(a: &Requirement, b: &Requirement) -> bool
    ensures { result ≡ same_requirement a.now b.now }
{
    a == b
}

/// Appends a new run of one edge.
fn add_run(
    alloc: Global,
    runs: &mut Vec<EdgeRun>,
    requirement: Requirement,
    target: NodeId,
) -> Result<(), Exhausted>
    ensures ok { OnOk result (map run_view runs.new.items ≡ map run_view runs.old.items ++ new_run requirement (target ∷ []) ∷ []) }
    ensures memory { IfErr result (λ e. e ≡ Exhausted.Memory) }
{
    let mut targets = Vec::new(alloc);
    targets.push(target)?;
    runs.push(EdgeRun {
        requirement,
        targets,
    })?;
    Ok(())
}

/// Appends an edge to the last run if that has its requirement, else to a new run.
fn add_edge(
    alloc: Global,
    runs: &mut Vec<EdgeRun>,
    requirement: Requirement,
    target: NodeId,
) -> Result<(), Exhausted>
    ensures ok { OnOk result (map run_view runs.new.items ≡ and_then requirement target (map run_view runs.old.items)) }
    ensures memory { IfErr result (λ e. e ≡ Exhausted.Memory) }
{
    let Some(mut run) = runs.pop() else {
        add_run(alloc, runs, requirement, target)?;
        return Ok(());
    };
    if is_same_requirement(&run.requirement, &requirement) {
        run.targets.push(target)?;
        runs.push(run)?;
        return Ok(());
    }
    runs.push(run)?;
    add_run(alloc, runs, requirement, target)?;
    Ok(())
}

/// Splits the requirement edges into runs.
pub fn runs_of<S: Copy + Drop>(alloc: Global, edges: &[Edge<S>]) -> Result<Vec<EdgeRun>, Exhausted>
    ensures value { IfOk result (λ v. map run_view v.items ≡ runs_of_edges edges.now) }
    ensures memory { IfErr result (λ e. e ≡ Exhausted.Memory) }
{
    let mut runs = Vec::new(alloc);
    for edge in edges {
        if let ConflictEdge::Requires(requirement) = edge.weight {
            add_edge(alloc, &mut runs, requirement, edge.target)?;
        }
    }
    Ok(runs)
}

/// Whether an edge excludes its source.
pub fn is_exclusion<S>(edge: &Edge<S>) -> bool
    ensures { result ≡ is_exclusion_in edge.now.weight }
{
    match edge.weight {
        ConflictEdge::Conflict(ConflictCause::Excluded) => true,
        _ => false,
    }
}

/// Whether the ends of an edge conflict.
fn is_conflict<S>(edge: &Edge<S>) -> bool
    ensures { result ≡ is_conflict_in edge.now.weight }
{
    match edge.weight {
        ConflictEdge::Conflict(_) => true,
        ConflictEdge::Requires(_) => false,
    }
}

/// Whether the ends of an edge are instances of one package.
fn is_second_instance<S>(edge: &Edge<S>) -> bool
    ensures { result ≡ is_second_instance_in edge.now.weight }
{
    match edge.weight {
        ConflictEdge::Conflict(ConflictCause::ForbidMultipleInstances) => true,
        _ => false,
    }
}

/// Whether the ends of some edge conflict.
pub fn has_conflict<S>(edges: &[Edge<S>]) -> bool
    ensures { result ≡ has_conflict_in edges.now }
{
    edges.iter().any(|edge| is_conflict(edge))
}

/// Whether the ends of some edge are instances of one package.
pub fn has_second_instance<S>(edges: &[Edge<S>]) -> bool
    ensures { result ≡ has_second_instance_in edges.now }
{
    edges.iter().any(|edge| is_second_instance(edge))
}
