//! The graphs of small lists of rules.
//!
//! The tests own nothing: what they call makes the rules and the graph, and says whether it is the wanted one.

use super::rules::{Row, graph_of_rows, instance_of, required};
use resolver_clause_store::{By, Exhausted, Requirement, StringId, VersionSetId};
use resolver_report::{
    ConflictCause, ConflictEdge, ConflictGraph, ConflictNode, Edge, Graph, Incoming, NodeId,
    Outgoing,
};
use std::alloc::Global;
use std::test::Fail;

const WANTED: Requirement = Requirement::Single(VersionSetId(0));

fn edge(source: usize, target: usize, weight: ConflictEdge<u32>) -> Edge<u32> {
    Edge {
        source: NodeId(source),
        target: NodeId(target),
        weight,
    }
}

/// What a graph has.
#[derive(Clone, Copy)]
struct Parts<'x> {
    nodes: &'x [ConflictNode<u32>],
    edges: &'x [Edge<u32>],
    unresolved_node: Option<NodeId>,
}

/// Whether a graph has these parts, and its first node is the root.
fn has_parts(graph: &ConflictGraph<u32>, wanted: &Parts<'_>) -> bool {
    (graph.graph.nodes() == wanted.nodes)
        & (graph.graph.edges() == wanted.edges)
        & (graph.root_node == NodeId(0))
        & (graph.unresolved_node == wanted.unresolved_node)
}

/// Whether a copy of a graph has these parts.
fn copy_has_parts(graph: &ConflictGraph<u32>, wanted: &Parts<'_>) -> Result<bool, Exhausted> {
    let copied = graph.clone()?;
    Ok(has_parts(&copied, wanted))
}

fn makes_parts(alloc: Global, rows: &[Row<'_>], wanted: &Parts<'_>) -> Result<bool, Exhausted> {
    let graph = graph_of_rows(alloc, rows)?;
    Ok(has_parts(&graph, wanted) & copy_has_parts(&graph, wanted)?)
}

/// Whether the graph of these rules has these nodes and edges, and a copy of it, too.
fn is_graph<'x>(
    alloc: Global,
    rows: &[Row<'_>],
    nodes: &'x [ConflictNode<u32>],
    edges: &'x [Edge<u32>],
    unresolved_node: Option<NodeId>,
) -> Result<bool, Exhausted> {
    let wanted = Parts {
        nodes,
        edges,
        unresolved_node,
    };
    makes_parts(alloc, rows, &wanted)
}

#[test]
fn no_candidates(rt: HostRuntime) -> Result<(), Fail> {
    let rows = [required(By::Root, &[])];
    let nodes = [ConflictNode::Root, ConflictNode::UnresolvedDependency];
    let edges = [edge(0, 1, ConflictEdge::Requires(WANTED))];
    assert!(rt; is_graph(rt.alloc(), &rows, &nodes, &edges, Some(NodeId(1)))?);
    Ok(())
}

#[test]
fn instance_listed_twice(rt: HostRuntime) -> Result<(), Fail> {
    let second = ConflictEdge::Conflict(ConflictCause::ForbidMultipleInstances);
    let rows = [instance_of(5, 1), instance_of(5, 1)];
    let nodes = [ConflictNode::Root, ConflictNode::Solvable(1)];
    assert!(rt; is_graph(rt.alloc(), &rows, &nodes, &[edge(1, 1, second)], None)?);
    Ok(())
}

#[test]
fn instance_of_another_name_between(rt: HostRuntime) -> Result<(), Fail> {
    let second = ConflictEdge::Conflict(ConflictCause::ForbidMultipleInstances);
    let rows = [instance_of(5, 1), instance_of(6, 2), instance_of(5, 3)];
    let nodes = [
        ConflictNode::Root,
        ConflictNode::Solvable(3),
        ConflictNode::Solvable(1),
        ConflictNode::Solvable(2),
    ];
    assert!(rt; is_graph(rt.alloc(), &rows, &nodes, &[edge(2, 1, second)], None)?);
    Ok(())
}

#[test]
fn locks_and_exclusions(rt: HostRuntime) -> Result<(), Fail> {
    let rows = [
        Row::Lock {
            locked: 2,
            forbidden: 1,
        },
        Row::Excluded {
            solvable: 1,
            reason: 4,
        },
        Row::Excluded {
            solvable: 3,
            reason: 4,
        },
    ];
    let excluded = ConflictEdge::Conflict(ConflictCause::Excluded);
    let nodes = [
        ConflictNode::Root,
        ConflictNode::Solvable(3),
        ConflictNode::Solvable(1),
        ConflictNode::Excluded(StringId(4)),
    ];
    let edges = [
        edge(0, 2, ConflictEdge::Conflict(ConflictCause::Locked(2))),
        edge(2, 3, excluded),
        edge(1, 3, excluded),
    ];
    assert!(rt; is_graph(rt.alloc(), &rows, &nodes, &edges, None)?);
    Ok(())
}

/// Whether these two edges come out of a node, in order, and no more.
fn are_outgoing(mut edges: Outgoing<'_, u32>, wanted: (Edge<u32>, Edge<u32>)) -> bool {
    let (first, second) = (edges.next(), edges.next());
    (first == Some(&wanted.0)) & (second == Some(&wanted.1)) & edges.next().is_none()
}

/// Whether these two edges go into a node, in order, and no more.
fn are_incoming(mut edges: Incoming<'_, u32>, wanted: (Edge<u32>, Edge<u32>)) -> bool {
    let (first, second) = (edges.next(), edges.next());
    (first == Some(&wanted.0)) & (second == Some(&wanted.1)) & edges.next().is_none()
}

/// Whether there are three nodes, and these edges from the first and to the last, newest first.
fn has_edges(
    graph: &Graph<u32>,
    from_root: (Edge<u32>, Edge<u32>),
    to_second: (Edge<u32>, Edge<u32>),
) -> bool {
    if graph.nodes().len() != 3 {
        return false;
    }
    are_outgoing(graph.outgoing(NodeId(0)), from_root)
        & are_incoming(graph.incoming(NodeId(2)), to_second)
}

/// Whether the graph of these rules has three nodes, and these edges from the first and to the last, newest first.
fn gives_edges(
    alloc: Global,
    rows: &[Row<'_>],
    from_root: (Edge<u32>, Edge<u32>),
    to_second: (Edge<u32>, Edge<u32>),
) -> Result<bool, Exhausted> {
    let graph = graph_of_rows(alloc, rows)?;
    Ok(has_edges(&graph.graph, from_root, to_second))
}

#[test]
fn edges_newest_first(rt: HostRuntime) -> Result<(), Fail> {
    let rows = [required(By::Root, &[2, 1]), required(By::Solvable(1), &[2])];
    let wanted = ConflictEdge::Requires(WANTED);
    let from_root = (edge(0, 1, wanted), edge(0, 2, wanted));
    let to_second = (edge(1, 2, wanted), edge(0, 2, wanted));
    assert!(rt; gives_edges(rt.alloc(), &rows, from_root, to_second)?);
    Ok(())
}
