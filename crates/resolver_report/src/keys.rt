//! Keys of nodes: nodes with equal keys are alike.

ghost use Rattle.std.specs.Prelude.{◌≡◌, ◌<◌, IfOk, IfErr, length, string_bytes};
ghost use Rattle.std.specs.Option.{option_map};
ghost use Rattle.resolver_report.specs.Shapes.{required as required_by};
ghost use Rattle.resolver_report.specs.Merging.{key_of, keys, sides_in as sides_in_by, sides_out as sides_out_by};
ghost use Rattle.resolver_report.specs.Keys.{AreKeysOf, IsInOrder, IsKeyOf, node_name};

use crate::graph::{ConflictEdge, ConflictNode, Graph, NodeId, Side};
use itertools::Itertools;
use resolver_clause_store::{Exhausted, Interner, Requirement};
use std::alloc::Global;

/// The name text of a node's solvable, and the sorted sides of its edges.
#[derive(PartialEq, Eq, Hash, Drop)]
pub struct NodeKey {
    pub(crate) name: String,
    pub(crate) sides_in: Vec<Side>,
    pub(crate) sides_out: Vec<Side>,
}

/// The requirement of an edge, or `None` if it is a conflict.
fn required<S>(weight: &ConflictEdge<S>) -> Option<Requirement>
    ensures { result ≡ required_by weight.now }
{
    match weight {
        ConflictEdge::Requires(requirement) => Some(*requirement),
        ConflictEdge::Conflict(_) => None,
    }
}

/// The sides of the incoming edges, sorted.
fn sides_in<S: Drop>(alloc: Global, graph: &Graph<S>, n: NodeId) -> Result<Vec<Side>, Exhausted>
    requires { n.0 < length graph.now.nodes }
    ensures value { IfOk result (λ v. IsInOrder ⟦<Side as Ord>⟧.cmp (sides_in_by graph.now n.0) v.items) }
    ensures memory { IfErr result (λ e. e ≡ Exhausted.Memory) }
{
    let sides = graph.incoming(n).map(|edge| Side {
        required: required(&edge.weight),
        other: edge.source,
    });
    Ok(sides.sorted(alloc)?.collect_vec(alloc)?)
}

/// The sides of the outgoing edges, sorted.
fn sides_out<S: Drop>(alloc: Global, graph: &Graph<S>, n: NodeId) -> Result<Vec<Side>, Exhausted>
    requires { n.0 < length graph.now.nodes }
    ensures value { IfOk result (λ v. IsInOrder ⟦<Side as Ord>⟧.cmp (sides_out_by graph.now n.0) v.items) }
    ensures memory { IfErr result (λ e. e ≡ Exhausted.Memory) }
{
    let sides = graph.outgoing(n).map(|edge| Side {
        required: required(&edge.weight),
        other: edge.target,
    });
    Ok(sides.sorted(alloc)?.collect_vec(alloc)?)
}

/// The name text of a solvable's node, or `None` for any other node.
fn name_at<I: Interner>(
    alloc: Global,
    interner: &I,
    node: &ConflictNode<I::SolvableId>,
) -> Result<Option<String>, Exhausted>
    ensures value { IfOk result (λ o. option_map string_bytes o ≡ node_name (I.universe interner.now) node.now) }
    ensures memory { IfErr result (λ e. e ≡ Exhausted.Memory) }
{
    match node {
        ConflictNode::Solvable(solvable) => {
            let mut text = String::new(alloc);
            interner.display_name(interner.solvable_name(*solvable), &mut text)?;
            Ok(Some(text))
        }
        ConflictNode::Root | ConflictNode::UnresolvedDependency | ConflictNode::Excluded(_) => Ok(
            None,
        ),
    }
}

/// The key of a node, or `None` if it is no solvable.
fn key_at<I: Interner>(
    alloc: Global,
    interner: &I,
    graph: &Graph<I::SolvableId>,
    n: NodeId,
) -> Result<Option<NodeKey>, Exhausted>
    requires { n.0 < length graph.now.nodes }
    ensures value { IfOk result (IsKeyOf ⟦<Side as Ord>⟧.cmp (key_of (I.universe interner.now) graph.now n.0)) }
    ensures memory { IfErr result (λ e. e ≡ Exhausted.Memory) }
{
    let Some(name) = name_at(alloc, interner, &graph.nodes()[n.0])? else {
        return Ok(None);
    };
    Ok(Some(NodeKey {
        name,
        sides_in: sides_in(alloc, graph, n)?,
        sides_out: sides_out(alloc, graph, n)?,
    }))
}

/// The keys of all nodes.
pub fn keys_of<I: Interner>(
    alloc: Global,
    interner: &I,
    graph: &Graph<I::SolvableId>,
) -> Result<Vec<Option<NodeKey>>, Exhausted>
    ensures value { IfOk result (λ v. AreKeysOf ⟦<Side as Ord>⟧.cmp (keys (I.universe interner.now) graph.now) v.items) }
    ensures memory { IfErr result (λ e. e ≡ Exhausted.Memory) }
{
    let mut found = Vec::new(alloc);
    for n in 0..graph.nodes().len() {
        found.push(key_at(alloc, interner, graph, NodeId(n))?)?;
    }
    Ok(found)
}
