//! Graphs: nodes, edges, and the places of the edges at each node.

ghost use Rattle.std.specs.Prelude.{◌≡◌, ◌+◌, ◌<◌, All, IfOk, IfErr, OnOk, length, slice_get};
ghost use Rattle.resolver_report.specs.EdgePlaces.{AreEmpty, HasPlacesOfEdges, appended, lists_in};
ghost use Rattle.std.specs.Iterator.{YieldsFirstRef, item_count};
ghost use Rattle.std.specs.Option.{option_copied, ForSome};
ghost use Rattle.resolver_clause_store.specs.Lists.{HasNoRepeats};
ghost use Rattle.resolver_report.specs.Shapes.{incoming, IsShape, outgoing, Shape};

use resolver_clause_store::{Exhausted, Requirement, StringId, VersionSetId};
use std::alloc::Global;
use std::marker::Model;

/// A node: the root, a solvable, the one node of all requirements without candidates, or a reason for an exclusion.
#[derive(Clone, Copy, PartialEq, Eq, Hash)]
pub enum ConflictNode<S> {
    Root,
    Solvable(S),
    UnresolvedDependency,
    Excluded(StringId),
}

/// Why two nodes cannot be chosen together.
#[derive(Clone, Copy, PartialEq, Eq, PartialOrd, Ord, Hash)]
pub enum ConflictCause<S> {
    Locked(S),
    Constrains(VersionSetId),
    ForbidMultipleInstances,
    Excluded,
}

/// What an edge says: its source requires its target, or the two conflict.
#[derive(Clone, Copy, PartialEq, Eq, PartialOrd, Ord, Hash)]
pub enum ConflictEdge<S> {
    Requires(Requirement),
    Conflict(ConflictCause<S>),
}

/// The place of a node in the list of nodes.
#[derive(Clone, Copy, PartialEq, Eq, PartialOrd, Ord, Hash)]
pub struct NodeId(pub usize);

/// A directed edge, by the places of its ends.
#[derive(Clone, Copy, PartialEq, Eq)]
pub struct Edge<S> {
    pub source: NodeId,
    pub target: NodeId,
    pub weight: ConflictEdge<S>,
}

/// A directed edge, by its nodes, before they have places.
#[derive(Clone, Copy, PartialEq, Eq)]
pub struct Link<S> {
    pub source: ConflictNode<S>,
    pub target: ConflictNode<S>,
    pub weight: ConflictEdge<S>,
}

/// One end of a node's edge: the requirement of the edge, if it has one, and the node at the other end.
#[derive(Clone, Copy, PartialEq, Eq, PartialOrd, Ord, Hash)]
pub struct Side {
    pub required: Option<Requirement>,
    pub other: NodeId,
}

/// For each node, the places of its outgoing and of its incoming edges, oldest first.
#[derive(Drop)]
pub struct EdgePlaces {
    pub(crate) from: Vec<Vec<usize>>,
    pub(crate) to: Vec<Vec<usize>>,
}

/// Makes `count` empty lists.
pub fn empty_lists<X: Drop>(alloc: Global, count: usize) -> Result<Vec<Vec<X>>, Exhausted>
    ensures value { IfOk result (λ v. AreEmpty count (lists_in v.items)) }
    ensures memory { IfErr result (λ e. e ≡ Exhausted.Memory) }
{
    let mut lists = Vec::new(alloc);
    for _n in 0..count {
        lists.push(Vec::new(alloc))?;
    }
    Ok(lists)
}

/// Appends an item to the list at `place`.
pub fn push_at<X: Drop>(lists: &mut Vec<Vec<X>>, place: usize, item: X) -> Result<(), Exhausted>
    requires { place < length lists.old.items }
    ensures ok { OnOk result (lists_in lists.new.items ≡ appended (lists_in lists.old.items) place item) }
    ensures memory { IfErr result (λ e. e ≡ Exhausted.Memory) }
{
    lists[place].push(item)?;
    Ok(())
}

/// Lists the places of each node's edges, for `count` nodes.
pub fn edge_places<S>(
    alloc: Global,
    count: usize,
    edges: &[Edge<S>],
) -> Result<EdgePlaces, Exhausted>
    requires sources { All (λ e. e.source.0 < count) edges.now }
    requires targets { All (λ e. e.target.0 < count) edges.now }
    ensures value { IfOk result (HasPlacesOfEdges count edges.now) }
    ensures memory { IfErr result (λ e. e ≡ Exhausted.Memory) }
{
    let mut from = empty_lists(alloc, count)?;
    let mut to = empty_lists(alloc, count)?;
    for place in 0..edges.len() {
        let edge = &edges[place];
        push_at(&mut from, edge.source.0, place)?;
        push_at(&mut to, edge.target.0, place)?;
    }
    Ok(EdgePlaces { from, to })
}

/// The edge at a place.
fn edge_at<'a, S>(edges: &'a [Edge<S>], place: usize) -> Option<&'a Edge<S>>
    ensures { option_copied result ≡ slice_get edges.now place }
{
    edges.get(place)
}

/// The edges from a node, newest first.
#[derive(Drop)]
pub struct Outgoing<'a, S> {
    pub(crate) edges: &'a [Edge<S>],
    pub(crate) rest: &'a [usize],
}

impl<'a, S> Iterator for Outgoing<'a, S> {
    ghost use Rattle.resolver_report.specs.Edges.{outgoing_left};

    type Item = &'a Edge<S>;

    ghost next_gives = { YieldsFirstRef outgoing_left };

    ghost remaining = { item_count outgoing_left };

    fn next(&mut self) -> Option<&'a Edge<S>> {
        while let Some((last, before)) = self.rest.split_last() {
            let found = edge_at(self.edges, *last);
            self.rest = before;
            if let Some(edge) = found {
                return Some(edge);
            }
        }
        None
    }
}

/// The edges to a node, newest first.
#[derive(Drop)]
pub struct Incoming<'a, S> {
    pub(crate) edges: &'a [Edge<S>],
    pub(crate) rest: &'a [usize],
}

impl<'a, S> Iterator for Incoming<'a, S> {
    ghost use Rattle.resolver_report.specs.Edges.{incoming_left};

    type Item = &'a Edge<S>;

    ghost next_gives = { YieldsFirstRef incoming_left };

    ghost remaining = { item_count incoming_left };

    fn next(&mut self) -> Option<&'a Edge<S>> {
        while let Some((last, before)) = self.rest.split_last() {
            let found = edge_at(self.edges, *last);
            self.rest = before;
            if let Some(edge) = found {
                return Some(edge);
            }
        }
        None
    }
}

/// Nodes, and edges between them. No solvable has two nodes.
#[derive(Drop)]
pub struct Graph<S> {
    nodes: Vec<ConflictNode<S>>,
    edges: Vec<Edge<S>>,
    places: EdgePlaces,
}

impl<S> Model for Graph<S> {
    ghost Value = { Shape S };

    ghost view = { λ g. record { nodes = g.nodes.items; edges = g.edges.items } };

    ghost invariant = { λ g. IsShape (record { nodes = g.nodes.items; edges = g.edges.items }) ×
        HasPlacesOfEdges (length g.nodes.items) g.edges.items g.places };
}

impl<S> Graph<S> {
    ghost use Rattle.resolver_report.specs.Edges.{incoming_left, outgoing_left};

    /// The allocator of the graph.
    pub(crate) fn allocator(&self) -> Global {
        *self.nodes.allocator()
    }

    /// The nodes, in the order of their ids.
    pub fn nodes(&self) -> &[ConflictNode<S>]
        ensures value { result.now ≡ self.now.nodes }
        ensures once { HasNoRepeats self.now.nodes }
    {
        self.nodes.as_slice()
    }

    /// The edges, oldest first.
    pub fn edges(&self) -> &[Edge<S>]
        ensures value { result.now ≡ self.now.edges }
        ensures sources { All (λ e. e.source.0 < length self.now.nodes) self.now.edges }
        ensures targets { All (λ e. e.target.0 < length self.now.nodes) self.now.edges }
    {
        self.edges.as_slice()
    }

    /// The edges from a node, newest first.
    pub fn outgoing(&self, n: NodeId) -> Outgoing<'_, S>
        requires { n.0 < length self.now.nodes }
        ensures { outgoing_left result ≡ outgoing self.now.edges n.0 }
    {
        Outgoing {
            edges: &self.edges,
            rest: &self.places.from[n.0],
        }
    }

    /// The edges to a node, newest first.
    pub fn incoming(&self, n: NodeId) -> Incoming<'_, S>
        requires { n.0 < length self.now.nodes }
        ensures { incoming_left result ≡ incoming self.now.edges n.0 }
    {
        Incoming {
            edges: &self.edges,
            rest: &self.places.to[n.0],
        }
    }
}

impl<S: Drop> Graph<S> {
    /// The graph with these nodes and edges.
    ///
    /// The error is [`Exhausted::Memory`] alone.
    pub(crate) fn new(
        alloc: Global,
        nodes: Vec<ConflictNode<S>>,
        edges: Vec<Edge<S>>,
    ) -> Result<Self, Exhausted>
        requires { IsShape (record { nodes = nodes.items; edges = edges.items }) }
        ensures value { IfOk result (λ g. g ≡ record { nodes = nodes.items; edges = edges.items }) }
        ensures memory { IfErr result (λ e. e ≡ Exhausted.Memory) }
    {
        let places = edge_places(alloc, nodes.len(), &edges)?;
        Ok(Graph {
            nodes,
            edges,
            places,
        })
    }
}

impl<S: Copy + Drop> Graph<S> {
    /// A copy with the same nodes and edges.
    fn copied(&self) -> Result<Graph<S>, Exhausted>
        ensures value { IfOk result (λ g. g ≡ self.now) }
        ensures memory { IfErr result (λ e. e ≡ Exhausted.Memory) }
    {
        let alloc = self.allocator();
        let nodes = Vec::from_slice(alloc, &self.nodes)?;
        let edges = Vec::from_slice(alloc, &self.edges)?;
        Graph::new(alloc, nodes, edges)
    }
}

/// The graph of a conflict.
#[derive(Drop)]
pub struct ConflictGraph<S> {
    pub graph: Graph<S>,
    pub root_node: NodeId,
    pub unresolved_node: Option<NodeId>,
    ghost root_in_range: { root_node.0 < length graph.nodes },
    ghost unresolved_in_range: { ForSome unresolved_node (λ n. n.0 < length graph.nodes) },
}

impl<S: Copy + Drop> ConflictGraph<S> {
    /// A copy that equals this graph.
    ///
    /// The error is [`Exhausted::Memory`] alone.
    pub fn clone(&self) -> Result<ConflictGraph<S>, Exhausted>
        ensures value { IfOk result (λ g. g ≡ self.now) }
        ensures memory { IfErr result (λ e. e ≡ Exhausted.Memory) }
    {
        Ok(ConflictGraph {
            graph: self.graph.copied()?,
            root_node: self.root_node,
            unresolved_node: self.unresolved_node,
        })
    }
}
