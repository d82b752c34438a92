//! The graph of a list of rules: the nodes that rules mention, the links between them, and the places of nodes.

ghost use Rattle.std.specs.Prelude.{◌≡◌, IfOk, IfErr, ◌++◌, ◌∷◌, [], OnOk, map, ◌<◌};
ghost use Rattle.resolver_report.specs.Graphs.{place_in, links, instance_links, mentioned, mentions, node_by as node_of, requirement_links, edge_in};
ghost use Rattle.resolver_report.specs.Graphs.{graph_of as graph_of_rules, is_entered as is_entered_by};
ghost use Rattle.resolver_report.specs.Places.{HasPlaces};
ghost use Rattle.resolver_clause_store.specs.Laws.{IsIdentity};
ghost use Rattle.resolver_clause_store.specs.Lists.{without_repeats};
ghost use Rattle.std.specs.HashMap.{get};
ghost use Rattle.std.specs.Option.{option_copied};
ghost use Rattle.resolver_report.specs.LastInstances.{links_with_last, last_after};
ghost use Rattle.resolver_report.specs.Same.{same_node};
ghost use Rattle.resolver_report.specs.ConflictGraphs.{shape_of};

use crate::graph::{
    ConflictCause, ConflictEdge, ConflictGraph, ConflictNode, Edge, Graph, Link, NodeId,
};
use itertools::Itertools;
use resolver_clause_store::{By, Exhausted, Requirement, Rule};
use std::alloc::Global;
use std::collections::HashMap;
use std::hash::Hash;

/// Maps each node to its place, the first if it stands twice.
pub fn places_of<S: Copy + Eq + Hash + Drop>(
    alloc: Global,
    nodes: &[ConflictNode<S>],
) -> Result<HashMap<ConflictNode<S>, usize>, Exhausted>
    ensures value { IfOk result (HasPlaces S.eq nodes.now) }
    ensures memory { IfErr result (λ e. e ≡ Exhausted.Memory) }
{
    let mut places = HashMap::new(alloc);
    let mut rest = nodes;
    while let [before @ .., node] = rest {
        places.insert(*node, before.len())?;
        rest = before;
    }
    Ok(places)
}

/// The place of a node, or the number of nodes if it is not among them.
pub fn place<S: Copy + Eq + Hash + Drop>(
    nodes: &[ConflictNode<S>],
    places: &HashMap<ConflictNode<S>, usize>,
    wanted: &ConflictNode<S>,
) -> usize
    requires { HasPlaces S.eq nodes.now places.now }
    ensures { result ≡ place_in S.eq nodes.now wanted.now }
{
    match places.get(wanted) {
        Some(place) => *place,
        None => nodes.len(),
    }
}

/// The node of a requirer.
fn node_by<S: Copy>(by: &By<S>) -> ConflictNode<S>
    ensures { result ≡ node_of by.now }
{
    match by {
        By::Root => ConflictNode::Root,
        By::Solvable(solvable) => ConflictNode::Solvable(*solvable),
    }
}

/// Links a requirer to each candidate, or to the unresolved node if there is none.
fn add_requirement<S: Copy + Drop>(
    found: &mut Vec<Link<S>>,
    source: ConflictNode<S>,
    requirement: Requirement,
    candidates: &[S],
) -> Result<(), Exhausted>
    ensures ok { OnOk result (found.new.items ≡ found.old.items ++ requirement_links source requirement candidates.now) }
    ensures memory { IfErr result (λ e. e ≡ Exhausted.Memory) }
{
    let weight = ConflictEdge::Requires(requirement);
    if candidates.is_empty() {
        let target = ConflictNode::UnresolvedDependency;
        found.push(Link {
            source,
            target,
            weight,
        })?;
        return Ok(());
    }
    for candidate in candidates {
        let target = ConflictNode::Solvable(*candidate);
        found.push(Link {
            source,
            target,
            weight,
        })?;
    }
    Ok(())
}

/// Links two nodes that conflict.
fn add_conflict<S: Copy + Drop>(
    found: &mut Vec<Link<S>>,
    source: ConflictNode<S>,
    target: ConflictNode<S>,
    cause: ConflictCause<S>,
) -> Result<(), Exhausted>
    ensures ok { OnOk result (found.new.items ≡ found.old.items ++ record { source = source; target = target; weight = ConflictEdge.Conflict cause } ∷ []) }
    ensures memory { IfErr result (λ e. e ≡ Exhausted.Memory) }
{
    found.push(Link {
        source,
        target,
        weight: ConflictEdge::Conflict(cause),
    })?;
    Ok(())
}

/// Links the previous listed instance, if there is one, to this one.
fn add_second_instance<S: Copy + Drop>(
    found: &mut Vec<Link<S>>,
    before: Option<&S>,
    instance: S,
) -> Result<(), Exhausted>
    ensures ok { OnOk result (found.new.items ≡ found.old.items ++ instance_links (option_copied before.entry) instance) }
    ensures memory { IfErr result (λ e. e ≡ Exhausted.Memory) }
{
    let Some(before) = before else {
        return Ok(());
    };
    let source = ConflictNode::Solvable(*before);
    let cause = ConflictCause::ForbidMultipleInstances;
    add_conflict(found, source, ConflictNode::Solvable(instance), cause)?;
    Ok(())
}

/// Appends the links of a rule, given the last listed instance of each package.
fn add_links<N: Copy + Eq + Hash + Drop, S: Copy + Drop>(
    found: &mut Vec<Link<S>>,
    last_instances: &HashMap<N, S>,
    rule: &Rule<N, S>,
) -> Result<(), Exhausted>
    ensures ok { OnOk result (found.new.items ≡ found.old.items ++ links_with_last (get N.eq last_instances.now) rule.now) }
    ensures memory { IfErr result (λ e. e ≡ Exhausted.Memory) }
{
    match rule {
        Rule::Requires {
            by,
            requirement,
            candidates,
            ..
        } => {
            add_requirement(found, node_by(by), *requirement, candidates)?;
            Ok(())
        }
        Rule::Constrains {
            by,
            version_set,
            candidate,
        } => {
            let target = ConflictNode::Solvable(*candidate);
            let cause = ConflictCause::Constrains(*version_set);
            add_conflict(found, node_by(by), target, cause)?;
            Ok(())
        }
        Rule::Lock { locked, forbidden } => {
            let target = ConflictNode::Solvable(*forbidden);
            let cause = ConflictCause::Locked(*locked);
            add_conflict(found, ConflictNode::Root, target, cause)?;
            Ok(())
        }
        Rule::Excluded { solvable, reason } => {
            let source = ConflictNode::Solvable(*solvable);
            let target = ConflictNode::Excluded(*reason);
            add_conflict(found, source, target, ConflictCause::Excluded)?;
            Ok(())
        }
        Rule::OnePerPackage { name, instance } => {
            add_second_instance(found, last_instances.get(name), *instance)?;
            Ok(())
        }
    }
}

/// If a rule lists an instance, remembers it as the last of its package.
fn keep_instance<N: Copy + Eq + Hash + Drop, S: Copy + Drop>(
    last_instances: &mut HashMap<N, S>,
    rule: &Rule<N, S>,
) -> Result<(), Exhausted>
    ensures ok { OnOk result ((n : N) → get N.eq last_instances.new n ≡ last_after N.eq rule.now n (get N.eq last_instances.old n)) }
    ensures memory { IfErr result (λ e. e ≡ Exhausted.Memory) }
{
    match rule {
        Rule::OnePerPackage { name, instance } => {
            last_instances.insert(*name, *instance)?;
            Ok(())
        }
        Rule::Requires { .. }
        | Rule::Constrains { .. }
        | Rule::Lock { .. }
        | Rule::Excluded { .. } => Ok(()),
    }
}

/// Collects the links of all rules, in order.
pub fn all_links<N: Copy + Eq + Hash + Drop, S: Copy + Drop>(
    alloc: Global,
    rules: &[Rule<N, S>],
) -> Result<Vec<Link<S>>, Exhausted>
    ensures value { IfOk result (λ v. v.items ≡ links N.eq rules.now) }
    ensures memory { IfErr result (λ e. e ≡ Exhausted.Memory) }
{
    let mut found = Vec::new(alloc);
    let mut last_instances = HashMap::new(alloc);
    for rule in rules {
        add_links(&mut found, &last_instances, rule)?;
        keep_instance(&mut last_instances, rule)?;
    }
    Ok(found)
}

/// Appends the nodes that a rule mentions.
fn add_mentions<N, S: Copy + Drop>(
    found: &mut Vec<ConflictNode<S>>,
    rule: &Rule<N, S>,
) -> Result<(), Exhausted>
    ensures ok { OnOk result (found.new.items ≡ found.old.items ++ mentioned rule.now) }
    ensures memory { IfErr result (λ e. e ≡ Exhausted.Memory) }
{
    match rule {
        Rule::Requires { by, candidates, .. } => {
            found.push(node_by(by))?;
            add_solvables(found, candidates)?;
            Ok(())
        }
        Rule::Constrains { by, candidate, .. } => {
            found.push(node_by(by))?;
            found.push(ConflictNode::Solvable(*candidate))?;
            Ok(())
        }
        Rule::Lock { forbidden, .. } => {
            found.push(ConflictNode::Solvable(*forbidden))?;
            Ok(())
        }
        Rule::Excluded { solvable, reason } => {
            found.push(ConflictNode::Solvable(*solvable))?;
            found.push(ConflictNode::Excluded(*reason))?;
            Ok(())
        }
        Rule::OnePerPackage { instance, .. } => {
            found.push(ConflictNode::Solvable(*instance))?;
            Ok(())
        }
    }
}

/// Appends the nodes of solvables.
fn add_solvables<S: Copy + Drop>(
    found: &mut Vec<ConflictNode<S>>,
    solvables: &[S],
) -> Result<(), Exhausted>
    ensures ok { OnOk result (found.new.items ≡ found.old.items ++ map ConflictNode.Solvable solvables.now) }
    ensures memory { IfErr result (λ e. e ≡ Exhausted.Memory) }
{
    for solvable in solvables {
        found.push(ConflictNode::Solvable(*solvable))?;
    }
    Ok(())
}

/// The root, the unresolved node, and the nodes that the rules mention, in order.
pub fn all_mentions<N, S: Copy + Drop>(
    alloc: Global,
    rules: &[Rule<N, S>],
) -> Result<Vec<ConflictNode<S>>, Exhausted>
    ensures value { IfOk result (λ v. v.items ≡ mentions rules.now) }
    ensures memory { IfErr result (λ e. e ≡ Exhausted.Memory) }
{
    let mut found = Vec::new(alloc);
    found.push(ConflictNode::Root)?;
    found.push(ConflictNode::UnresolvedDependency)?;
    for rule in rules {
        add_mentions(&mut found, rule)?;
    }
    Ok(found)
}

/// Keeps the first mention of each node.
pub fn first_of_each<S: Copy + Eq + Hash + Drop>(
    alloc: Global,
    nodes: &[ConflictNode<S>],
) -> Result<Vec<ConflictNode<S>>, Exhausted>
    requires { IsIdentity S.eq }
    ensures value { IfOk result (λ v. v.items ≡ without_repeats (same_node S.eq) nodes.now) }
    ensures memory { IfErr result (λ e. e ≡ Exhausted.Memory) }
{
    let found = nodes.iter().unique(alloc)?;
    Ok(found.copied().collect_vec(alloc)?)
}

/// Whether a link leads to the unresolved node.
fn is_entered<S: Eq>(links: &[Link<S>]) -> bool
    ensures { result ≡ is_entered_by S.eq links.now }
{
    for link in links {
        if link.target == ConflictNode::UnresolvedDependency {
            return true;
        }
    }
    false
}

/// Turns a link into an edge between the places of its nodes.
fn edge_of<S: Copy + Eq + Hash + Drop>(
    nodes: &[ConflictNode<S>],
    places: &HashMap<ConflictNode<S>, usize>,
    link: &Link<S>,
) -> Edge<S>
    requires { HasPlaces S.eq nodes.now places.now }
    ensures { result ≡ edge_in S.eq nodes.now link.now }
{
    Edge {
        source: NodeId(place(nodes, places, &link.source)),
        target: NodeId(place(nodes, places, &link.target)),
        weight: link.weight,
    }
}

/// Turns links into edges between the places of their nodes.
fn edges_of<S: Copy + Eq + Hash + Drop>(
    alloc: Global,
    nodes: &[ConflictNode<S>],
    links: &[Link<S>],
) -> Result<Vec<Edge<S>>, Exhausted>
    ensures value { IfOk result (λ v. v.items ≡ map (edge_in S.eq nodes.now) links.now) }
    ensures memory { IfErr result (λ e. e ≡ Exhausted.Memory) }
{
    let places = places_of(alloc, nodes)?;
    let edges = links.iter().map(|link| edge_of(nodes, &places, link));
    Ok(edges.collect_vec(alloc)?)
}

/// Makes the graph of a list of rules.
///
/// The root is node 0, the unresolved node is node 1, and the others follow in the order of their first mention. Edges
/// are in the order of the rules. If no edge leads to node 1, it is removed, and the last node takes its place.
///
/// The error is [`Exhausted::Memory`] alone.
pub fn graph_of<N: Copy + Eq + Hash + Drop, S: Copy + Eq + Hash + Drop>(
    alloc: Global,
    rules: &[Rule<N, S>],
) -> Result<ConflictGraph<S>, Exhausted>
    requires { IsIdentity S.eq }
    ensures value { IfOk result (λ g. shape_of g ≡ graph_of_rules N.eq S.eq rules.now) }
    ensures memory { IfErr result (λ e. e ≡ Exhausted.Memory) }
{
    let links = all_links(alloc, rules)?;
    let mentions = all_mentions(alloc, rules)?;
    let mut nodes = first_of_each(alloc, &mentions)?;
    if is_entered(&links) {
        let edges = edges_of(alloc, &nodes, &links)?;
        return Ok(ConflictGraph {
            graph: Graph::new(alloc, nodes, edges)?,
            root_node: NodeId(0),
            unresolved_node: Some(NodeId(1)),
        });
    }
    nodes.swap_remove(1);
    let edges = edges_of(alloc, &nodes, &links)?;
    Ok(ConflictGraph {
        graph: Graph::new(alloc, nodes, edges)?,
        root_node: NodeId(0),
        unresolved_node: None,
    })
}
