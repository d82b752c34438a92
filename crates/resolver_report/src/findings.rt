//! The groups and marks of a graph's nodes, which a message is written from.

ghost use Rattle.std.specs.Prelude.{◌≡◌, ℕ, IfOk, IfErr, MatchOption, None, Some};
ghost use Rattle.std.specs.HashMap.{get};
ghost use Rattle.resolver_report.specs.ConflictGraphs.{shape_of};
ghost use Rattle.resolver_report.specs.Marks.{installable as installable_in};
ghost use Rattle.resolver_report.specs.Merging.{group_in, keys};
ghost use Rattle.resolver_report.specs.Places.{HasPlaces};
ghost use Rattle.resolver_report.specs.Simplified.{IsFoundAt, IsSimplified};
ghost use Rattle.resolver_report.specs.Outlines.{groups_in, group_of_node};

use crate::graph::{ConflictGraph, ConflictNode};
use crate::marks::installable;
use crate::outline::Findings;
use crate::rule_graph::{place, places_of};
use crate::simplify::{MergedConflictNode, solvable_at};
use resolver_clause_store::{Exhausted, Interner};
use std::alloc::Global;
use std::collections::HashMap;
use std::hash::Hash;
use std::rc::Rc;

/// Looks up the group of a solvable.
fn mapped<'a, S: Copy + Eq + Hash + Drop>(
    groups: &'a HashMap<S, Rc<MergedConflictNode<S>>>,
    solvable: S,
) -> Option<&'a Rc<MergedConflictNode<S>>>
    ensures { MatchOption result (get S.eq groups.now solvable ≡ None) (λ group. get S.eq groups.now solvable ≡ Some group.now) }
{
    groups.get(&solvable)
}

/// The group of a node, or `None` if it stands alone or is no solvable.
pub fn group_at_node<'a, I: Interner>(
    _interner: &I,
    graph: &ConflictGraph<I::SolvableId>,
    groups: &'a HashMap<I::SolvableId, Rc<MergedConflictNode<I::SolvableId>>>,
    n: usize,
) -> Option<&'a Rc<MergedConflictNode<I::SolvableId>>>
    requires { IsSimplified I.SolvableId.eq (I.universe _interner.now) graph.now.graph groups.now }
    ensures { IsFoundAt (keys (I.universe _interner.now) graph.now.graph) graph.now.graph n result }
{
    let Some(solvable) = solvable_at(&graph.graph, n) else {
        return None;
    };
    mapped(groups, solvable)
}

/// The place of the first node of a node's group, or `None` if it has no group.
fn first_of_group<I: Interner>(
    interner: &I,
    graph: &ConflictGraph<I::SolvableId>,
    places: &HashMap<ConflictNode<I::SolvableId>, usize>,
    groups: &HashMap<I::SolvableId, Rc<MergedConflictNode<I::SolvableId>>>,
    n: usize,
) -> Option<usize>
    requires places { HasPlaces I.SolvableId.eq graph.now.graph.nodes places.now }
    requires groups { IsSimplified I.SolvableId.eq (I.universe interner.now) graph.now.graph groups.now }
    ensures { result ≡ group_in (keys (I.universe interner.now) graph.now.graph) n }
{
    let Some(group) = group_at_node(interner, graph, groups, n) else {
        return None;
    };
    if group.ids.len() == 0 {
        return None;
    }
    let first = group.ids[0];
    let nodes = graph.graph.nodes();
    Some(place(nodes, places, &ConflictNode::Solvable(first)))
}

/// For each node, the place of the first node of its group, or `None` if it has no group.
fn groups_of<I: Interner>(
    alloc: Global,
    interner: &I,
    graph: &ConflictGraph<I::SolvableId>,
    groups: &HashMap<I::SolvableId, Rc<MergedConflictNode<I::SolvableId>>>,
) -> Result<Vec<Option<usize>>, Exhausted>
    requires { IsSimplified I.SolvableId.eq (I.universe interner.now) graph.now.graph groups.now }
    ensures value { IfOk result (λ v. (n : ℕ) → group_of_node v.items n ≡ group_in (keys (I.universe interner.now) graph.now.graph) n) }
    ensures memory { IfErr result (λ e. e ≡ Exhausted.Memory) }
{
    let nodes = graph.graph.nodes();
    let places = places_of(alloc, nodes)?;
    let mut found = Vec::new(alloc);
    for n in 0..nodes.len() {
        found.push(first_of_group(interner, graph, &places, groups, n))?;
    }
    Ok(found)
}

/// Collects what the message needs to know of the nodes, given the groups of the solvables.
pub fn findings_of<'g, I: Interner>(
    alloc: Global,
    interner: &I,
    graph: &'g ConflictGraph<I::SolvableId>,
    groups: &HashMap<I::SolvableId, Rc<MergedConflictNode<I::SolvableId>>>,
) -> Result<Findings<'g, I::SolvableId>, Exhausted>
    requires { IsSimplified I.SolvableId.eq (I.universe interner.now) graph.now.graph groups.now }
    ensures graph { IfOk result (λ f. f.graph.now ≡ graph.now) }
    ensures groups { IfOk result (λ f. (n : ℕ) → groups_in f n ≡ group_in (keys (I.universe interner.now) f.graph.now.graph) n) }
    ensures marks { IfOk result (λ f. f.installable.items ≡ installable_in (shape_of f.graph.now)) }
    ensures memory { IfErr result (λ e. e ≡ Exhausted.Memory) }
{
    let found = groups_of(alloc, interner, graph, groups)?;
    let installable = installable(alloc, graph)?;
    Ok(Findings {
        graph,
        groups: found,
        installable,
    })
}
