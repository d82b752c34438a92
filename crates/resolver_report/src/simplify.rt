//! Groups of alike solvables, which a message tells of together.

ghost use Rattle.std.specs.Prelude.{◌≡◌, IfOk, IfErr, OnOk, IfSome};
ghost use Rattle.resolver_clause_store.specs.Laws.{IsIdentity};
ghost use Rattle.resolver_report.specs.Merging.{solvables_at as solvables_at_places};
ghost use Rattle.resolver_report.specs.Shapes.{solvable_at as solvable_at_place};
ghost use Rattle.resolver_report.specs.Simplified.{IsMadeAt, IsNextGroup, IsSimplified, MapsNext};

use crate::classes::{class_at, classes_of};
use crate::graph::{ConflictGraph, ConflictNode, Graph};
use crate::keys::keys_of;
use itertools::Itertools;
use resolver_clause_store::{Exhausted, Interner};
use std::alloc::Global;
use std::collections::HashMap;
use std::hash::Hash;
use std::rc::Rc;

/// Alike solvables that a message tells of together.
#[derive(Drop)]
pub struct MergedConflictNode<S> {
    /// The solvables, in the order of their nodes.
    pub ids: Vec<S>,
}

/// The solvable of a node, if it is one.
pub fn solvable_at<S: Copy>(graph: &Graph<S>, n: usize) -> Option<S>
    ensures { result ≡ solvable_at_place graph.now n }
{
    match graph.nodes().get(n) {
        Some(ConflictNode::Solvable(solvable)) => Some(*solvable),
        _ => None,
    }
}

/// The solvables of nodes, in the order of the nodes.
fn solvables_at<S: Copy + Drop>(
    alloc: Global,
    graph: &Graph<S>,
    nodes: &[usize],
) -> Result<Vec<S>, Exhausted>
    ensures value { IfOk result (λ v. v.items ≡ solvables_at_places graph.now nodes.now) }
    ensures memory { IfErr result (λ e. e ≡ Exhausted.Memory) }
{
    let found = nodes.iter().filter_map(|n| solvable_at(graph, *n));
    Ok(found.collect_vec(alloc)?)
}

/// The group that the solvable of a node is mapped to, if any.
fn made_at<'a, S: Copy + Eq + Hash + Drop>(
    graph: &Graph<S>,
    n: usize,
    groups: &'a HashMap<S, Rc<MergedConflictNode<S>>>,
) -> Option<&'a Rc<MergedConflictNode<S>>>
    ensures { IfSome result (λ group. IsMadeAt S.eq graph.now n groups.now group.now) }
{
    let solvable = solvable_at(graph, n)?;
    groups.get(&solvable)
}

/// The group of a node whose class has at least two members. It is shared with the first of them, if that is mapped
/// already.
fn group_of<S: Copy + Eq + Hash + Drop>(
    alloc: Global,
    graph: &Graph<S>,
    class: &[usize],
    groups: &HashMap<S, Rc<MergedConflictNode<S>>>,
) -> Result<Option<Rc<MergedConflictNode<S>>>, Exhausted>
    ensures value { IfOk result (IsNextGroup S.eq graph.now class.now groups.now) }
    ensures memory { IfErr result (λ e. e ≡ Exhausted.Memory) }
{
    let [first, _, ..] = class else {
        return Ok(None);
    };
    if let Some(group) = made_at(graph, *first, groups) {
        return Ok(Some(group.clone()?));
    }
    let ids = solvables_at(alloc, graph, class)?;
    Ok(Some(Rc::new(alloc, MergedConflictNode { ids })?))
}

/// Maps the solvable of the next node to its group, if it has one.
fn add_group<S: Copy + Eq + Hash + Drop>(
    alloc: Global,
    graph: &Graph<S>,
    class: &[usize],
    n: usize,
    groups: &mut HashMap<S, Rc<MergedConflictNode<S>>>,
) -> Result<(), Exhausted>
    requires identity { IsIdentity S.eq }
    ensures after { OnOk result (MapsNext S.eq graph.now class.now n groups.old groups.new) }
    ensures memory { IfErr result (λ e. e ≡ Exhausted.Memory) }
{
    let _nodes = graph.nodes();
    let Some(solvable) = solvable_at(graph, n) else {
        return Ok(());
    };
    let Some(group) = group_of(alloc, graph, class, groups)? else {
        return Ok(());
    };
    groups.insert(solvable, group)?;
    Ok(())
}

impl<S: Copy + Eq + Hash + Drop> ConflictGraph<S> {
    /// The groups of alike solvables, each mapped from every member.
    ///
    /// Two solvables are alike if their packages have the same name text and their edges say the same: as many edges
    /// in, and as many out, with the same requirement, or none, and the same other end. A group is all solvables that are
    /// alike, at least two. A solvable without a group is not in the map.
    ///
    /// The error is [`Exhausted::Memory`] alone.
    pub fn simplify<I: Interner<SolvableId = S>>(
        &self,
        interner: &I,
    ) -> Result<HashMap<S, Rc<MergedConflictNode<S>>>, Exhausted>
        ensures value { IfOk result (λ m. IsSimplified S.eq (I.universe interner.now) self.now.graph m) }
        ensures memory { IfErr result (λ e. e ≡ Exhausted.Memory) }
    {
        let alloc = self.graph.allocator();
        let keys = keys_of(alloc, interner, &self.graph)?;
        let classes = classes_of(alloc, &keys)?;
        let mut groups = HashMap::new(alloc);
        for n in 0..keys.len() {
            let class = class_at(&keys, &classes, n);
            add_group(alloc, &self.graph, class, n, &mut groups)?;
        }
        Ok(groups)
    }
}
