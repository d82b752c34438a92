//! The calls on a conflict: its graph, a copy of that, its groups of alike versions, its message, and its minimal form.

use super::solving::request;
use crate::catalog::Catalog;
use crate::ids::{NameId, SolvableId};
use crate::request::Request;
use resolvo::{
    Conflict, ConflictCause, ConflictEdge, ConflictGraph, ConflictNode, Edge, Exhausted,
    MergedConflictNode, NodeId, Problem, Requirement, Rule, Solver, UnsolvableOrCancelled,
    VersionSetId,
};
use std::alloc::Global;
use std::collections::HashMap;
use std::rc::Rc;
use std::test::Fail;

/// What the calls on the conflict of an input give.
#[derive(Clone, Copy)]
pub struct Known {
    pub input: &'static str,
    message: &'static str,
    nodes: usize,
    edges: usize,
    /// Whether a node stands for what is missing.
    is_missing: bool,
    /// The groups of alike versions.
    groups: &'static [[u32; 2]],
    /// The number of rules of the minimal conflict.
    minimal: usize,
}

/// p and q require different versions of r.
pub const CLASH: Known = Known {
    input: "package p=1\npackage p=2\npackage q=1\npackage q=2\npackage r=1\npackage r=2\nrequires p=1 r@1\nrequires p=2 r@1\nrequires q=1 r@2\nrequires q=2 r@2\nrequire p\nrequire q\n",
    message: "The following packages are incompatible
├─ q * can be installed with any of the following options:
│  └─ q 1 | 2 would require
│     └─ r >=2, <3, which can be installed with any of the following options:
│        └─ r 2
└─ p * cannot be installed because there are no viable options:
   └─ p 1 | 2 would require
      └─ r >=1, <2, which cannot be installed because there are no viable options:
         └─ r 1, which conflicts with the versions reported above.
",
    nodes: 7,
    edges: 9,
    is_missing: false,
    groups: &[[0, 1], [2, 3]],
    minimal: 8,
};

/// Both versions of a require a missing package.
pub const MISSING: Known = Known {
    input: "package a=1\npackage a=2\nrequires a=1 x\nrequires a=2 x\nrequire a\n",
    message: "a * cannot be installed because there are no viable options:
└─ a 1 | 2 would require
   └─ x *, for which no candidates were found.
",
    nodes: 4,
    edges: 4,
    is_missing: true,
    groups: &[[0, 1]],
    minimal: 3,
};

/// A call on a conflict.
#[derive(Clone, Copy)]
pub enum Call {
    /// The graph has the known size.
    Graph,
    /// A copy of the graph has the same nodes and edges.
    Copy,
    /// Each known group is shared by its members, and there is no other.
    Groups,
    /// The text of the message is the known one.
    Text,
    /// So is the formatted message.
    Format,
    /// The minimal conflict has the known size, and the conflict is what it was.
    Minimal,
    /// The graph is that of a solvable that forbids itself.
    Itself,
}

type Groups = HashMap<SolvableId, Rc<MergedConflictNode<SolvableId>>>;

type InputConflict = Conflict<NameId, SolvableId>;

fn are_equal(graph: &ConflictGraph<SolvableId>, other: &ConflictGraph<SolvableId>) -> bool {
    (graph.graph.nodes() == other.graph.nodes())
        & (graph.graph.edges() == other.graph.edges())
        & (graph.root_node == other.root_node)
        & (graph.unresolved_node == other.unresolved_node)
}

fn has_size(graph: &ConflictGraph<SolvableId>, known: Known) -> bool {
    (graph.graph.nodes().len() == known.nodes)
        & (graph.graph.edges().len() == known.edges)
        & (graph.root_node == NodeId(0))
        & (graph.unresolved_node.is_some() == known.is_missing)
}

/// Returns whether two solvables have one group, and it lists both and no other.
fn share(groups: &Groups, ids: [u32; 2]) -> bool {
    let [first, second] = ids;
    match (
        groups.get(&SolvableId(first)),
        groups.get(&SolvableId(second)),
    ) {
        (Some(group), Some(other)) => {
            (group.ids.len() == 2)
                & group.ids.contains(&SolvableId(first))
                & group.ids.contains(&SolvableId(second))
                & Rc::ptr_eq(group, other)
        }
        _ => false,
    }
}

fn are_groups(groups: &Groups, known: &[[u32; 2]]) -> bool {
    groups.len() == known.len().saturating_mul(2) && known.iter().all(|ids| share(groups, *ids))
}

/// Returns whether a graph has just the root and the first solvable, which the root requires and which forbids itself.
fn forbids_itself(graph: &ConflictGraph<SolvableId>) -> bool {
    let nodes = [ConflictNode::Root, ConflictNode::Solvable(SolvableId(0))];
    let edges = [
        Edge {
            source: NodeId(0),
            target: NodeId(1),
            weight: ConflictEdge::Requires(Requirement::Single(VersionSetId(1))),
        },
        Edge {
            source: NodeId(1),
            target: NodeId(1),
            weight: ConflictEdge::Conflict(ConflictCause::Constrains(VersionSetId(0))),
        },
    ];
    (graph.graph.nodes() == nodes.as_slice())
        & (graph.graph.edges() == edges.as_slice())
        & (graph.root_node == NodeId(0))
        & graph.unresolved_node.is_none()
}

fn copies(graph: &ConflictGraph<SolvableId>) -> Result<bool, Exhausted> {
    let copy = graph.clone()?;
    Ok(are_equal(&copy, graph))
}

fn formats(
    alloc: Global,
    solver: &Solver<Catalog>,
    conflict: &InputConflict,
    known: Known,
) -> Result<bool, Exhausted> {
    let message = conflict.display_user_friendly(solver)?;
    let formatted = format!(in alloc; "{}", message)?;
    Ok(formatted.as_str() == known.message)
}

fn same_lists(lists: &Vec<Vec<SolvableId>>, others: &Vec<Vec<SolvableId>>) -> bool {
    if lists.len() != others.len() {
        return false;
    }
    for place in 0..lists.len() {
        if lists[place].as_slice() != others[place].as_slice() {
            return false;
        }
    }
    true
}

/// Returns whether two rules are equal. They are of the kinds in the known conflicts.
fn same_rule(rule: &Rule<NameId, SolvableId>, other: &Rule<NameId, SolvableId>) -> bool {
    match (rule, other) {
        (
            Rule::Requires {
                by,
                requirement,
                candidates,
                when,
            },
            Rule::Requires {
                by: other_by,
                requirement: wanted,
                candidates: listed,
                when: lists,
            },
        ) => {
            *by == *other_by
                && *requirement == *wanted
                && candidates.as_slice() == listed.as_slice()
                && same_lists(when, lists)
        }
        (
            Rule::OnePerPackage { name, instance },
            Rule::OnePerPackage {
                name: package,
                instance: marked,
            },
        ) => *name == *package && *instance == *marked,
        _ => false,
    }
}

fn same_rules(rules: &[Rule<NameId, SolvableId>], others: &[Rule<NameId, SolvableId>]) -> bool {
    if rules.len() != others.len() {
        return false;
    }
    for place in 0..rules.len() {
        if !same_rule(&rules[place], &others[place]) {
            return false;
        }
    }
    true
}

fn copied(
    alloc: Global,
    rules: &[Rule<NameId, SolvableId>],
) -> Result<Vec<Rule<NameId, SolvableId>>, Exhausted> {
    let mut copies = Vec::new(alloc);
    for rule in rules {
        copies.push(rule.clone()?)?;
    }
    Ok(copies)
}

/// Returns whether the minimal conflict has this many rules.
fn leaves(conflict: &InputConflict, count: usize) -> Result<bool, Exhausted> {
    Ok(conflict.minimal()?.rules().len() == count)
}

/// The same, if the conflict is what it was afterwards, whether or not the call was refused.
fn leaves_alone(alloc: Global, conflict: &InputConflict, count: usize) -> Result<bool, Exhausted> {
    let before = copied(alloc, conflict.rules())?;
    let left = leaves(conflict, count);
    if same_rules(conflict.rules(), &before) {
        left
    } else {
        Ok(false)
    }
}

/// Makes a call, and returns whether it gives what is known.
fn gives(
    alloc: Global,
    solver: &Solver<Catalog>,
    conflict: &InputConflict,
    known: Known,
    call: Call,
) -> Result<bool, Exhausted> {
    match call {
        Call::Graph => Ok(has_size(&conflict.graph(solver)?, known)),
        Call::Copy => copies(&conflict.graph(solver)?),
        Call::Groups => {
            let groups = conflict.graph(solver)?.simplify(solver.provider())?;
            Ok(are_groups(&groups, known.groups))
        }
        Call::Text => {
            let text = conflict.display_user_friendly(solver)?.text()?;
            Ok(text.as_str() == known.message)
        }
        Call::Format => formats(alloc, solver, conflict, known),
        Call::Minimal => leaves_alone(alloc, conflict, known.minimal),
        Call::Itself => Ok(forbids_itself(&conflict.graph(solver)?)),
    }
}

/// The result of a call that is made again if it was refused.
#[derive(Clone, Copy, PartialEq)]
pub enum Made {
    /// The first call gave what is known.
    AtOnce,
    /// The first call was refused, and the second one gave what is known.
    Again,
    Wrong,
}

fn makes(
    alloc: Global,
    solver: &Solver<Catalog>,
    conflict: &InputConflict,
    known: Known,
    call: Call,
) -> Made {
    match gives(alloc, solver, conflict, known, call) {
        Ok(true) => return Made::AtOnce,
        Ok(false) => return Made::Wrong,
        Err(_) => (),
    }
    match gives(alloc, solver, conflict, known, call) {
        Ok(true) => Made::Again,
        _ => Made::Wrong,
    }
}

/// Makes a call on a solver's answer, which has to be a conflict.
fn makes_on(
    alloc: Global,
    solver: &Solver<Catalog>,
    answered: &Result<Vec<SolvableId>, UnsolvableOrCancelled<Catalog>>,
    known: Known,
    call: Call,
) -> Result<Made, Exhausted> {
    match answered {
        Err(UnsolvableOrCancelled::Unsolvable(conflict)) => {
            Ok(makes(alloc, solver, conflict, known, call))
        }
        Err(UnsolvableOrCancelled::Exhausted(e)) => Err(*e),
        Err(UnsolvableOrCancelled::Cancelled(value)) => match *value {},
        Ok(_) => Ok(Made::Wrong),
    }
}

/// The same for a request.
fn makes_for(alloc: Global, request: Request, known: Known, call: Call) -> Result<Made, Exhausted> {
    let problem = Problem::new()
        .requirements(request.requirements)
        .constraints(request.constraints)
        .soft_list(request.soft_requirements);
    let mut solver = Solver::new(alloc, request.catalog);
    let answered = solver.solve(problem);
    let made = makes_on(alloc, &solver, &answered, known, call);
    drop(answered);
    drop(solver);
    made
}

/// Makes a call on the conflict of an input.
pub fn make(alloc: Global, known: Known, call: Call) -> Result<Made, Fail> {
    let request = request(alloc, known.input)?;
    Ok(makes_for(alloc, request, known, call)?)
}

#[test]
fn a_constraint_on_its_own_package_is_an_edge_to_itself(rt: HostRuntime) -> Result<(), Fail> {
    let known = Known {
        input: "package a=1\nconstrains a=1 a@2..3\nrequire a@1\n",
        ..CLASH
    };
    assert!(rt; make(rt.alloc(), known, Call::Itself)? == Made::AtOnce);
    Ok(())
}

#[test]
fn versions_that_need_the_same_missing_package_share_a_group(rt: HostRuntime) -> Result<(), Fail> {
    assert!(rt; make(rt.alloc(), MISSING, Call::Groups)? == Made::AtOnce);
    Ok(())
}
