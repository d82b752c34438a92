//! Verdicts: what a message says of a candidate after its versions.

ghost use Rattle.std.specs.Prelude.{◌≡◌, IfOk, IfErr, slice_get};
ghost use Rattle.resolver_report.specs.Causes.{constraint as constraint_in};
ghost use Rattle.resolver_report.specs.Messages.{constraints as constraints_in, once_each as each_once, reasons, verdict_of as verdict_by_edges};
ghost use Rattle.resolver_report.specs.Verdicts.{verdict_view};

use crate::graph::{ConflictCause, ConflictEdge, Edge, NodeId};
use crate::runs::{has_second_instance, is_exclusion};
use itertools::Itertools;
use resolver_clause_store::{Exhausted, VersionSetId};
use std::alloc::Global;

/// What a message says of a candidate after its versions.
#[derive(Drop)]
pub enum Verdict {
    /// It is excluded, for the reason at this node.
    Excluded(NodeId),
    /// Nothing more.
    Alone,
    /// Another version of its package was reported above.
    Second,
    /// It would constrain these version sets, newest first.
    Constrains(Vec<VersionSetId>),
    /// It would require something, which its tree shows.
    Requires,
}

/// The target of the newest exclusion edge.
fn newest_reason<S>(edges: &[Edge<S>]) -> Option<NodeId>
    ensures { result ≡ slice_get (reasons edges.now) 0 }
{
    for edge in edges {
        if is_exclusion(edge) {
            return Some(edge.target);
        }
    }
    None
}

/// The version set of a constraint edge.
fn constraint<S>(weight: &ConflictEdge<S>) -> Option<VersionSetId>
    ensures { result ≡ constraint_in weight.now }
{
    match weight {
        ConflictEdge::Conflict(ConflictCause::Constrains(version_set)) => Some(*version_set),
        _ => None,
    }
}

/// The version sets of the constraint edges, one of each run of equal neighbours.
fn constraints<S: Copy + Drop>(
    alloc: Global,
    edges: &[Edge<S>],
) -> Result<Vec<VersionSetId>, Exhausted>
    ensures value { IfOk result (λ v. v.items ≡ each_once (constraints_in edges.now)) }
    ensures memory { IfErr result (λ e. e ≡ Exhausted.Memory) }
{
    let named = edges.iter().filter_map(|edge| constraint(&edge.weight));
    Ok(named.dedup().collect_vec(alloc)?)
}

/// The verdict on a candidate, given its outgoing edges, newest first.
pub fn verdict_of<S: Copy + Drop>(alloc: Global, edges: &[Edge<S>]) -> Result<Verdict, Exhausted>
    ensures value { IfOk result (λ v. verdict_view v ≡ verdict_by_edges edges.now) }
    ensures memory { IfErr result (λ e. e ≡ Exhausted.Memory) }
{
    if let Some(reason) = newest_reason(edges) {
        return Ok(Verdict::Excluded(reason));
    }
    let [_, ..] = edges else {
        return Ok(Verdict::Alone);
    };
    if has_second_instance(edges) {
        return Ok(Verdict::Second);
    }
    let version_sets = constraints(alloc, edges)?;
    let [_, ..] = version_sets.as_slice() else {
        return Ok(Verdict::Requires);
    };
    Ok(Verdict::Constrains(version_sets))
}
