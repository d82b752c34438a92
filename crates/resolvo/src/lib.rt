//! A package solver with explained conflicts.
#![tactic(auto)]

mod clause_search;
mod clause_state;
mod conflict;
mod contradiction;
#[cfg(test)]
mod encoding_tests;
mod learn;
mod minimal;
mod owners;
mod places;
mod problem;
mod propagator;
mod restarts;
mod rounds;
#[cfg(test)]
mod scanning;
mod solver;
mod sources;
#[cfg(test)]
mod test_provider;
mod tuning;

pub use conflict::Conflict;
pub use problem::{EmptySolvables, Problem};
pub use resolver_clause_store::{
    Candidates, Condition, ConditionId, ConditionalRequirement, Dependencies, DependencyProvider,
    Exhausted, HintDependenciesAvailable, Interner, KnownDependencies, LogicalOperator,
    Requirement, SoftRequirement, StringId, VersionSetId, VersionSetUnionId,
};
pub use resolver_report::{
    By, ConflictCause, ConflictEdge, ConflictGraph, ConflictNode, DisplayUnsat, Edge, Graph,
    Incoming, MergedConflictNode, NodeId, Outgoing, Rule,
};
pub use solver::{Solver, UnsolvableOrCancelled};
