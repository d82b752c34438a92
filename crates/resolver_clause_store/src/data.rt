//! The data that a provider answers with.

ghost use Rattle.std.specs.Prelude.{◌≡◌};
ghost use Rattle.resolver_clause_store.specs.declared.data.Exhausted.TheVariants.{Memory};
ghost use Rattle.resolver_clause_store.specs.declared.data.Interrupted.TheVariants.{Exhausted as RanOut};

use crate::ids::{ConditionId, StringId, VersionSetId, VersionSetUnionId};
use std::alloc::{AllocError, AllocFailed};

/// One version set, or a union: any of several.
#[derive(Clone, Copy, Debug, PartialEq, Eq, PartialOrd, Ord, Hash)]
pub enum Requirement {
    Single(VersionSetId),
    Union(VersionSetUnionId),
}

/// A requirement that is active while its condition holds. Without a condition it is always active.
#[derive(Clone, Copy, PartialEq, Eq)]
pub struct ConditionalRequirement {
    pub condition: Option<ConditionId>,
    pub requirement: Requirement,
}

/// How a condition joins two others.
#[derive(Clone, Copy, PartialEq, Eq)]
pub enum LogicalOperator {
    And,
    Or,
}

/// A condition: a candidate of this version set is chosen, or two conditions are joined.
#[derive(Clone, Copy, PartialEq, Eq)]
pub enum Condition {
    Requirement(VersionSetId),
    Binary(LogicalOperator, ConditionId, ConditionId),
}

/// The requirements of a solvable or a problem, and its constraints: version sets that restrict packages without
/// requiring them.
#[derive(Drop)]
pub struct KnownDependencies {
    pub requirements: Vec<ConditionalRequirement>,
    pub constrains: Vec<VersionSetId>,
}

/// The dependencies of a solvable, or the reason why they are unknown.
#[derive(Drop)]
pub enum Dependencies {
    Known(KnownDependencies),
    Unknown(StringId),
}

/// The candidates whose dependencies are cheap to get.
#[derive(Drop)]
pub enum HintDependenciesAvailable<S> {
    None,
    All,
    Some(Vec<S>),
}

/// A package: its candidates, those that are favored, locked or excluded, and a hint about dependencies.
#[derive(Drop)]
pub struct Candidates<S> {
    pub candidates: Vec<S>,
    pub favored: Option<S>,
    pub locked: Option<S>,
    pub hint_dependencies_available: HintDependenciesAvailable<S>,
    pub excluded: Vec<(S, StringId)>,
}

/// A soft requirement: this solvable, or any candidate of this version set.
#[derive(Clone, Copy, PartialEq, Eq)]
pub enum SoftRequirement<Id> {
    Solvable(Id),
    Matching(VersionSetId),
}

/// A requirer: the root, which stands for the problem, or a solvable.
#[derive(Clone, Copy, PartialEq, Eq)]
pub enum By<S> {
    Root,
    Solvable(S),
}

/// What has run out: memory, or ids of some kind.
#[derive(Clone, Copy, Debug, PartialEq, Eq)]
pub enum Exhausted {
    Memory,
    Ids,
}

/// Why a call to the provider was not answered: the provider stopped the search, or something ran out.
#[derive(Debug, Drop)]
pub enum Interrupted<C> {
    Cancelled(C),
    Exhausted(Exhausted),
}

impl From<AllocError> for Exhausted {
    ghost from_gives = { λ _ e. e ≡ Memory };

    fn from(_e: AllocError) -> Exhausted {
        Exhausted::Memory
    }
}

impl<T: Drop> From<AllocFailed<T>> for Exhausted {
    ghost from_gives = { λ _ e. e ≡ Memory };

    fn from(_e: AllocFailed<T>) -> Exhausted {
        Exhausted::Memory
    }
}

impl<C> From<Exhausted> for Interrupted<C> {
    ghost from_gives = { λ e i. i ≡ RanOut e };

    fn from(e: Exhausted) -> Interrupted<C> {
        Interrupted::Exhausted(e)
    }
}

impl<C> From<AllocError> for Interrupted<C> {
    ghost from_gives = { λ _ i. i ≡ RanOut Memory };

    fn from(_e: AllocError) -> Interrupted<C> {
        Interrupted::Exhausted(Exhausted::Memory)
    }
}

impl<C, T: Drop> From<AllocFailed<T>> for Interrupted<C> {
    ghost from_gives = { λ _ i. i ≡ RanOut Memory };

    fn from(_e: AllocFailed<T>) -> Interrupted<C> {
        Interrupted::Exhausted(Exhausted::Memory)
    }
}
