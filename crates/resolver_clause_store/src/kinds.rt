//! What variables stand for, and what clauses state.

use crate::data::{By, Requirement};
use crate::ids::{StringId, VersionSetId};

/// What a variable stands for.
#[derive(Clone, Copy, PartialEq, Eq, Hash)]
pub enum Origin<N, S> {
    Root,
    Solvable(S),
    Helper(Helper<N>),
}

/// What a variable stands for that is neither the root nor a solvable.
#[derive(Clone, Copy, PartialEq, Eq, Hash)]
pub enum Helper<N> {
    /// A bit of the code that distinguishes the instances of a name.
    Bit { name: N, index: u32 },
    /// Implied by each solvable that has the requirement without a condition.
    Gate(Requirement),
    /// Implied by each candidate outside the version set of a constraint.
    Constraint(VersionSetId),
    /// Implied by each candidate in the version set of a condition.
    Condition(VersionSetId),
}

/// What a clause states, in the provider's ids. The names in quotes are those that kinds of clauses have elsewhere.
#[derive(Drop)]
pub enum ClauseKind<N, S> {
    /// The root is true: `InstallRoot`.
    InstallRoot,
    /// If the requirer is true, and so is a candidate of each version set of the disjunct, then one of the
    /// requirement's candidates is: `Requires`. `None` is the gate of the requirement, which has no disjunct.
    Requires {
        parent: Option<By<S>>,
        disjunct: Vec<VersionSetId>,
        requirement: Requirement,
    },
    /// If the candidate is true, the helper has the value: `AnyOf`, `ConstrainsExcluded`, `ForbidMultipleInstances`.
    ///
    /// The codes of two instances of a name differ in a bit, so not both are true.
    Implies {
        candidate: S,
        helper: Helper<N>,
        value: bool,
    },
    /// Not both the requirer and the candidate are true: `Constrains`. `None` is the helper of the constraint:
    /// `ConstrainsParent`.
    Constrains {
        parent: By<S>,
        version_set: VersionSetId,
        candidate: Option<S>,
    },
    /// Another solvable of the package is locked: `Lock`.
    Lock {
        locked: S,
        forbidden: S,
    },
    /// The package excludes the solvable, or its dependencies are unknown: `Excluded`.
    Excluded {
        solvable: S,
        reason: StringId,
    },
}
