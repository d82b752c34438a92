//! The rules of a conflict, which sets of solvables obey or break.

ghost use Rattle.std.specs.Prelude.{◌≡◌, IfErr, IfOk};
ghost use Rattle.resolver_clause_store.specs.Statements.{StatesTheSame};
ghost use Rattle.resolver_clause_store.specs.NumberedLists.{items_of};

use crate::data::{By, Exhausted, Requirement};
use crate::ids::{StringId, VersionSetId};
use std::alloc::AllocError;

/// A rule that a set of solvables obeys or breaks.
///
/// The root is always present; a solvable is present if it is in the set. The fields `requirement`, `version_set`,
/// `locked` and `reason` say where the rule comes from. They play no part in whether a set obeys it.
#[derive(Drop)]
pub enum Rule<N, S> {
    /// If `by` is present and each list of `when` has a member in the set, then one of `candidates` is in the set.
    ///
    /// An empty `when` means that the requirement has no condition. No set can meet a requirement without candidates.
    Requires {
        by: By<S>,
        requirement: Requirement,
        candidates: Vec<S>,
        when: Vec<Vec<S>>,
    },
    /// `by` and `candidate`, which is outside the version set, are not both present.
    ///
    /// If `by` is the root: `candidate` is not in the set.
    Constrains {
        by: By<S>,
        version_set: VersionSetId,
        candidate: S,
    },
    /// `forbidden` is not in the set, because its package is locked to `locked`.
    ///
    /// The locked solvable itself may be in the set or not.
    Lock {
        locked: S,
        forbidden: S,
    },
    /// `solvable` is not in the set, for this reason.
    Excluded {
        solvable: S,
        reason: StringId,
    },
    /// Lists an instance of a package. The set has at most one of the instances that the rules list for one name.
    ///
    /// A single instance forbids nothing, and listing an instance twice means the same as listing it once.
    OnePerPackage {
        name: N,
        instance: S,
    },
}

/// Copies each list, in order.
fn copy_lists<S: Copy + Drop>(lists: &Vec<Vec<S>>) -> Result<Vec<Vec<S>>, AllocError>
    ensures { IfOk result (λ copies. items_of lists.now.items ≡ items_of copies.items) }
{
    let alloc = *lists.allocator();
    let mut copies = Vec::new(alloc);
    for list in lists {
        let copy = Vec::from_slice(alloc, list)?;
        copies.push(copy)?;
    }
    Ok(copies)
}

impl<N: Copy, S: Copy + Drop> Rule<N, S> {
    /// Returns a copy that states the same.
    ///
    /// The error is always [`Exhausted::Memory`].
    pub fn clone(&self) -> Result<Rule<N, S>, Exhausted>
        ensures same { IfOk result (λ copy. StatesTheSame self.now copy) }
        ensures memory { IfErr result (λ e. e ≡ Exhausted.Memory) }
    {
        match self {
            Rule::Requires {
                by,
                requirement,
                candidates,
                when,
            } => {
                let listed = Vec::from_slice(*candidates.allocator(), candidates)?;
                let lists = copy_lists(when)?;
                Ok(Rule::Requires {
                    by: *by,
                    requirement: *requirement,
                    candidates: listed,
                    when: lists,
                })
            }
            Rule::Constrains {
                by,
                version_set,
                candidate,
            } => Ok(Rule::Constrains {
                by: *by,
                version_set: *version_set,
                candidate: *candidate,
            }),
            Rule::Lock { locked, forbidden } => Ok(Rule::Lock {
                locked: *locked,
                forbidden: *forbidden,
            }),
            Rule::Excluded { solvable, reason } => Ok(Rule::Excluded {
                solvable: *solvable,
                reason: *reason,
            }),
            Rule::OnePerPackage { name, instance } => Ok(Rule::OnePerPackage {
                name: *name,
                instance: *instance,
            }),
        }
    }
}
