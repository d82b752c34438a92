//! The counts of open candidates, which are remembered for requirements with many.

ghost use Rattle.std.specs.Prelude.{◌<◌, IfSome, length};
ghost use Rattle.resolver_clause_store.specs.Formula.{IsBelow};
ghost use Rattle.resolver_clause_store.specs.Settled.{IsSettled};
ghost use Rattle.resolver_clause_store.specs.TrailView.{variable_count};

use super::packages::Packages;
use crate::decisions::open_count;
use crate::last_open::first_not_false;
use crate::literals::Literal;
use crate::standing::{Standing, standing_of};
use crate::trail::Trail;
use std::alloc::{AllocError, Global};

/// The number of literals of a clause from which on the count of its open candidates is remembered.
const MANY: usize = 32;

/// The candidates of a requirement that have no value, of the version set that is tried next.
#[derive(Clone, Copy)]
pub struct OpenCandidates {
    /// The place of the first one in the clause.
    pub first: usize,
    pub count: usize,
    /// The number of changes of their package when they were counted.
    changes: u64,
}

/// What counts the open candidates of a requirement.
#[derive(Drop)]
pub struct OpenCounter {
    /// The places in its clause after the candidates of each version set, if it is a union.
    pub ends: Vec<usize>,
    /// The open candidates as they were counted last, if there are many and it is no union.
    pub last: Option<OpenCandidates>,
}

/// Returns the open candidates of a requirement, or `None` if there is nothing to decide for it.
pub fn open_candidates(
    trail: &Trail,
    literals: &[Literal],
    ends: &[usize],
) -> Option<OpenCandidates>
    requires below { IsBelow (variable_count trail.now) literals.now }
    requires settled { IsSettled trail.now literals.now }
    ensures { IfSome result (λ found. found.first < length literals.now) }
{
    match standing_of(trail, literals) {
        Standing::Open { first, count } => Some(OpenCandidates {
            first,
            count: open_count(trail, literals, ends, first, count),
            changes: 0,
        }),
        _ => None,
    }
}

impl OpenCounter {
    /// Returns what counts the open candidates of a requirement, if there are many or it is a union.
    pub fn new(
        alloc: Global,
        literals: &[Literal],
        ends: &[usize],
    ) -> Result<Option<Box<Self>>, AllocError> {
        if literals.len() < MANY && ends.is_empty() {
            return Ok(None);
        }
        let ends = ends.to_vec(alloc)?;
        let counter = Box::new(alloc, OpenCounter { ends, last: None })?;
        Ok(Some(counter))
    }

    /// Returns the open candidates, if they are as they were counted last, or if the first of them has become false and
    /// nothing else has changed in their package.
    fn known(
        &self,
        trail: &Trail,
        literals: &[Literal],
        packages: &Packages,
    ) -> Option<OpenCandidates>
        requires { IsBelow (variable_count trail.now) literals.now }
        ensures { IfSome result (λ found. found.first < length literals.now) }
    {
        let last = self.last?;
        let literal = *literals.get(last.first)?;
        let changes = packages.changes_of(literal.variable())?;
        if changes.count == last.changes {
            return Some(last);
        }
        let is_next = changes.count == last.changes.wrapping_add(1);
        if !is_next || changes.last != Some(literal.variable()) || !trail.is_false(literal) {
            return None;
        }
        Some(OpenCandidates {
            first: first_not_false(trail, literals, last.first)?,
            count: last.count.wrapping_sub(1),
            changes: changes.count,
        })
    }

    /// Returns the open candidates. Returns `None` if there is nothing to decide for the requirement.
    #[inline(always)]
    pub fn count(
        &mut self,
        trail: &Trail,
        literals: &[Literal],
        packages: &Packages,
    ) -> Option<OpenCandidates>
        requires below { IsBelow (variable_count trail.now) literals.now }
        requires settled { IsSettled trail.now literals.now }
        ensures { IfSome result (λ found. found.first < length literals.now) }
    {
        let known = self.known(trail, literals, packages);
        if known.is_some() {
            self.last = known;
            return known;
        }
        let mut open = open_candidates(trail, literals, &self.ends)?;
        if self.ends.is_empty()
            && let Some(changes) = packages.changes_of(literals[open.first].variable())
        {
            open.changes = changes.count;
            self.last = Some(open);
        }
        Some(open)
    }
}
