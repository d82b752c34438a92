//! Problems, and how they are built.

ghost use Rattle.std.specs.Prelude.{◌≡◌, None, Some, []};
ghost use Rattle.std.specs.Iterator.{at_most};

use resolver_clause_store::{ConditionalRequirement, SoftRequirement, VersionSetId};
use std::marker::PhantomData;

/// An iterator over no soft requirements.
#[derive(Drop)]
pub struct EmptySolvables<Id>(pub PhantomData<Id>);

impl<Id> Default for EmptySolvables<Id> {
    fn default() -> Self {
        EmptySolvables(PhantomData)
    }
}

impl<Id> Iterator for EmptySolvables<Id> {
    type Item = Id;

    ghost next_gives = { λ s r t. (r ≡ None) × (s ≡ t) };

    ghost remaining = { λ s. at_most 0 };

    fn next(&mut self) -> Option<Id> {
        None
    }
}

/// The demands on an answer. A part that is not set demands nothing.
///
/// `Id` names solvables. Soft requirements have their turns in order and are taken if they fit: first the solvables of
/// the iterator `S`, then the list, which may mix solvables and version sets.
#[derive(Drop)]
pub struct Problem<Id, S> {
    pub(crate) requirements: Option<Vec<ConditionalRequirement>>,
    pub(crate) constraints: Option<Vec<VersionSetId>>,
    pub(crate) soft_list: Option<Vec<SoftRequirement<Id>>>,
    pub(crate) soft_requirements: Option<S>,
}

impl<Id> Problem<Id, EmptySolvables<Id>> {
    ghost use Rattle.resolvo.specs.Problems.{list_in, root_demands, soft_in};

    /// Returns a problem without requirements, constraints and soft requirements.
    pub fn new() -> Self
        ensures demands { root_demands result ≡ record { requirements = []; constraints = [] } }
        ensures soft { soft_in result ≡ None }
        ensures list { list_in result ≡ [] }
    {
        Problem {
            requirements: None,
            constraints: None,
            soft_list: None,
            soft_requirements: None,
        }
    }
}

impl<Id> Default for Problem<Id, EmptySolvables<Id>> {
    ghost use Rattle.resolvo.specs.Problems.{list_in, root_demands, soft_in};

    /// Returns the same as `new`.
    fn default() -> Self
        ensures demands { root_demands result ≡ record { requirements = []; constraints = [] } }
        ensures soft { soft_in result ≡ None }
        ensures list { list_in result ≡ [] }
    {
        Problem::new()
    }
}

impl<Id: Drop, S: Drop> Problem<Id, S> {
    ghost use Rattle.resolvo.specs.Problems.{list_in, root_demands, soft_in};

    /// Sets the requirements, in place of earlier ones.
    pub fn requirements(self, requirements: Vec<ConditionalRequirement>) -> Self
        ensures demands { root_demands result ≡ record (root_demands self) { requirements = requirements.items } }
        ensures soft { soft_in result ≡ soft_in self }
        ensures list { list_in result ≡ list_in self }
    {
        Problem {
            requirements: Some(requirements),
            ..self
        }
    }

    /// Sets the constraints, in place of earlier ones.
    pub fn constraints(self, constraints: Vec<VersionSetId>) -> Self
        ensures demands { root_demands result ≡ record (root_demands self) { constraints = constraints.items } }
        ensures soft { soft_in result ≡ soft_in self }
        ensures list { list_in result ≡ list_in self }
    {
        Problem {
            constraints: Some(constraints),
            ..self
        }
    }

    /// Sets the soft requirements that are solvables, in place of earlier ones. The list stays as it is.
    ///
    /// They have their turns in this order, and each is taken if it fits what was taken before it.
    pub fn soft_requirements<I: Iterator<Item = Id>>(self, soft_requirements: I) -> Problem<Id, I>
        ensures demands { root_demands result ≡ root_demands self }
        ensures soft { soft_in result ≡ Some soft_requirements }
        ensures list { list_in result ≡ list_in self }
    {
        Problem {
            requirements: self.requirements,
            constraints: self.constraints,
            soft_list: self.soft_list,
            soft_requirements: Some(soft_requirements),
        }
    }

    /// Sets the list of soft requirements, in place of an earlier one. Its turns come after those of
    /// `soft_requirements`.
    ///
    /// Of a version set, the first candidate that fits is taken, unless a candidate is chosen already.
    pub fn soft_list(self, soft_list: Vec<SoftRequirement<Id>>) -> Self
        ensures demands { root_demands result ≡ root_demands self }
        ensures soft { soft_in result ≡ soft_in self }
        ensures list { list_in result ≡ soft_list.items }
    {
        Problem {
            soft_list: Some(soft_list),
            ..self
        }
    }

    /// Returns the requirements, none if they are not set.
    pub(crate) fn root_requirements(&self) -> &[ConditionalRequirement]
        ensures { result.now ≡ (root_demands self.now).requirements }
    {
        match &self.requirements {
            None => &[],
            Some(requirements) => requirements,
        }
    }

    /// Returns the constraints, none if they are not set.
    pub(crate) fn root_constraints(&self) -> &[VersionSetId]
        ensures { result.now ≡ (root_demands self.now).constraints }
    {
        match &self.constraints {
            None => &[],
            Some(constraints) => constraints,
        }
    }

    /// Returns the list of soft requirements, empty if it is not set.
    pub(crate) fn listed_soft_requirements(&self) -> &[SoftRequirement<Id>]
        ensures { result.now ≡ list_in self.now }
    {
        match &self.soft_list {
            None => &[],
            Some(list) => list,
        }
    }
}
