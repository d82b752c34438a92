//! What was declared of each version.

ghost use Rattle.std.specs.Prelude.{◌≡◌, ◌<◌, ◌++◌, ◌∷◌, [], IfOk, OnErr, OnOk, Some, length, slice_index_or, slice_set, true};
ghost use Rattle.resolve.specs.Solvables.{excluded_in, no_needs, unknown_reason, with_constraint, with_requirement};

use super::links::Links;
use resolver_clause_store::{ConditionalRequirement, StringId, VersionSetId};
use std::alloc::{AllocError, Global};
use std::marker::Model;

/// Whether the requirements and constraints of a version are known, and whether it is excluded.
#[derive(Clone, Copy)]
enum State {
    /// They are known. The version is excluded if the field says so.
    Known(bool),
    /// They are unknown for this reason. The version is excluded if the first field says so.
    Unknown(bool, StringId),
}

/// Returns the reason for which the requirements and constraints are unknown, if there is one.
fn reason_of(state: State) -> Option<StringId>
    ensures { result ≡ unknown_reason state }
{
    match state {
        State::Known(_) => None,
        State::Unknown(_, reason) => Some(reason),
    }
}

/// Returns whether the version is excluded.
fn is_excluded(state: State) -> bool
    ensures { result ≡ excluded_in state }
{
    match state {
        State::Known(is_excluded) => is_excluded,
        State::Unknown(is_excluded, _) => is_excluded,
    }
}

/// Returns the state of an excluded version.
fn excluded(state: State) -> State
    ensures reason { unknown_reason result ≡ unknown_reason state }
    ensures excluded { excluded_in result ≡ true }
{
    match state {
        State::Known(_) => State::Known(true),
        State::Unknown(_, reason) => State::Unknown(true, reason),
    }
}

/// What was declared of a version.
#[derive(Clone, Copy)]
struct Row {
    /// The list of its requirements.
    requirements: u32,
    /// The list of its constraints.
    constraints: u32,
    state: State,
}

/// The requirements and constraints of each version, the reason for which they are unknown, if there is one, and
/// whether the version is excluded.
///
/// The lists lie in two tables, in whatever order their items are declared.
#[derive(Drop)]
pub struct Solvables {
    rows: Vec<Row>,
    requirements: Links<ConditionalRequirement>,
    constraints: Links<VersionSetId>,
}

impl Model for Solvables {
    ghost use Rattle.std.specs.Prelude.{All, List, length, map};
    ghost use Rattle.resolve.specs.Solvables.{IsRowWithin, Solvable, solvable_of_row};

    ghost Value = { List Solvable };

    ghost view = { λ it. map (solvable_of_row it.requirements it.constraints) it.rows.items };

    ghost invariant = { λ it. All (IsRowWithin (length it.requirements) (length it.constraints)) it.rows.items };
}

impl Solvables {
    /// Returns a table without versions.
    pub fn new(alloc: Global) -> Self
        ensures { result ≡ [] }
    {
        Solvables {
            rows: Vec::new(alloc),
            requirements: Links::new(alloc),
            constraints: Links::new(alloc),
        }
    }

    /// Returns the number of versions.
    pub fn len(&self) -> usize
        ensures { result ≡ length self.now }
    {
        self.rows.len()
    }

    /// Adds a version without requirements and constraints. An error changes nothing.
    pub fn add(&mut self) -> Result<(), AllocError>
        ensures added { OnOk result (self.new ≡ self.old ++ no_needs ∷ []) }
        ensures unchanged { OnErr result (self.new ≡ self.old) }
    {
        self.rows.push(Row {
            requirements: 0,
            constraints: 0,
            state: State::Known(false),
        })?;
        Ok(())
    }

    /// Adds a requirement to a version. An error changes nothing.
    #[inline(always)]
    pub fn require(
        &mut self,
        place: usize,
        requirement: ConditionalRequirement,
    ) -> Result<(), AllocError>
        requires { place < length self.old }
        ensures added { OnOk result (self.new ≡ slice_set self.old place (with_requirement (slice_index_or self.old place no_needs) requirement)) }
        ensures unchanged { OnErr result (self.new ≡ self.old) }
    {
        let mut row = self.rows[place];
        row.requirements = self.requirements.push(row.requirements, requirement)?;
        self.rows[place] = row;
        Ok(())
    }

    /// Adds a constraint to a version. An error changes nothing.
    pub fn constrain(&mut self, place: usize, constraint: VersionSetId) -> Result<(), AllocError>
        requires { place < length self.old }
        ensures added { OnOk result (self.new ≡ slice_set self.old place (with_constraint (slice_index_or self.old place no_needs) constraint)) }
        ensures unchanged { OnErr result (self.new ≡ self.old) }
    {
        let mut row = self.rows[place];
        row.constraints = self.constraints.push(row.constraints, constraint)?;
        self.rows[place] = row;
        Ok(())
    }

    /// Returns the reason for which the dependencies of a version are unknown, if there is one.
    pub fn unknown(&self, place: usize) -> Option<StringId>
        requires { place < length self.now }
        ensures { result ≡ (slice_index_or self.now place no_needs).unknown }
    {
        reason_of(self.rows[place].state)
    }

    /// Makes the dependencies of a version unknown for a reason.
    pub fn set_unknown(&mut self, place: usize, reason: StringId)
        requires { place < length self.old }
        ensures { self.new ≡ slice_set self.old place (record (slice_index_or self.old place no_needs) { unknown = Some reason }) }
    {
        let mut row = self.rows[place];
        row.state = State::Unknown(is_excluded(row.state), reason);
        self.rows[place] = row;
    }

    /// Returns whether a version is excluded.
    pub fn is_excluded(&self, place: usize) -> bool
        requires { place < length self.now }
        ensures { result ≡ (slice_index_or self.now place no_needs).is_excluded }
    {
        is_excluded(self.rows[place].state)
    }

    /// Marks a version as excluded.
    pub fn exclude(&mut self, place: usize)
        requires { place < length self.old }
        ensures { self.new ≡ slice_set self.old place (record (slice_index_or self.old place no_needs) { is_excluded = true }) }
    {
        let mut row = self.rows[place];
        row.state = excluded(row.state);
        self.rows[place] = row;
    }

    /// Returns the requirements of a version.
    pub fn requirements(
        &self,
        alloc: Global,
        place: usize,
    ) -> Result<Vec<ConditionalRequirement>, AllocError>
        requires { place < length self.now }
        ensures { IfOk result (λ found. found.items ≡ (slice_index_or self.now place no_needs).requirements) }
    {
        let list = self.rows[place].requirements;
        self.requirements.items(alloc, list)
    }

    /// Returns the constraints of a version.
    pub fn constraints(&self, alloc: Global, place: usize) -> Result<Vec<VersionSetId>, AllocError>
        requires { place < length self.now }
        ensures { IfOk result (λ found. found.items ≡ (slice_index_or self.now place no_needs).constraints) }
    {
        let list = self.rows[place].constraints;
        self.constraints.items(alloc, list)
    }
}
