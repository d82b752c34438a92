//! The order in which active requirements are decided.

mod open_counts;
mod order;
mod packages;

ghost use Rattle.std.specs.Prelude.{◌<◌, All, IfOk, length};
ghost use Rattle.resolver_clause_store.specs.Formula.{AreBelow};
ghost use Rattle.resolver_clause_store.specs.Settled.{AllSettled};
ghost use Rattle.resolver_clause_store.specs.TrailView.{variable_count};
ghost use Rattle.resolver_clause_store.specs.declared.clauses.StoredRequirement.{StoredRequirement};

use crate::clauses::{Clauses, StoredRequirement, clause};
use crate::literals::{Literal, Variable};
use crate::numbers::narrow;
use crate::owner::Owner;
use crate::scores::Activity;
use crate::trail::Trail;
use open_counts::{OpenCounter, open_candidates};
use order::{Order, Rank};
use packages::Packages;
use std::alloc::{AllocError, Global};

/// What is known of a requirement.
#[derive(Drop)]
pub struct Entry {
    /// Its place among the active requirements, if it is active.
    place: Option<usize>,
    /// The number of times that it was ranked, counted round 2^32.
    edition: u32,
    is_changed: bool,
    /// There is none if the requirement has few candidates and is no union.
    counter: Option<Box<OpenCounter>>,
}

/// Returns the place of a requirement, if it is active and the rank is its latest one.
fn place_by_rank(entries: &[Entry], rank: &Rank) -> Option<usize> {
    let entry = entries.get(rank.requirement as usize)?;
    if entry.edition == rank.edition {
        return entry.place;
    }
    None
}

/// Notes that a requirement has to be ranked again, if it is active.
fn change(
    entries: &mut Vec<Entry>,
    changed: &mut Vec<u32>,
    requirement: u32,
) -> Result<(), AllocError> {
    if let Some(entry) = entries.get_mut(requirement as usize)
        && !entry.is_changed
        && entry.place.is_some()
    {
        changed.push(requirement)?;
        entry.is_changed = true;
    }
    Ok(())
}

/// The ranks of active requirements.
///
/// A requirement is ranked again when a variable of one of its packages gets or loses its value, and when the score of
/// such a package grows. If its candidates became false one after another, they need not be counted again for that.
/// Nothing is proved of the order, and nothing depends on it: the queue looks at each requirement before it is decided.
#[derive(Drop)]
pub struct Ranks {
    packages: Packages,
    order: Order,
    entries: Vec<Entry>,
    /// The requirements that have to be ranked again.
    changed: Vec<u32>,
}

impl Ranks {
    /// Returns no ranks.
    pub fn new(alloc: Global, activity: Activity) -> Self {
        Ranks {
            packages: Packages::new(alloc),
            order: Order::new(alloc, activity),
            entries: Vec::new(alloc),
            changed: Vec::new(alloc),
        }
    }

    /// Adds the packages of the next variables.
    pub fn learn_owners(&mut self, owners: &[Owner]) -> Result<(), AllocError> {
        self.packages.owners.extend_from_slice(owners)?;
        Ok(())
    }

    /// Appends the requirement of a clause.
    ///
    /// `ends` has the place after the candidates of each version set of a union.
    pub fn add(&mut self, literals: &[Literal], ends: &[usize]) -> Result<(), AllocError> {
        let requirement = narrow(self.entries.len())?;
        let counter = OpenCounter::new(*self.entries.allocator(), literals, ends)?;
        self.entries.push(Entry {
            place: None,
            edition: 0,
            is_changed: false,
            counter,
        })?;
        self.packages.add(requirement, literals)?;
        Ok(())
    }

    /// Notes that a variable got or lost its value.
    #[inline(always)]
    pub fn touch(&mut self, variable: Variable) -> Result<(), AllocError> {
        self.packages.change(variable)?;
        Ok(())
    }

    /// Raises the score of a variable's package.
    fn raise(&mut self, variable: Variable) -> Result<(), AllocError> {
        if let Some(package) = self.packages.owner_of(variable).number() {
            self.order.raise(package)?;
            self.packages.touch(package)?;
        }
        Ok(())
    }

    /// Raises the score of the package of each solvable in a learnt clause, and then decays all scores.
    pub fn learn(&mut self, literals: &[Literal]) -> Result<(), AllocError> {
        'literals: for literal in literals {
            self.raise(literal.variable())?;
        }
        self.order.decay();
        Ok(())
    }

    /// Returns the score of a variable's package, 0 if that is not known.
    pub fn score_of(&self, variable: Variable) -> u64 {
        self.order.score_of(self.packages.owner_of(variable))
    }

    /// Notes the place of a requirement.
    fn put(&mut self, requirement: u32, place: Option<usize>) {
        if let Some(entry) = self.entries.get_mut(requirement as usize) {
            entry.place = place;
        }
    }

    /// Notes the places of the active requirements from a place on.
    pub fn enter(&mut self, active: &[u32], from: usize) -> Result<(), AllocError> {
        'places: for place in from..active.len() {
            self.put(active[place], Some(place));
            change(&mut self.entries, &mut self.changed, active[place])?;
        }
        Ok(())
    }

    /// Notes that a requirement left a place, which another active requirement may now have. That one came from a later
    /// place.
    pub fn leave(&mut self, requirement: u32, active: &[u32], place: usize) {
        self.put(requirement, None);
        if let Some(moved) = active.get(place) {
            self.put(*moved, Some(place));
        }
    }

    /// Notes that the active requirements of a touched package have to be ranked again.
    fn spread_next(&mut self) -> Result<(), AllocError> {
        let Some(package) = self.packages.next_touched() else {
            return Ok(());
        };
        'requirements: for requirement in self.packages.requirements.at(package) {
            change(&mut self.entries, &mut self.changed, *requirement)?;
        }
        Ok(())
    }

    /// Notes that the active requirements of all touched packages have to be ranked again.
    fn spread(&mut self) -> Result<(), AllocError> {
        'packages: for _ in 0..self.packages.touched.len() {
            self.spread_next()?;
        }
        Ok(())
    }

    /// Ranks a changed requirement again. If it is active and there is nothing to decide for it, its place is returned.
    fn rank_next(
        &mut self,
        trail: &Trail,
        table: &Clauses,
        requirements: &[StoredRequirement],
    ) -> Result<Option<usize>, AllocError>
        requires below { AreBelow (variable_count trail.now) table.now }
        requires settled { AllSettled trail.now table.now }
        requires inside { All (λ (requirement : StoredRequirement). requirement.number < length table.now) requirements.now }
    {
        let Some(requirement) = self.changed.pop() else {
            return Ok(None);
        };
        let index = requirement as usize;
        if index >= self.entries.len() || index >= requirements.len() {
            return Ok(None);
        }
        let entry = &mut self.entries[index];
        entry.is_changed = false;
        if entry.place.is_none() {
            return Ok(None);
        }
        let literals = clause(table, requirements[index].number as usize);
        let open = match &mut entry.counter {
            Some(counter) => counter.count(trail, literals, &self.packages),
            None => open_candidates(trail, literals, &[]),
        };
        let Some(open) = open else {
            return Ok(entry.place);
        };
        entry.edition = entry.edition.wrapping_add(1);
        self.order.add(Rank {
            is_later: !requirements[index].of_root,
            count: open.count,
            requirement,
            owner: self.packages.owner_of(literals[open.first].variable()),
            edition: entry.edition,
        })?;
        Ok(None)
    }

    /// Returns the place of the active requirement to look at next: one for which there is nothing to decide, or else
    /// the first one by rank. A single one needs no rank.
    pub fn best(
        &mut self,
        active: &[u32],
        trail: &Trail,
        table: &Clauses,
        requirements: &[StoredRequirement],
    ) -> Result<usize, AllocError>
        requires below { AreBelow (variable_count trail.now) table.now }
        requires settled { AllSettled trail.now table.now }
        requires inside { All (λ (requirement : StoredRequirement). requirement.number < length table.now) requirements.now }
        requires some { 0 < length active.now }
        ensures { IfOk result (λ place. place < length active.now) }
    {
        if active.len() == 1 {
            return Ok(0);
        }
        if self.order.forget(active.len()) {
            self.enter(active, 0)?;
        }
        self.spread()?;
        'changed: for _ in 0..self.changed.len() {
            if let Some(place) = self.rank_next(trail, table, requirements)?
                && place < active.len()
            {
                return Ok(place);
            }
        }
        let place = self.order.first_place(&self.entries)?;
        Ok(place.min(active.len() - 1))
    }
}
