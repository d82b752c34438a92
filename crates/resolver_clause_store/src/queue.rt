//! The queue of requirements to decide.

ghost use Rattle.std.specs.Prelude.{◌<◌, ◌≡◌, ◌≤◌, ◌+◌, [], All, IfNone, IfOk, IfSome, List, OnOk, Vec, false, length, min, true};
ghost use Rattle.std.specs.Option.{option_map_or};
ghost use Rattle.std.specs.declared.alloc.Global.{Global};
ghost use Rattle.resolver_clause_store.specs.Formula.{AreBelow, IsBelow, clause_at};
ghost use Rattle.resolver_clause_store.specs.Outcomes.{IsMet};
ghost use Rattle.resolver_clause_store.specs.TrailView.{KeepsPlaces, length_of, slot_of, variable_count};
ghost use Rattle.resolver_clause_store.specs.Literals.{Literal};
ghost use Rattle.resolver_clause_store.specs.declared.clauses.StoredRequirement.{StoredRequirement};
ghost use Rattle.resolver_clause_store.specs.declared.trail.Slot.{Slot};
ghost use Rattle.resolver_clause_store.specs.declared.trail.Trail.{Trail};
ghost use Rattle.resolver_clause_store.specs.Decisions.{IsChoice, IsFirstUnassigned};
ghost use Rattle.resolver_clause_store.specs.Settled.{AllSettled};
ghost use Rattle.resolver_clause_store.specs.NumberedLists.{list_of};

use crate::clauses::{Clauses, StoredRequirement, clause};
use crate::decisions::Choice;
use crate::last_open::{LastOpen, still_open, unless_cut};
use crate::literals::{Literal, Variable};
use crate::numbered_lists::NumberedLists;
use crate::numbers::narrow;
use crate::owner::Owner;
use crate::ranks::Ranks;
use crate::scores::Activity;
use crate::standing::{Standing, standing_of};
use crate::trail::Trail;
use std::alloc::{AllocError, Global};

/// Returns whether a variable is true.
fn is_true(trail: &Trail, variable: Variable) -> bool
    requires { variable < variable_count trail.now }
    ensures { result ≡ option_map_or (λ (slot : Slot). slot.value) (slot_of trail.now variable) false }
{
    match trail.slot(variable) {
        Some(slot) => slot.value,
        None => false,
    }
}

/// The requirements that may be left to decide, and the others, which are put aside.
///
/// A requirement is put aside while a variable that it depends on is not true, or while one of its candidates is true.
/// The queue follows a trail: when a variable becomes true or loses its value, the requirements that are put aside for
/// it come back. So the requirements that are not put aside are all that may be left to decide.
#[derive(Drop)]
pub struct DecideQueue {
    /// The requirements that are not put aside.
    active: Vec<u32>,
    /// The requirements that are put aside for a variable that is not true, by that variable.
    inactive: NumberedLists<u32>,
    /// The requirements that are put aside for a candidate that is true, by that candidate.
    met: NumberedLists<u32>,
    /// The variables of the trail's entries that were followed.
    followed: Vec<Variable>,
    /// The number of first entries that have not changed since they were followed.
    kept: usize,
    /// The order of the active requirements.
    ranks: Ranks,
    /// The requirement that was last found left to decide, while the trail has the entries that it had then.
    last: Option<LastOpen>,
}

impl DecideQueue {
    ghost use Rattle.resolver_clause_store.specs.Queues.{AllMet, FollowsCut, IsFollowed, IsFollowing, IsOpenIfLast, IsQueued};
    ghost use Rattle.resolver_clause_store.specs.Queues.{QueuesNext, StaysQueued, StaysQueuedAt, StaysQueuedOn};

    /// Returns a queue without requirements, which has followed no entry.
    pub fn new(alloc: Global, activity: Activity) -> Self
        ensures { (trail : Trail) (table : List (List Literal)) → IsQueued result trail table [] }
    {
        DecideQueue {
            active: Vec::new(alloc),
            inactive: NumberedLists::new(alloc),
            met: NumberedLists::new(alloc),
            followed: Vec::new(alloc),
            kept: 0,
            ranks: Ranks::new(alloc, activity),
            last: None,
        }
    }

    /// Appends the requirement of a clause.
    ///
    /// `ends` has the place after the candidates of each version set of a union.
    pub fn add(
        &mut self,
        index: usize,
        literals: &[Literal],
        ends: &[usize],
    ) -> Result<(), AllocError>
        ensures { OnOk result (QueuesNext index self.old self.new) }
    {
        let from = self.active.len();
        let number = narrow(index)?;
        self.active.push(number)?;
        self.ranks.add(literals, ends)?;
        self.ranks.enter(self.active.as_slice(), from)?;
        Ok(())
    }

    /// Adds the packages of the next variables.
    pub fn learn_owners(&mut self, owners: &[Owner]) -> Result<(), AllocError>
        ensures { OnOk result (StaysQueued self.old self.new) }
    {
        self.ranks.learn_owners(owners)?;
        Ok(())
    }

    /// Raises the scores of a learnt clause's packages, and decays all scores.
    pub fn learn(&mut self, literals: &[Literal]) -> Result<(), AllocError>
        ensures { OnOk result (StaysQueued self.old self.new) }
    {
        self.ranks.learn(literals)?;
        Ok(())
    }

    /// Returns the score of a variable's package, 0 if it has none.
    pub fn score_of(&self, variable: Variable) -> u64 {
        self.ranks.score_of(variable)
    }

    /// Notes that at most the first `count` entries of the trail are unchanged.
    pub fn cut(&mut self, count: usize)
        ensures { FollowsCut (min self.old.kept count) self.old self.new }
    {
        self.kept = self.kept.min(count);
        self.last = unless_cut(self.last, self.kept);
    }

    /// Forgets the last followed entry, which has changed, and takes back the requirements that its variable met.
    fn forget_last(&mut self) -> Result<(), AllocError>
        requires { self.old.kept < length self.old.followed.items }
        ensures queued { OnOk result (StaysQueued self.old self.new) }
        ensures kept { OnOk result (self.new.kept ≡ self.old.kept) }
        ensures fewer { OnOk result (length self.new.followed.items + 1 ≡ length self.old.followed.items) }
    {
        let variable = self.followed[self.followed.len() - 1];
        self.met.take_all(variable.index(), &mut self.active)?;
        self.followed.pop();
        self.ranks.touch(variable)?;
        Ok(())
    }

    /// Forgets the followed entries that have changed.
    fn forget(&mut self) -> Result<(), AllocError>
        requires { self.old.kept ≤ length self.old.followed.items }
        ensures queued { OnOk result (StaysQueued self.old self.new) }
        ensures kept { OnOk result (self.new.kept ≡ self.old.kept) }
        ensures all { OnOk result (length self.new.followed.items ≡ self.new.kept) }
    {
        'places: while self.followed.len() > self.kept {
            self.forget_last()?;
        }
        Ok(())
    }

    /// Follows the next entry of the trail.
    fn follow_place(&mut self, trail: &Trail) -> Result<(), AllocError>
        requires all { length self.old.followed.items ≡ self.old.kept }
        requires inside { self.old.kept < length_of trail.now }
        ensures queued { OnOk result (StaysQueuedOn trail.now self.old self.new) }
        ensures kept { OnOk result (self.new.kept ≡ self.old.kept + 1) }
        ensures all { OnOk result (length self.new.followed.items ≡ self.new.kept) }
    {
        let variable = trail.variable_at(self.kept);
        self.followed.push(variable)?;
        self.kept += 1;
        self.ranks.touch(variable)?;
        if is_true(trail, variable) {
            self.inactive.take_all(variable.index(), &mut self.active)?;
            return Ok(());
        }
        Ok(())
    }

    /// Follows the whole trail.
    fn follow(&mut self, trail: &Trail) -> Result<(), AllocError>
        requires { IsFollowing self.old trail.now }
        ensures queued { OnOk result (StaysQueuedOn trail.now self.old self.new) }
        ensures followed { OnOk result (IsFollowed self.new trail.now) }
    {
        let from = self.active.len();
        self.forget()?;
        'places: while self.kept < trail.len() {
            self.follow_place(trail)?;
        }
        self.ranks.enter(self.active.as_slice(), from)?;
        Ok(())
    }

    /// Returns the place of the first candidate of a requirement that is not false, if the requirement was the last one found left
    /// to decide, and is known to be so still.
    fn known_first(&self, trail: &Trail, literals: &[Literal], requirement: u32) -> Option<usize>
        requires { IsBelow (variable_count trail.now) literals.now }
        ensures { IfSome result (λ first. IsOpenIfLast self.now trail.now literals.now requirement → IsFirstUnassigned trail.now literals.now first) }
    {
        match &self.last {
            Some(last) => {
                if last.requirement == requirement {
                    return still_open(trail, literals, last);
                }
                None
            }
            None => None,
        }
    }

    /// Notes that a requirement is left to decide, and returns the choice of its candidate at a place.
    fn choose(&mut self, trail: &Trail, requirement: u32, number: u32, first: usize) -> Choice
        ensures choice { (result.number ≡ number) × (result.place ≡ first) }
        ensures followed { IsFollowed self.old trail.now → IsFollowed self.new trail.now }
        ensures queued { StaysQueuedAt trail.now requirement first self.old self.new }
    {
        self.last = Some(LastOpen {
            requirement,
            first,
            count: trail.len(),
        });
        Choice {
            number: number as usize,
            place: first,
        }
    }

    /// Looks at the active requirement at a place. Returns its candidate if it is to be decided, and puts it aside
    /// otherwise.
    fn consider(
        &mut self,
        trail: &Trail,
        table: &Clauses,
        requirements: &[StoredRequirement],
        place: usize,
    ) -> Result<Option<Choice>, AllocError>
        requires below { AreBelow (variable_count trail.now) table.now }
        requires settled { AllSettled trail.now table.now }
        requires inside { All (λ (requirement : StoredRequirement). requirement.number < length table.now) requirements.now }
        requires queued { IsQueued self.old trail.now table.now requirements.now }
        requires followed { IsFollowed self.old trail.now }
        requires listed { place < length self.old.active.items }
        ensures queued { OnOk result (IsQueued self.new trail.now table.now requirements.now) }
        ensures followed { OnOk result (IsFollowed self.new trail.now) }
        ensures fewer { IfOk result (λ answer. IfNone answer (length self.new.active.items < length self.old.active.items)) }
        ensures some { IfOk result (λ answer. IfSome answer (IsChoice trail.now table.now requirements.now)) }
    {
        let number = self.active[place];
        let index = number as usize;
        if index >= requirements.len() {
            self.active.swap_remove(place);
            self.ranks.leave(number, self.active.as_slice(), place);
            return Ok(None);
        }
        let requirement = &requirements[index];
        let clause_number = requirement.number;
        let literals = clause(table, clause_number as usize);
        if let Some(first) = self.known_first(trail, literals, number) {
            return Ok(Some(self.choose(trail, number, clause_number, first)));
        }
        match standing_of(trail, literals) {
            Standing::Inactive(variable) => {
                self.inactive.add(variable.index(), number)?;
                self.active.swap_remove(place);
                self.ranks.leave(number, self.active.as_slice(), place);
                Ok(None)
            }
            Standing::Met(variable) => {
                self.met.add(variable.index(), number)?;
                self.active.swap_remove(place);
                self.ranks.leave(number, self.active.as_slice(), place);
                Ok(None)
            }
            Standing::Open { first, count: _ } => {
                Ok(Some(self.choose(trail, number, clause_number, first)))
            }
        }
    }

    /// Returns the requirement that is decided next, with its candidate, and `None` if no requirement is left to
    /// decide.
    pub fn next(
        &mut self,
        trail: &Trail,
        table: &Clauses,
        requirements: &[StoredRequirement],
    ) -> Result<Option<Choice>, AllocError>
        requires below { AreBelow (variable_count trail.now) table.now }
        requires settled { AllSettled trail.now table.now }
        requires inside { All (λ (requirement : StoredRequirement). requirement.number < length table.now) requirements.now }
        requires queued { IsQueued self.old trail.now table.now requirements.now }
        ensures none { IfOk result (λ answer. IfNone answer (AllMet trail.now table.now requirements.now)) }
        ensures some { IfOk result (λ answer. IfSome answer (IsChoice trail.now table.now requirements.now)) }
        ensures queued { OnOk result (IsQueued self.new trail.now table.now requirements.now) }
    {
        self.follow(trail)?;
        'active: while !self.active.is_empty() {
            let place = self
                .ranks
                .best(self.active.as_slice(), trail, table, requirements)?;
            match self.consider(trail, table, requirements, place)? {
                Some(choice) => return Ok(Some(choice)),
                None => (),
            }
        }
        Ok(None)
    }
}
