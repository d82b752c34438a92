//! Attaching clauses to their watches, and clauses that become pending again.

ghost use Rattle.std.specs.Prelude.{◌≡◌, ◌≢◌, ◌⊎◌, ℕ, ◌+◌, ◌*◌, ◌<◌, ◌≤◌, [], All, IfNone, IfOk, IfSome, List, MatchBool, MatchOption};
ghost use Rattle.std.specs.Prelude.{None, OnOk, Some, Vec, false, length, true};
ghost use Rattle.std.specs.declared.alloc.Global.{Global};
ghost use Rattle.resolver_clause_store.specs.Formula.{AreBelow, IsBelow};
ghost use Rattle.resolver_clause_store.specs.Outcomes.{IsSatisfied};
ghost use Rattle.resolver_clause_store.specs.TrailView.{IsCut, IsGrown, length_of, variable_count};
ghost use Rattle.resolver_clause_store.specs.Literals.{Literal};
ghost use Rattle.resolver_clause_store.specs.declared.Trail.{Trail};
ghost use Rattle.resolvo.specs.Attaching.{AreAlike, HasLast, Forces, IsAlike, IsHigh, IsHighPair, IsLower, IsNotFalseBefore, IsOther, IsPairOf, Recalls, AreDistinctLiterals, Attaches, Pops, PopsOne};
ghost use Rattle.resolvo.specs.Propagation.{IsConflict, IsJustified};
ghost use Rattle.resolver_clause_store.specs.Settled.{IsOpen};
ghost use Rattle.resolvo.specs.Propagators.{IsPropagator, attached_of, late_of, pending_of, FollowsTrail, IsConstant};
ghost use Rattle.resolvo.specs.Returning.{FollowsTrailCut};
ghost use Rattle.resolvo.specs.WatchedClauses.{OwnsPair};
ghost use Rattle.resolver_clause_store.specs.Watches.{HasLiteral, IsWatching, pair_at};
ghost use Rattle.resolver_clause_store.specs.WatchesView.{lists_of, pairs_of};

use super::pending::PendingClauses;
use super::{Late, Propagator};
use crate::clause_state::{State, examine};
use resolver_clause_store::{Clauses, Literal, Trail, WatchedPair, Watches, clause, narrow};
use std::alloc::{AllocError, Global};

impl Propagator {
    /// Returns a propagator without clauses.
    pub fn empty(alloc: Global) -> Self
        ensures { (trail : Trail) → variable_count trail ≡ 0 → IsPropagator [] trail result }
    {
        Propagator {
            watches: Watches::empty(alloc),
            late: Vec::new(alloc),
            pending: PendingClauses::new(alloc),
            head: 0,
        }
    }

    /// Returns the clauses that watch each literal.
    pub fn watches(&self) -> &Watches
        ensures { result.now ≡ self.now.watches }
    {
        &self.watches
    }

    /// Makes room for the literals of new variables, up to `variables` of them.
    pub fn grow(&mut self, variables: usize) -> Result<(), AllocError>
        requires { length (lists_of self.old.watches) ≤ 2 * variables }
        ensures propagator { OnOk result
            ((table : List (List Literal)) (old new : Trail) → IsGrown old new variables → FollowsTrail table old new self.old self.new) }
        ensures pairs { pairs_of self.new.watches ≡ pairs_of self.old.watches }
    {
        self.watches.grow(variables)?;
        Ok(())
    }

    /// Makes pending each clause that was noted with more than `length` entries of the trail, since the literal that
    /// satisfied it may be gone.
    fn recall(&mut self, length: usize) -> Result<(), AllocError>
        ensures recalled { OnOk result (Recalls (late_of self.old) (late_of self.new) (pending_of self.old) (pending_of self.new) length) }
        ensures watches { self.new.watches ≡ self.old.watches }
        ensures head { OnOk result (self.new.head ≡ self.old.head) }
    {
        'late: while let Some(late) = self.late.last() {
            if late.length as usize <= length {
                return Ok(());
            }
            self.pending.push(late.number)?;
            self.late.pop();
        }
        Ok(())
    }

    /// Follows a trail from which whole levels were removed.
    pub fn cut(&mut self, trail: &Trail) -> Result<(), AllocError>
        ensures propagator { OnOk result
            ((table : List (List Literal)) (old : Trail) → IsLower old trail.now → FollowsTrail table old trail.now self.old self.new) }
        ensures watches { self.new.watches ≡ self.old.watches }
    {
        self.recall(trail.len())?;
        self.head = self.head.min(trail.len());
        Ok(())
    }

    /// Follows a trail that was cut to its first entries. All of these are to be propagated again.
    pub fn forget(&mut self, trail: &Trail) -> Result<(), AllocError>
        ensures propagator { OnOk result (FollowsTrailCut false trail.now self.old self.new) }
        ensures watches { self.new.watches ≡ self.old.watches }
    {
        self.recall(trail.len())?;
        self.head = 0;
        Ok(())
    }
}

impl Propagator {
    /// Pops a pending clause that is satisfied.
    #[inline(always)]
    fn pass(&mut self, trail: &Trail, number: usize) -> Result<(), AllocError>
        requires last { HasLast (pending_of self.old) number }
        requires inside { number < attached_of self.old }
        requires below { (literal : Literal) → IsWatching (pairs_of self.old.watches) number literal → literal.variable < variable_count trail.now }
        ensures propagator { OnOk result (Pops IsSatisfied trail.now number self.old self.new) }
        ensures watches { self.new.watches ≡ self.old.watches }
        ensures fewer { OnOk result (PopsOne self.old self.new) }
    {
        let pair = self.watches.pair(number);
        self.pending.pop();
        if are_high(trail, &pair) {
            return Ok(());
        }
        let number = narrow(number)?;
        let length = narrow(trail.len())?;
        self.late.push(Late { number, length })?;
        Ok(())
    }

    /// Pops a pending clause that has two literals without a value. If a literal that it watches is false, that one is
    /// propagated again.
    fn reopen(&mut self, trail: &Trail, number: usize)
        requires last { HasLast (pending_of self.old) number }
        requires inside { number < attached_of self.old }
        requires below { (literal : Literal) → IsWatching (pairs_of self.old.watches) number literal → literal.variable < variable_count trail.now }
        ensures propagator { Pops IsOpen trail.now number self.old self.new }
        ensures watches { self.new.watches ≡ self.old.watches }
        ensures fewer { PopsOne self.old self.new }
    {
        let pair = self.watches.pair(number);
        self.pending.pop();
        if pair.first == pair.second {
            return;
        }
        let first = false_place(trail, pair.first);
        let second = false_place(trail, pair.second);
        self.head = self.head.min(first).min(second);
    }

    /// Attaches the clause after those in the table. It becomes pending.
    pub fn attach(&mut self, trail: &Trail, literals: &[Literal]) -> Result<(), AllocError>
        requires below { IsBelow (variable_count trail.now) literals.now }
        requires lists { length (lists_of self.old.watches) ≡ 2 * variable_count trail.now }
        ensures propagator { OnOk result (Attaches trail.now literals.now self.old self.new) }
        ensures kept { (number : ℕ) → number < attached_of self.old → pair_at (pairs_of self.new.watches) number ≡ pair_at (pairs_of self.old.watches) number }
        ensures own { OnOk result (OwnsPair literals.now (pair_at (pairs_of self.new.watches) (attached_of self.old))) }
    {
        let number = narrow(self.watches.len())?;
        self.watches
            .add(pair_of(trail, literals), literals.len() == 2)?;
        self.pending.push(number)?;
        Ok(())
    }
}

/// Returns whether a literal is not false, or became false at the highest level.
fn is_high(trail: &Trail, literal: Literal) -> bool
    requires { literal.variable < variable_count trail.now }
    ensures { result ≡ true → IsHigh trail.now literal }
{
    match trail.slot(literal.variable()) {
        Some(slot) => slot.value == literal.is_positive() || slot.level as usize >= trail.level(),
        None => true,
    }
}

/// Returns whether the pair has two literals, each not false or false only at the highest level.
fn are_high(trail: &Trail, pair: &WatchedPair) -> bool
    requires { (literal : Literal) → HasLiteral pair.now literal → literal.variable < variable_count trail.now }
    ensures { result ≡ true → IsHighPair trail.now pair.now }
{
    if pair.first == pair.second {
        return false;
    }
    is_high(trail, pair.first) && is_high(trail, pair.second)
}

/// Returns the place at which a literal became false, or the end of the trail if it is not false.
fn false_place(trail: &Trail, literal: Literal) -> usize
    requires { literal.variable < variable_count trail.now }
    ensures { IsNotFalseBefore trail.now result literal }
{
    let Some(slot) = trail.slot(literal.variable()) else {
        return trail.len();
    };
    if slot.value == literal.is_positive() {
        return trail.len();
    }
    slot.place as usize
}

/// Returns whether the literal at `place` differs from the one at `other`, if that is given.
fn is_other(literals: &[Literal], other: Option<usize>, place: usize) -> bool
    requires inside { place < length literals.now }
    requires other { (given : ℕ) → other ≡ Some given → given < length literals.now }
    ensures { MatchBool result (IsOther literals.now other place) (IsAlike literals.now other place) }
{
    match other {
        Some(other) => literals[place] != literals[other],
        None => true,
    }
}

/// Returns the better place to watch: the one found so far, or this one.
///
/// A literal that is not false is best, then the one that became false last.
fn better(
    trail: &Trail,
    literals: &[Literal],
    other: Option<usize>,
    found: Option<usize>,
    place: usize,
) -> Option<usize>
    requires below { IsBelow (variable_count trail.now) literals.now }
    requires inside { place < length literals.now }
    requires other { (given : ℕ) → other ≡ Some given → given < length literals.now }
    requires found { MatchOption found (AreAlike literals.now other place) (IsOther literals.now other) }
    ensures { MatchOption result (AreAlike literals.now other (place + 1)) (IsOther literals.now other) }
{
    if !is_other(literals, other, place) {
        return found;
    }
    match found {
        None => Some(place),
        Some(best) => {
            if false_place(trail, literals[best]) < false_place(trail, literals[place]) {
                return Some(place);
            }
            Some(best)
        }
    }
}

/// Returns the place of the first literal that is not false, and that differs from the one at `other`, if that is given.
fn first_open(trail: &Trail, literals: &[Literal], other: Option<usize>) -> Option<usize>
    requires below { IsBelow (variable_count trail.now) literals.now }
    requires other { (given : ℕ) → other ≡ Some given → given < length literals.now }
    ensures { IfSome result (IsOther literals.now other) }
{
    'literals: for place in 0..literals.len() {
        if trail.value(literals[place]) != Some(false) && is_other(literals, other, place) {
            return Some(place);
        }
    }
    None
}

/// Returns the place of the best literal to watch by all places, which has to differ from the one at `other`, if that is
/// given.
fn best_of_all(trail: &Trail, literals: &[Literal], other: Option<usize>) -> Option<usize>
    requires below { IsBelow (variable_count trail.now) literals.now }
    requires other { (given : ℕ) → other ≡ Some given → given < length literals.now }
    ensures { MatchOption result (AreAlike literals.now other (length literals.now)) (IsOther literals.now other) }
{
    let mut found = None;
    'literals: for place in 0..literals.len() {
        found = better(trail, literals, other, found, place);
    }
    found
}

/// Returns the place of the best literal to watch, which has to differ from the one at `other`, if that is given.
///
/// No literal is better than the first that is not false.
fn best(trail: &Trail, literals: &[Literal], other: Option<usize>) -> Option<usize>
    requires below { IsBelow (variable_count trail.now) literals.now }
    requires other { (given : ℕ) → other ≡ Some given → given < length literals.now }
    ensures { MatchOption result (AreAlike literals.now other (length literals.now)) (IsOther literals.now other) }
{
    match first_open(trail, literals, other) {
        Some(place) => Some(place),
        None => best_of_all(trail, literals, other),
    }
}

/// Returns two different literals of a clause to watch, or nothing if it does not have two.
///
/// Literals that are not false are preferred, then those that became false last.
fn pair_of(trail: &Trail, literals: &[Literal]) -> WatchedPair
    requires { IsBelow (variable_count trail.now) literals.now }
    ensures { IsPairOf literals.now result }
{
    let Some(first) = best(trail, literals, None) else {
        return WatchedPair::none();
    };
    let Some(second) = best(trail, literals, Some(first)) else {
        return WatchedPair::none();
    };
    WatchedPair {
        first: literals[first],
        second: literals[second],
    }
}

/// Examines the last pending clause, and pops it unless it is false. A unit clause forces its literal. Returns whether
/// it is not false.
fn apply_pending(
    trail: &mut Trail,
    table: &Clauses,
    propagator: &mut Propagator,
    number: usize,
) -> Result<bool, AllocError>
    requires below { AreBelow (variable_count trail.old) table.now }
    requires justified { IsJustified table.now trail.old }
    requires propagator { IsPropagator table.now trail.old propagator.old }
    requires last { HasLast (pending_of propagator.old) number }
    ensures answer { IfOk result (λ holds. MatchBool holds (PopsOne propagator.old propagator.new) (IsConflict trail.new table.now number)) }
    ensures propagator { OnOk result (IsPropagator table.now trail.new propagator.new) }
    ensures watches { propagator.new.watches ≡ propagator.old.watches }
    ensures step { OnOk result (Forces table.now trail.old trail.new) }
{
    match examine(trail, clause(table, number)) {
        State::Falsified => Ok(false),
        State::Unit(literal) => {
            trail.force(literal, number)?;
            propagator.pass(trail, number)?;
            Ok(true)
        }
        State::Satisfied => {
            propagator.pass(trail, number)?;
            Ok(true)
        }
        State::Open => {
            propagator.reopen(trail, number);
            Ok(true)
        }
    }
}

/// Examines pending clauses until none is left or one is false, and returns the number of that one.
#[inline(always)]
pub fn apply_all_pending(
    trail: &mut Trail,
    table: &Clauses,
    propagator: &mut Propagator,
) -> Result<Option<usize>, AllocError>
    requires below { AreBelow (variable_count trail.old) table.now }
    requires justified { IsJustified table.now trail.old }
    requires propagator { IsPropagator table.now trail.old propagator.old }
    ensures conflict { IfOk result (λ answer. IfSome answer (IsConflict trail.new table.now)) }
    ensures none { IfOk result (λ answer. IfNone answer (pending_of propagator.new ≡ [])) }
    ensures propagator { OnOk result (IsPropagator table.now trail.new propagator.new) }
    ensures watches { propagator.new.watches ≡ propagator.old.watches }
    ensures step { OnOk result (Forces table.now trail.old trail.new) }
{
    'pending: while let Some(number) = propagator.pending.last() {
        if !apply_pending(trail, table, propagator, number)? {
            return Ok(Some(number));
        }
    }
    Ok(None)
}
