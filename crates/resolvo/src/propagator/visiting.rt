//! Visits to the clauses that watch a literal which has become false.

ghost use Rattle.std.specs.Prelude.{◌≡◌, ◌≢◌, ◌+◌, ◌<◌, ◌≤◌, false, true, All, Contains, IfNone, IfOk, IfSome, MatchOption, None, OnErr, OnOk, Some, length};
ghost use Rattle.resolver_clause_store.specs.Formula.{AreBelow, IsBelow, clause_at};
ghost use Rattle.resolver_clause_store.specs.Outcomes.{IsSatisfied};
ghost use Rattle.resolver_clause_store.specs.TrailView.{length_of, literal_value, variable_count};
ghost use Rattle.resolver_clause_store.specs.Literals.{Literal};
ghost use Rattle.resolver_clause_store.specs.declared.Watch.{Watch};
ghost use Rattle.resolvo.specs.Propagation.{IsConflict, IsJustified, IsUnit, Propagates};
ghost use Rattle.resolver_clause_store.specs.Settled.{AllSettled};
ghost use Rattle.resolvo.specs.Propagators.{IsAttached, IsPropagator};
ghost use Rattle.resolvo.specs.Visits.{FailsAt, GoesOnAt, IsPaired, IsWatchPlaced, IsVisiting, WatchOutcomeIs, ReplacesAt, IsWatchedAt, late_with};
ghost use Rattle.resolvo.specs.WatchedClauses.{AreOwned};
ghost use Rattle.resolver_clause_store.specs.Watches.{IsWatching};
ghost use Rattle.resolver_clause_store.specs.WatchesView.{HasList, pairs_of};

use super::{Late, Propagator};
use resolver_clause_store::{Clauses, Literal, PlacedWatch, Trail, clause, narrow};
use std::alloc::AllocError;

/// A literal that has become false.
#[derive(Clone, Copy)]
pub struct FalseLiteral {
    literal: Literal,
    level: usize,
    /// Whether the literal became false at the highest level.
    is_top: bool,
}

/// A clause that watches the literal.
#[derive(Clone, Copy)]
pub struct Watcher {
    /// Its watch in the literal's list.
    placed: PlacedWatch,
    /// Another literal of the clause: the other one that it watches, or the blocker.
    other: Literal,
}

/// The result of a visit to a watcher.
#[derive(Clone, Copy)]
pub enum WatchOutcome {
    /// The place of the next watcher to visit.
    Next(usize),
    /// Each literal of the clause with this number is false.
    Conflict(usize),
}

/// Returns the place of the first of these literals that is not false, other than `other`.
fn first_replacement(trail: &Trail, literals: &[Literal], other: &Literal) -> Option<usize>
    requires { IsBelow (variable_count trail.now) literals.now }
    ensures { MatchOption result (IsUnit trail.now other.now literals.now) (ReplacesAt trail.now literals.now other.now) }
{
    'literals: for place in 0..literals.len() {
        if !trail.is_false(literals[place]) && literals[place] != *other {
            return Some(place);
        }
    }
    None
}

/// Returns the place of a literal that is not false, other than `other`: the first one from `start` on, or before that.
fn next_replacement(
    trail: &Trail,
    literals: &[Literal],
    other: &Literal,
    start: usize,
) -> Option<usize>
    requires { IsBelow (variable_count trail.now) literals.now }
    ensures { MatchOption result (IsUnit trail.now other.now literals.now) (ReplacesAt trail.now literals.now other.now) }
{
    let start = start.min(literals.len());
    let (before, after) = literals.split_at(start);
    match first_replacement(trail, after, other) {
        Some(place) => Some(start + place),
        None => first_replacement(trail, before, other),
    }
}

/// Returns the place of a literal of the clause that is not false, other than `other`. It looks from `start` on first.
///
/// The clause contains `other` and a literal that is false. If it has only two, they need not be read.
fn replacement(
    trail: &Trail,
    clause: &[Literal],
    falsified: &Literal,
    other: &Literal,
    start: usize,
) -> Option<usize>
    requires below { IsBelow (variable_count trail.now) clause.now }
    requires falsified { literal_value trail.now falsified.now ≡ Some false }
    requires own { Contains clause.now falsified.now }
    requires other { Contains clause.now other.now }
    requires differ { falsified.now ≢ other.now }
    ensures { MatchOption result (IsUnit trail.now other.now clause.now) (ReplacesAt trail.now clause.now other.now) }
{
    if clause.len() == 2 {
        return None;
    }
    next_replacement(trail, clause, other, start)
}

/// Returns a place as a watch stores it, or 0 if it is too large.
fn stored_start(place: usize) -> u16 {
    match u16::try_from(place) {
        Ok(start) => start,
        Err(_) => 0,
    }
}

/// Returns whether the other literal of a clause of two is known to be forced, by its value.
fn is_forced(is_binary: bool, value: Option<bool>) -> bool
    ensures { result ≡ true → (is_binary ≡ true) × (value ≡ None) }
{
    is_binary && value.is_none()
}

impl Propagator {
    ghost use Rattle.resolvo.specs.Propagators.{attached_of, head_of, late_of};
    ghost use Rattle.resolvo.specs.Visits.{watchers_of};

    /// Returns the literal that became false by the entry at the head.
    fn false_literal(&self, trail: &Trail) -> FalseLiteral
        requires { head_of self.now < length_of trail.now }
        ensures fails { FailsAt trail.now (head_of self.now) result }
        ensures inside { result.literal.variable < variable_count trail.now }
    {
        let variable = trail.variable_at(self.head);
        match trail.slot(variable) {
            Some(slot) => FalseLiteral {
                literal: Literal::new(variable, !slot.value),
                level: slot.level as usize,
                is_top: trail.level() <= slot.level as usize,
            },
            None => FalseLiteral {
                literal: Literal::new(variable, false),
                level: 0,
                is_top: false,
            },
        }
    }

    /// Notes a clause as satisfied, if that may be undone before the false literal is.
    fn note(
        &mut self,
        trail: &Trail,
        number: usize,
        falsified: &FalseLiteral,
    ) -> Result<(), AllocError>
        ensures watches { self.new.watches ≡ self.old.watches }
        ensures pending { self.new.pending ≡ self.old.pending }
        ensures head { self.new.head ≡ self.old.head }
        ensures late { OnOk result (late_of self.new ≡ late_with (late_of self.old) falsified.now number (length_of trail.now)) }
    {
        if falsified.is_top {
            return Ok(());
        }
        let number = narrow(number)?;
        let length = narrow(trail.len())?;
        self.late.push(Late { number, length })?;
        Ok(())
    }

    /// Passes by a satisfied clause.
    fn pass_by(
        &mut self,
        trail: &Trail,
        table: &Clauses,
        falsified: &FalseLiteral,
        placed: &PlacedWatch,
    ) -> Result<WatchOutcome, AllocError>
        requires visiting { IsVisiting table.now trail.now self.old falsified.now placed.now.place }
        requires stands { IsWatchedAt (watchers_of self.old falsified.now.literal) placed.now.place placed.now.watch.number }
        requires inside { placed.now.watch.number < attached_of self.old }
        requires satisfied { IsSatisfied trail.now (clause_at table.now placed.now.watch.number) }
        ensures outcome { IfOk result (WatchOutcomeIs table.now trail.now self.old self.new falsified.now placed.now.place) }
        ensures refused { OnErr result (AreOwned table.now (pairs_of self.new.watches)) }
    {
        self.note(trail, placed.watch.number as usize, falsified)?;
        Ok(WatchOutcome::Next(placed.place + 1))
    }

    /// Passes by a clause whose other watched literal is true. That literal becomes the blocker.
    #[inline(always)]
    fn pass_by_other(
        &mut self,
        trail: &Trail,
        table: &Clauses,
        falsified: &FalseLiteral,
        watcher: &Watcher,
    ) -> Result<WatchOutcome, AllocError>
        requires visiting { IsVisiting table.now trail.now self.old falsified.now watcher.now.placed.place }
        requires stands { IsWatchPlaced (watchers_of self.old falsified.now.literal) watcher.now.placed }
        requires inside { watcher.now.placed.watch.number < attached_of self.old }
        requires pair { IsPaired (pairs_of self.old.watches) watcher.now.placed.watch.number falsified.now.literal watcher.now.other }
        requires satisfied { literal_value trail.now watcher.now.other ≡ Some true }
        ensures outcome { IfOk result (WatchOutcomeIs table.now trail.now self.old self.new falsified.now watcher.now.placed.place) }
        ensures refused { OnErr result (AreOwned table.now (pairs_of self.new.watches)) }
    {
        self.watches
            .set_blocker(falsified.literal, &watcher.placed, watcher.other);
        let outcome = self.pass_by(trail, table, falsified, &watcher.placed)?;
        Ok(outcome)
    }

    /// Forces the last literal of a clause whose others are false.
    fn force_other(
        &mut self,
        trail: &mut Trail,
        table: &Clauses,
        falsified: &FalseLiteral,
        watcher: &Watcher,
    ) -> Result<WatchOutcome, AllocError>
        requires visiting { IsVisiting table.now trail.old self.old falsified.now watcher.now.placed.place }
        requires justified { IsJustified table.now trail.old }
        requires stands { IsWatchPlaced (watchers_of self.old falsified.now.literal) watcher.now.placed }
        requires inside { watcher.now.placed.watch.number < attached_of self.old }
        requires pair { IsPaired (pairs_of self.old.watches) watcher.now.placed.watch.number falsified.now.literal watcher.now.other }
        requires unit { IsUnit trail.old watcher.now.other (clause_at table.now watcher.now.placed.watch.number) }
        requires not_true { literal_value trail.old watcher.now.other ≢ Some true }
        ensures outcome { IfOk result (WatchOutcomeIs table.now trail.new self.old self.new falsified.now watcher.now.placed.place) }
        ensures refused { OnErr result (AreOwned table.now (pairs_of self.new.watches)) }
        ensures propagates { Propagates table.now trail.old trail.new }
    {
        let number = watcher.placed.watch.number as usize;
        match trail.value(watcher.other) {
            Some(_) => Ok(WatchOutcome::Conflict(number)),
            None => {
                trail.force(watcher.other, number)?;
                let outcome = self.pass_by_other(trail, table, falsified, watcher)?;
                Ok(outcome)
            }
        }
    }

    /// Moves the watch of a false literal to another literal of the clause; the other watched one is not true. If there
    /// is none, the clause is unit, and forces the other.
    ///
    /// The next search by this watch begins behind the literal that is found, which is false by then.
    fn find_replacement(
        &mut self,
        trail: &mut Trail,
        table: &Clauses,
        falsified: &FalseLiteral,
        watcher: &Watcher,
    ) -> Result<WatchOutcome, AllocError>
        requires visiting { IsVisiting table.now trail.old self.old falsified.now watcher.now.placed.place }
        requires justified { IsJustified table.now trail.old }
        requires stands { IsWatchPlaced (watchers_of self.old falsified.now.literal) watcher.now.placed }
        requires inside { watcher.now.placed.watch.number < attached_of self.old }
        requires pair { IsPaired (pairs_of self.old.watches) watcher.now.placed.watch.number falsified.now.literal watcher.now.other }
        requires not_true { literal_value trail.old watcher.now.other ≢ Some true }
        ensures outcome { IfOk result (WatchOutcomeIs table.now trail.new self.old self.new falsified.now watcher.now.placed.place) }
        ensures refused { OnErr result (AreOwned table.now (pairs_of self.new.watches)) }
        ensures propagates { Propagates table.now trail.old trail.new }
    {
        let watch = watcher.placed.watch;
        let literals = clause(table, watch.number as usize);
        match replacement(
            trail,
            literals,
            &falsified.literal,
            &watcher.other,
            usize::from(watch.start),
        ) {
            Some(place) => {
                self.watches.move_watch(
                    falsified.literal,
                    &watcher.placed,
                    literals[place],
                    watcher.other,
                    stored_start(place + 1),
                )?;
                Ok(WatchOutcome::Next(watcher.placed.place))
            }
            None => {
                let outcome = self.force_other(trail, table, falsified, watcher)?;
                Ok(outcome)
            }
        }
    }

    /// Visits a watcher by the two literals that its clause watches.
    fn visit_pair(
        &mut self,
        trail: &mut Trail,
        table: &Clauses,
        falsified: &FalseLiteral,
        placed: &PlacedWatch,
    ) -> Result<WatchOutcome, AllocError>
        requires visiting { IsVisiting table.now trail.old self.old falsified.now placed.now.place }
        requires justified { IsJustified table.now trail.old }
        requires stands { IsWatchPlaced (watchers_of self.old falsified.now.literal) placed.now }
        requires inside { placed.now.watch.number < attached_of self.old }
        requires watching { IsWatching (pairs_of self.old.watches) placed.now.watch.number falsified.now.literal }
        ensures outcome { IfOk result (WatchOutcomeIs table.now trail.new self.old self.new falsified.now placed.now.place) }
        ensures refused { OnErr result (AreOwned table.now (pairs_of self.new.watches)) }
        ensures propagates { Propagates table.now trail.old trail.new }
    {
        let watcher = Watcher {
            placed: *placed,
            other: self
                .watches
                .other_watched(placed.watch.number as usize, &falsified.literal),
        };
        if trail.is_true(watcher.other) {
            let outcome = self.pass_by_other(trail, table, falsified, &watcher)?;
            return Ok(outcome);
        }
        let outcome = self.find_replacement(trail, table, falsified, &watcher)?;
        Ok(outcome)
    }

    /// Forces the other literal of a clause of two.
    fn force_binary(
        &mut self,
        trail: &mut Trail,
        table: &Clauses,
        falsified: &FalseLiteral,
        binary: &Watcher,
    ) -> Result<WatchOutcome, AllocError>
        requires visiting { IsVisiting table.now trail.old self.old falsified.now binary.now.placed.place }
        requires justified { IsJustified table.now trail.old }
        requires stands { IsWatchPlaced (watchers_of self.old falsified.now.literal) binary.now.placed }
        requires inside { binary.now.placed.watch.number < attached_of self.old }
        requires watching { IsWatching (pairs_of self.old.watches) binary.now.placed.watch.number falsified.now.literal }
        requires own { Contains (clause_at table.now binary.now.placed.watch.number) binary.now.other }
        requires two { length (clause_at table.now binary.now.placed.watch.number) ≡ 2 }
        requires free { literal_value trail.old binary.now.other ≡ None }
        ensures outcome { IfOk result (WatchOutcomeIs table.now trail.new self.old self.new falsified.now binary.now.placed.place) }
        ensures refused { OnErr result (AreOwned table.now (pairs_of self.new.watches)) }
        ensures propagates { Propagates table.now trail.old trail.new }
    {
        trail.force(binary.other, binary.placed.watch.number as usize)?;
        let outcome = self.pass_by(trail, table, falsified, &binary.placed)?;
        Ok(outcome)
    }

    /// Returns the next watcher to visit, from this place on.
    ///
    /// If the literal became false at the highest level, a watcher whose blocker is true needs no visit.
    #[inline(always)]
    fn next_watcher(
        &self,
        trail: &Trail,
        falsified: &FalseLiteral,
        from: usize,
    ) -> Option<PlacedWatch>
        requires list { HasList self.now.watches falsified.now.literal }
        requires from { from ≤ length (watchers_of self.now falsified.now.literal) }
        requires below { All (λ (watch : Watch). watch.blocker.variable < variable_count trail.now) (watchers_of self.now falsified.now.literal) }
        ensures placed { IfSome result (λ placed. IsWatchPlaced (watchers_of self.now falsified.now.literal) placed) }
        ensures watching { IfSome result (λ placed. IsWatching (pairs_of self.now.watches) placed.watch.number falsified.now.literal) }
        ensures above { IfSome result (λ placed. from ≤ placed.place) }
        ensures visiting { GoesOnAt trail.now self.now falsified.now from result }
    {
        if falsified.is_top {
            return self
                .watches
                .next_unsatisfied(trail, falsified.literal, from);
        }
        self.watches.placed_at(falsified.literal, from)
    }

    /// Visits a watcher in the list of a literal that has become false.
    #[inline(always)]
    fn visit_watcher(
        &mut self,
        trail: &mut Trail,
        table: &Clauses,
        falsified: &FalseLiteral,
        placed: &PlacedWatch,
    ) -> Result<WatchOutcome, AllocError>
        requires visiting { IsVisiting table.now trail.old self.old falsified.now placed.now.place }
        requires justified { IsJustified table.now trail.old }
        requires stands { IsWatchPlaced (watchers_of self.old falsified.now.literal) placed.now }
        requires inside { placed.now.watch.number < attached_of self.old }
        requires watching { IsWatching (pairs_of self.old.watches) placed.now.watch.number falsified.now.literal }
        ensures outcome { IfOk result (WatchOutcomeIs table.now trail.new self.old self.new falsified.now placed.now.place) }
        ensures refused { OnErr result (AreOwned table.now (pairs_of self.new.watches)) }
        ensures propagates { Propagates table.now trail.old trail.new }
    {
        let watcher = Watcher {
            placed: *placed,
            other: placed.watch.blocker,
        };
        let value = trail.value(watcher.other);
        if value == Some(true) {
            let outcome = self.pass_by(trail, table, falsified, placed)?;
            return Ok(outcome);
        }
        if is_forced(placed.watch.is_binary, value) {
            let outcome = self.force_binary(trail, table, falsified, &watcher)?;
            return Ok(outcome);
        }
        let outcome = self.visit_pair(trail, table, falsified, placed)?;
        Ok(outcome)
    }

    /// Visits each watcher of the literal that became false at the head, and moves the head on by one.
    #[inline(always)]
    fn visit(&mut self, trail: &mut Trail, table: &Clauses) -> Result<Option<usize>, AllocError>
        requires below { AreBelow (variable_count trail.old) table.now }
        requires propagator { IsPropagator table.now trail.old self.old }
        requires attached { IsAttached table.now self.old }
        requires justified { IsJustified table.now trail.old }
        requires head { head_of self.old < length_of trail.old }
        ensures conflict { IfOk result (λ answer. IfSome answer (IsConflict trail.new table.now)) }
        ensures head { IfOk result (λ answer. IfNone answer (head_of self.new ≡ head_of self.old + 1)) }
        ensures propagator { OnOk result (IsPropagator table.now trail.new self.new) }
        ensures attached { OnOk result (IsAttached table.now self.new) }
        ensures refused { OnErr result (AreOwned table.now (pairs_of self.new.watches)) }
        ensures propagates { Propagates table.now trail.old trail.new }
    {
        let falsified = self.false_literal(trail);
        let mut place = 0;
        'watchers: while let Some(placed) = self.next_watcher(trail, &falsified, place) {
            match self.visit_watcher(trail, table, &falsified, &placed)? {
                WatchOutcome::Next(next) => place = next,
                WatchOutcome::Conflict(number) => return Ok(Some(number)),
            }
        }
        self.head += 1;
        Ok(None)
    }
}

/// Forces literals until none is left or a clause is false, and returns the number of that clause.
pub fn propagate(
    trail: &mut Trail,
    table: &Clauses,
    propagator: &mut Propagator,
) -> Result<Option<usize>, AllocError>
    requires below { AreBelow (variable_count trail.old) table.now }
    requires propagator { IsPropagator table.now trail.old propagator.old }
    requires attached { IsAttached table.now propagator.old }
    requires justified { IsJustified table.now trail.old }
    ensures conflict { IfOk result (λ answer. IfSome answer (IsConflict trail.new table.now)) }
    ensures settled { IfOk result (λ answer. IfNone answer (AllSettled trail.new table.now)) }
    ensures propagator { OnOk result (IsPropagator table.now trail.new propagator.new) }
    ensures attached { OnOk result (IsAttached table.now propagator.new) }
    ensures refused { OnErr result (AreOwned table.now (pairs_of propagator.new.watches)) }
    ensures propagates { Propagates table.now trail.old trail.new }
{
    'places: while propagator.head < trail.len() {
        if let Some(number) = propagator.visit(trail, table)? {
            return Ok(Some(number));
        }
    }
    Ok(None)
}
