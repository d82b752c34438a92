//! The trail: the variables that have a value, in the order in which they got it.

ghost use Rattle.std.specs.Prelude.{◌<◌, ◌≡◌, ◌≢◌, ◌≤◌, ℕ, IfOk, MatchBool, None, OnErr, OnOk, Some};
ghost use Rattle.resolver_clause_store.specs.Slots.{AreCounted, AreRising, IsListed, IsPlaced, last_level};

use crate::literals::{Literal, Variable};
use crate::numbers::narrow;
use crate::slots::Slots;
use std::alloc::{AllocError, Global};

/// Why a variable has its value.
#[derive(Clone, Copy, PartialEq, Eq)]
pub enum Reason {
    /// It was decided for the requirement clause with this number.
    Decided(u32),
    /// It was forced by the clause with this number, whose other literals were false before.
    Forced(u32),
    /// It was assumed: a soft requirement that is being tried, was accepted, or was refused.
    Assumed,
}

/// The value of a variable, the reason for it, and the level and the place of its entry on the trail.
#[derive(Clone, Copy, PartialEq, Eq)]
pub struct Slot {
    pub value: bool,
    pub level: u32,
    pub place: u32,
    pub reason: Reason,
}

/// Returns the level of the variable at the last place, or 0 if there is none.
fn last_level(slots: &Slots, order: &[Variable]) -> u32
    requires placed { IsPlaced slots.now order.now }
    requires listed { IsListed slots.now order.now }
    ensures { result ≡ last_level slots.now order.now }
{
    if order.is_empty() {
        return 0;
    }
    let variable = order[order.len() - 1];
    match slots.at(variable.index()) {
        Some(slot) => slot.level,
        None => 0,
    }
}

/// The variables in the order in which they got their values, with a slot for each variable.
///
/// Decision levels count from 0, and never fall from place to place. A decision begins a level, and so does an
/// assumption.
#[derive(Drop)]
pub struct Trail {
    slots: Slots,
    order: Vec<Variable>,
    /// The level of the variable at the last place, or 0 if there is none.
    top: u32,
    ghost placed: { IsPlaced slots order.items },
    ghost listed: { IsListed slots order.items },
    ghost rising: { AreRising slots },
    ghost counted: { AreCounted slots },
    ghost leveled: { top ≡ last_level slots order.items },
}

impl Trail {
    ghost use Rattle.std.specs.Prelude.{◌+◌, ◌-◌, false, true};
    ghost use Rattle.std.specs.Option.{option_map};
    ghost use Rattle.resolver_clause_store.specs.Slots.{is_decided};
    ghost use Rattle.resolver_clause_store.specs.declared.trail.Reason.TheVariants.{Assumed, Decided, Forced};
    ghost use Rattle.resolver_clause_store.specs.TrailView.{Gains, IsAbove, IsCut, IsGrown, IsSame, IsTop, IsUndone, length_of, level_of};
    ghost use Rattle.resolver_clause_store.specs.TrailView.{literal_value, slot_of, variable_at, variable_count};

    /// Returns a trail without variables.
    pub fn empty(alloc: Global) -> Self
        ensures size { variable_count result ≡ 0 }
        ensures none { (variable : ℕ) → slot_of result variable ≡ None }
    {
        Trail {
            slots: Slots::new(alloc),
            order: Vec::new(alloc),
            top: 0,
        }
    }

    /// Returns a trail of this many variables, none of which has a value.
    pub fn new(alloc: Global, variables: usize) -> Result<Self, AllocError>
        ensures size { IfOk result (λ trail. variable_count trail ≡ variables) }
        ensures none { IfOk result (λ trail. (variable : ℕ) → slot_of trail variable ≡ None) }
    {
        let mut trail = Trail::empty(alloc);
        trail.grow(variables)?;
        Ok(trail)
    }

    /// Returns the number of variables, with a value or without.
    pub fn variable_count(&self) -> usize
        ensures { result ≡ variable_count self.now }
    {
        self.slots.len()
    }

    /// Returns the number of variables that have a value.
    pub fn len(&self) -> usize
        ensures { result ≡ length_of self.now }
    {
        self.order.len()
    }

    /// Returns whether no variable has a value.
    pub fn is_empty(&self) -> bool
        ensures { MatchBool result (length_of self.now ≡ 0) (0 < length_of self.now) }
    {
        self.order.is_empty()
    }

    /// Returns the slot of a variable, if it has a value.
    pub fn slot(&self, variable: Variable) -> Option<Slot>
        requires { variable < variable_count self.now }
        ensures { result ≡ slot_of self.now variable }
    {
        self.slots.at(variable.index())
    }

    /// Returns whether a literal is true, if its variable has a value.
    pub fn value(&self, literal: Literal) -> Option<bool>
        requires { literal.variable < variable_count self.now }
        ensures { result ≡ literal_value self.now literal }
    {
        match self.slots.value_at(literal.variable().index()) {
            Some(value) => Some(value == literal.is_positive()),
            None => None,
        }
    }

    /// Returns whether a literal is true.
    pub fn is_true(&self, literal: Literal) -> bool
        requires { literal.variable < variable_count self.now }
        ensures { MatchBool result (literal_value self.now literal ≡ Some true) (literal_value self.now literal ≢ Some true) }
    {
        self.slots
            .has_value(literal.variable().index(), literal.is_positive())
    }

    /// Returns whether a literal is false.
    pub fn is_false(&self, literal: Literal) -> bool
        requires { literal.variable < variable_count self.now }
        ensures { MatchBool result (literal_value self.now literal ≡ Some false) (literal_value self.now literal ≢ Some false) }
    {
        self.slots
            .has_value(literal.variable().index(), !literal.is_positive())
    }

    /// Returns the variable at a place.
    pub fn variable_at(&self, place: usize) -> Variable
        requires { place < length_of self.now }
        ensures value { result ≡ variable_at self.now place }
        ensures inside { result < variable_count self.now }
        ensures placed { option_map (λ slot. slot.place) (slot_of self.now result) ≡ Some place }
    {
        self.order[place]
    }

    /// Returns the highest level, which is that of the last place, or 0 if no variable has a value.
    pub fn level(&self) -> usize
        ensures value { result ≡ level_of self.now }
        ensures top { IsTop self.now result }
        ensures bound { result ≤ length_of self.now }
    {
        self.top as usize
    }

    /// Makes a literal true whose variable has no value, at the highest level or at a new one above it.
    pub fn assign(
        &mut self,
        literal: Literal,
        level: usize,
        reason: Reason,
    ) -> Result<(), AllocError>
        requires inside { literal.variable < variable_count self.old }
        requires free { slot_of self.old literal.variable ≡ None }
        requires top { IsTop self.old level }
        requires bound { level ≤ length_of self.old + 1 }
        requires begins { is_decided reason ≡ true → IsAbove self.old level × (0 < level) }
        ensures ok { OnOk result (Gains self.old self.new literal level reason) }
        ensures err { OnErr result (IsSame self.old self.new) }
    {
        let place = narrow(self.order.len())?;
        let level = narrow(level)?;
        let variable = literal.variable();
        self.order.push(variable)?;
        self.slots.put(
            variable.index(),
            Slot {
                value: literal.is_positive(),
                level,
                place,
                reason,
            },
        );
        self.top = level;
        Ok(())
    }

    /// Begins a level with a literal whose variable has no value, decided for the requirement clause with this number.
    pub fn decide(&mut self, literal: Literal, number: usize) -> Result<(), AllocError>
        requires inside { literal.variable < variable_count self.old }
        requires free { slot_of self.old literal.variable ≡ None }
        ensures ok { OnOk result (Gains self.old self.new literal (level_of self.old + 1) (Decided number)) }
        ensures err { OnErr result (IsSame self.old self.new) }
    {
        let level = self.level() + 1;
        self.assign(literal, level, Reason::Decided(narrow(number)?))?;
        Ok(())
    }

    /// Makes a literal true whose variable has no value, at the highest level, forced by the clause with this number.
    pub fn force(&mut self, literal: Literal, number: usize) -> Result<(), AllocError>
        requires inside { literal.variable < variable_count self.old }
        requires free { slot_of self.old literal.variable ≡ None }
        ensures ok { OnOk result (Gains self.old self.new literal (level_of self.old) (Forced number)) }
        ensures err { OnErr result (IsSame self.old self.new) }
    {
        let level = self.level();
        self.assign(literal, level, Reason::Forced(narrow(number)?))?;
        Ok(())
    }

    /// Begins a level with a literal whose variable has no value, as an assumption.
    pub fn assume(&mut self, literal: Literal) -> Result<(), AllocError>
        requires inside { literal.variable < variable_count self.old }
        requires free { slot_of self.old literal.variable ≡ None }
        ensures ok { OnOk result (Gains self.old self.new literal (level_of self.old + 1) Assumed) }
        ensures err { OnErr result (IsSame self.old self.new) }
    {
        let level = self.level() + 1;
        self.assign(literal, level, Reason::Assumed)?;
        Ok(())
    }

    /// Adds variables without a value, up to this many.
    pub fn grow(&mut self, variables: usize) -> Result<(), AllocError>
        requires { variable_count self.old ≤ variables }
        ensures ok { OnOk result (IsGrown self.old self.new variables) }
        ensures err { OnErr result (IsSame self.old self.new) }
    {
        self.slots.grow(variables)?;
        Ok(())
    }

    /// Takes back the value at the last place.
    pub fn undo_last(&mut self)
        requires { 0 < length_of self.old }
        ensures { IsCut self.old self.new (length_of self.old - 1) }
    {
        if let Some(variable) = self.order.pop() {
            self.slots.clear(variable.index());
            self.top = last_level(&self.slots, &self.order);
        }
    }

    /// Takes back the values after the first `count` places.
    pub fn cut(&mut self, count: usize)
        requires { count ≤ length_of self.old }
        ensures { IsCut self.old self.new count }
    {
        'places: while self.order.len() > count {
            self.undo_last();
        }
    }

    /// Takes back the values of all levels above this one.
    pub fn undo_until(&mut self, level: usize)
        ensures { IsUndone self.old self.new level }
    {
        'places: while self.level() > level {
            self.undo_last();
        }
    }
}
