//! The slots of variables, in seventeen bytes each.

ghost use Rattle.std.specs.Prelude.{◌<◌, ◌≡◌, ◌≢◌, ◌≤◌, [], ℕ, MatchBool, None, OnErr, OnOk, Some, length, slice_set};
ghost use Rattle.std.specs.Option.{option_map};
ghost use Rattle.resolver_clause_store.specs.Slots.{slot_in};
ghost use Rattle.resolver_clause_store.specs.StoredSlots.{reason_from, slot_with, value_stored};
ghost use Rattle.resolver_clause_store.specs.declared.trail.Slot.{Slot};

use crate::trail::{Reason, Slot};
use std::alloc::{AllocError, Global};
use std::marker::Model;

/// The value of a variable, in one byte.
#[derive(Clone, Copy, PartialEq, Eq)]
pub enum StoredValue {
    False,
    True,
    /// The variable has no value.
    Open,
}

/// Why a variable has its value, without the number of a clause.
#[derive(Clone, Copy)]
pub enum Cause {
    Decided,
    Forced,
    Assumed,
}

/// A slot without its value.
#[derive(Clone, Copy)]
pub struct StoredSlot {
    level: u32,
    place: u32,
    /// The number of the clause that is the reason. For an assumption it means nothing.
    number: u32,
    cause: Cause,
}

/// Returns the slot of a variable without a value. It means nothing.
fn blank() -> StoredSlot {
    StoredSlot {
        level: 0,
        place: 0,
        number: 0,
        cause: Cause::Assumed,
    }
}

/// Returns a value as it is stored.
fn stored_value(value: bool) -> StoredValue
    ensures { value_stored result ≡ Some value }
{
    if value {
        return StoredValue::True;
    }
    StoredValue::False
}

/// Returns whether this value is stored.
fn is_stored(stored: StoredValue, value: bool) -> bool
    ensures { MatchBool result (value_stored stored ≡ Some value) (value_stored stored ≢ Some value) }
{
    stored == stored_value(value)
}

/// Returns the parts of a reason. For an assumption the number means nothing.
fn parts_of(reason: Reason) -> (Cause, u32)
    ensures { reason_from result.0 result.1 ≡ reason }
{
    match reason {
        Reason::Decided(number) => (Cause::Decided, number),
        Reason::Forced(number) => (Cause::Forced, number),
        Reason::Assumed => (Cause::Assumed, 0),
    }
}

/// Returns the reason with these parts.
fn reason_from(cause: Cause, number: u32) -> Reason
    ensures { result ≡ reason_from cause number }
{
    match cause {
        Cause::Decided => Reason::Decided(number),
        Cause::Forced => Reason::Forced(number),
        Cause::Assumed => Reason::Assumed,
    }
}

/// Returns the value that is stored.
fn value_of(stored: StoredValue) -> Option<bool>
    ensures { result ≡ value_stored stored }
{
    match stored {
        StoredValue::False => Some(false),
        StoredValue::True => Some(true),
        StoredValue::Open => None,
    }
}

/// Returns a slot with this value, if there is one.
fn slot_with(value: Option<bool>, stored: StoredSlot) -> Option<Slot>
    ensures { result ≡ slot_with value stored }
{
    match value {
        Some(value) => Some(Slot {
            value,
            level: stored.level,
            place: stored.place,
            reason: reason_from(stored.cause, stored.number),
        }),
        None => None,
    }
}

/// The slot of each variable, if the variable has a value. In contracts, they are the list of the slots.
///
/// The values are in a table of their own, with a byte for each variable: most look-ups want only the value. When a variable loses its value, the
/// rest of its slot stays as it was, and means nothing.
#[derive(Drop)]
pub struct Slots {
    values: Vec<StoredValue>,
    stored: Vec<StoredSlot>,
}

impl Model for Slots {
    ghost use Rattle.std.specs.Prelude.{◌≡◌, List, Option, length};
    ghost use Rattle.resolver_clause_store.specs.StoredSlots.{slots_in};
    ghost use Rattle.resolver_clause_store.specs.declared.trail.Slot.{Slot};

    ghost Value = { List (Option Slot) };

    ghost view = { λ s. slots_in s.values.items s.stored.items };

    ghost invariant = { λ s. length s.values.items ≡ length s.stored.items };
}

impl Slots {
    /// Returns slots of no variables.
    pub fn new(alloc: Global) -> Self
        ensures { result ≡ [] }
    {
        Slots {
            values: Vec::new(alloc),
            stored: Vec::new(alloc),
        }
    }

    /// Returns the number of variables.
    pub fn len(&self) -> usize
        ensures { result ≡ length self.now }
    {
        self.stored.len()
    }

    /// Returns the slot of a variable, if it has a value.
    pub fn at(&self, index: usize) -> Option<Slot>
        requires { index < length self.now }
        ensures { result ≡ slot_in self.now index }
    {
        slot_with(self.value_at(index), self.stored[index])
    }

    /// Returns the value of a variable, if it has one.
    pub fn value_at(&self, index: usize) -> Option<bool>
        requires { index < length self.now }
        ensures { result ≡ option_map (λ (slot : Slot). slot.value) (slot_in self.now index) }
    {
        value_of(self.values[index])
    }

    /// Returns whether a variable has this value.
    pub fn has_value(&self, index: usize, value: bool) -> bool
        requires { index < length self.now }
        ensures { let stored = option_map (λ (slot : Slot). slot.value) (slot_in self.now index) in MatchBool result (stored ≡ Some value) (stored ≢ Some value) }
    {
        is_stored(self.values[index], value)
    }

    /// Gives a variable a slot.
    pub fn put(&mut self, index: usize, slot: Slot)
        requires { index < length self.old }
        ensures { self.new ≡ slice_set self.old index (Some slot) }
    {
        let (cause, number) = parts_of(slot.reason);
        self.stored[index] = StoredSlot {
            level: slot.level,
            place: slot.place,
            number,
            cause,
        };
        self.values[index] = stored_value(slot.value);
    }

    /// Takes the slot of a variable back.
    pub fn clear(&mut self, index: usize)
        requires { index < length self.old }
        ensures { self.new ≡ slice_set self.old index None }
    {
        self.values[index] = StoredValue::Open;
    }

    /// Adds variables without a value, up to this many. An error changes nothing.
    pub fn grow(&mut self, count: usize) -> Result<(), AllocError>
        requires { length self.old ≤ count }
        ensures size { OnOk result (length self.new ≡ count) }
        ensures same { (variable : ℕ) → slot_in self.new variable ≡ slot_in self.old variable }
        ensures unchanged { OnErr result (self.new ≡ self.old) }
    {
        let before = self.values.len();
        self.values.resize(count, StoredValue::Open)?;
        match self.stored.resize(count, blank()) {
            Ok(()) => Ok(()),
            Err(_) => {
                self.values.truncate(before);
                Err(AllocError)
            }
        }
    }
}
