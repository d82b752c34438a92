//! The places of given clauses.

ghost use Rattle.std.specs.Prelude.{◌<◌, ◌≡◌, ◌++◌, ◌∷◌, [], OnErr, OnOk, length, slice_index};

use resolver_clause_store::narrow;
use std::alloc::{AllocError, Global};
use std::marker::Model;

/// The place of each given clause in a search's table, by its number. In contracts, they are the list of the places.
#[derive(Drop)]
pub struct Places {
    places: Vec<u32>,
}

impl Model for Places {
    ghost use Rattle.std.specs.Prelude.{ℕ, List};

    ghost Value = { List ℕ };

    ghost view = { λ p. p.places.items };
}

impl Places {
    /// Returns no places.
    pub fn new(alloc: Global) -> Self
        ensures { result ≡ [] }
    {
        Places {
            places: Vec::new(alloc),
        }
    }

    /// Returns the number of places.
    pub fn len(&self) -> usize
        ensures { result ≡ length self.now }
    {
        self.places.len()
    }

    /// Appends a place. An error changes nothing.
    pub fn push(&mut self, place: usize) -> Result<(), AllocError>
        ensures added { OnOk result (self.new ≡ self.old ++ place ∷ []) }
        ensures unchanged { OnErr result (self.new ≡ self.old) }
    {
        self.places.push(narrow(place)?)?;
        Ok(())
    }

    /// Returns the place of the clause with this number.
    pub fn at(&self, number: usize) -> usize
        requires { number < length self.now }
        ensures { result ≡ slice_index self.now number }
    {
        self.places[number] as usize
    }
}
