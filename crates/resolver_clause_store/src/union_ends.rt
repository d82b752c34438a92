//! Where the candidates of each version set of a union end.

ghost use Rattle.std.specs.Prelude.{◌≡◌, ◌≢◌, [], ℕ, OnOk};
ghost use Rattle.resolver_clause_store.specs.UnionEnds.{ends_in};

use std::alloc::{AllocError, Global};
use std::collections::HashMap;

/// For each numbered requirement that is a union, the places in its clause after the candidates of each version set.
#[derive(Drop)]
pub struct UnionEnds {
    places: HashMap<u32, Vec<usize>>,
}

impl UnionEnds {
    /// Returns no places.
    pub fn new(alloc: Global) -> Self
        ensures { (number : ℕ) → ends_in result number ≡ [] }
    {
        UnionEnds {
            places: HashMap::new(alloc),
        }
    }

    /// Notes the places of a requirement.
    pub fn note(&mut self, requirement: u32, places: Vec<usize>) -> Result<(), AllocError>
        ensures noted { OnOk result (ends_in self.new requirement ≡ places.items) }
        ensures others { OnOk result ((other : ℕ) → other ≢ requirement → ends_in self.new other ≡ ends_in self.old other) }
    {
        self.places.insert(requirement, places)?;
        Ok(())
    }

    /// Returns the places of a requirement, none if it is no union.
    pub fn places_of(&self, requirement: u32) -> &[usize]
        ensures { result.now ≡ ends_in self.now requirement }
    {
        match self.places.get(&requirement) {
            Some(places) => places.as_slice(),
            None => &[],
        }
    }
}
