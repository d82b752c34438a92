//! The package that a variable belongs to.

ghost use Rattle.std.specs.Prelude.{◌≡◌, IfOk, None, Some};

use crate::numbers::narrow;
use std::alloc::AllocError;

/// The number of a variable's package, if the variable stands for a solvable.
#[derive(Clone, Copy, PartialEq, Eq, PartialOrd, Ord)]
pub struct Owner {
    /// The package's number plus one, or 0 if the variable stands for no solvable.
    place: u32,
}

impl Owner {
    ghost use Rattle.resolver_clause_store.specs.Owners.{package_number};

    /// Returns the owner of a variable that stands for no solvable.
    pub fn none() -> Self
        ensures { package_number result ≡ None }
    {
        Owner { place: 0 }
    }

    /// Returns the package with this number as an owner.
    pub fn package(number: usize) -> Result<Self, AllocError>
        ensures { IfOk result (λ owner. package_number owner ≡ Some number) }
    {
        match narrow(number)?.checked_add(1) {
            Some(place) => Ok(Owner { place }),
            None => Err(AllocError),
        }
    }

    /// Returns the number of the package, if there is one.
    pub fn number(self) -> Option<usize>
        ensures { result ≡ package_number self }
    {
        if self.place == 0 {
            return None;
        }
        Some(self.place as usize - 1)
    }
}
