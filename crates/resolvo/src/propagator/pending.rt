//! The clauses that are pending.

ghost use Rattle.std.specs.Prelude.{◌≡◌, ◌-◌, ◌++◌, ◌∷◌, [], MatchOption, OnErr, OnOk, length, take};
ghost use Rattle.resolvo.specs.Attaching.{HasLast};

use std::alloc::{AllocError, Global};
use std::marker::Model;

/// The numbers of the clauses that are pending: to be examined before anything is propagated. In contracts, they are the list of these numbers.
#[derive(Drop)]
pub struct PendingClauses {
    numbers: Vec<u32>,
}

impl Model for PendingClauses {
    ghost use Rattle.std.specs.Prelude.{ℕ, List};

    ghost Value = { List ℕ };

    ghost view = { λ p. p.numbers.items };
}

impl PendingClauses {
    /// Returns no clauses.
    pub fn new(alloc: Global) -> Self
        ensures { result ≡ [] }
    {
        PendingClauses {
            numbers: Vec::new(alloc),
        }
    }

    /// Returns the number of the last clause, if there is one.
    pub fn last(&self) -> Option<usize>
        ensures { MatchOption result (self.now ≡ []) (HasLast self.now) }
    {
        match self.numbers.last() {
            Some(number) => Some(*number as usize),
            None => None,
        }
    }

    /// Appends a clause. An error changes nothing.
    pub fn push(&mut self, number: u32) -> Result<(), AllocError>
        ensures added { OnOk result (self.new ≡ self.old ++ number ∷ []) }
        ensures unchanged { OnErr result (self.new ≡ self.old) }
    {
        self.numbers.push(number)?;
        Ok(())
    }

    /// Removes the last clause, if there is one.
    pub fn pop(&mut self)
        ensures { self.new ≡ take (length self.old - 1) self.old }
    {
        self.numbers.pop();
    }
}
