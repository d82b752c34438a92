//! The two literals that each clause watches.

ghost use Rattle.std.specs.Prelude.{◌≡◌, ◌≢◌};
ghost use Rattle.resolver_clause_store.specs.Literals.{Literal};
ghost use Rattle.resolver_clause_store.specs.Watches.{IsPair, replaced};

use crate::literals::{Literal, Variable};

/// The two literals that a clause watches. A clause that watches nothing has the same literal twice.
#[derive(Clone, Copy, PartialEq, Eq)]
pub struct WatchedPair {
    pub first: Literal,
    pub second: Literal,
}

impl WatchedPair {
    ghost use Rattle.resolver_clause_store.specs.Watches.{unwatched};

    /// Returns the pair of a clause that watches nothing.
    pub fn none() -> Self
        ensures { result ≡ unwatched }
    {
        let any = Literal::new(Variable::new(0), false);
        WatchedPair {
            first: any,
            second: any,
        }
    }

    /// Returns the literal of the pair beside this one.
    pub fn other(&self, literal: &Literal) -> Literal
        ensures { (other : Literal) → literal.now ≢ other → IsPair self.now literal.now other → result ≡ other }
    {
        if self.first == *literal {
            return self.second;
        }
        self.first
    }

    /// Replaces a literal of the pair by another.
    pub fn replace(&mut self, from: Literal, to: Literal)
        ensures { self.new ≡ replaced self.old from to }
    {
        if self.first == from {
            self.first = to;
            return;
        }
        self.second = to;
    }
}
