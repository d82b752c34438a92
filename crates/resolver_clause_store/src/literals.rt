//! Variables and literals.

ghost use Rattle.std.specs.Prelude.{◌≡◌, ◌<◌, ◌==◌, ◌^◌};
ghost use Rattle.resolver_clause_store.specs.Literals.{is_literal, list_number};
ghost use Rattle.std.proofs.Common.{rules};
ghost use Rattle.std.specs.Cmp.Rules.{comparing};

use std::marker::Model;

/// The number of a variable, which is below 2147483648.
#[derive(Clone, Copy)]
pub struct Variable {
    number: u32,
}

impl Model for Variable {
    ghost use Rattle.std.specs.Prelude.{ℕ, ◌<◌, ◌^◌};

    ghost Value = { ℕ };

    ghost view = { λ v. v.number };

    ghost invariant = { λ v. v.number < 2 ^ 31 };

    ghost inverse = { λ n. record { number = n } };

    ghost inverse_ok = { λ v h i. v };
}

impl PartialEq for Variable {
    ghost eq = { ◌==◌ };

    ghost laws = { Prim.search (comparing, rules) };

    fn eq(&self, other: &Variable) -> bool {
        self.number == other.number
    }
}

impl Eq for Variable {
    ghost laws = { Prim.search (comparing, rules) };
}

impl Variable {
    /// Returns the variable with this number.
    pub fn new(number: u32) -> Self
        requires { number < 2 ^ 31 }
        ensures { result ≡ number }
    {
        Variable { number }
    }

    /// Returns the variable's number, as an index into a table of the variables.
    pub fn index(self) -> usize
        ensures { result ≡ self }
    {
        self.number as usize
    }
}

/// A variable, or its negation.
///
/// Its number is twice that of the variable, and one more if it is the variable itself.
#[derive(Clone, Copy)]
pub struct Literal {
    number: u32,
}

impl Model for Literal {
    ghost use Rattle.resolver_clause_store.specs.Literals.{Literal, list_number, literal_at, literal_code, number_back};

    ghost Value = { Literal };

    ghost coded = { literal_code };

    ghost view = { λ l. literal_at l.number };

    ghost inverse = { λ literal. record { number = list_number literal } };

    ghost inverse_ok = { λ l h i. record { number = number_back l.number i } };
}

impl PartialEq for Literal {
    ghost eq = { is_literal };

    ghost laws = { Prim.search (comparing, rules) };

    fn eq(&self, other: &Literal) -> bool {
        self.number == other.number
    }
}

impl Eq for Literal {
    ghost laws = { Prim.search (comparing, rules) };
}

impl Literal {
    /// Returns the literal of a variable.
    pub fn new(variable: Variable, positive: bool) -> Self
        ensures { result ≡ record { variable = variable; positive = positive } }
    {
        Literal {
            number: 2 * variable.number + u32::from(positive),
        }
    }

    /// Returns the literal's variable.
    pub fn variable(self) -> Variable
        ensures { result ≡ self.variable }
    {
        Variable {
            number: self.number / 2,
        }
    }

    /// Returns whether the literal is the variable itself.
    pub fn is_positive(self) -> bool
        ensures { result ≡ self.positive }
    {
        self.number % 2 == 1
    }

    /// Returns the number of the literal's list.
    pub fn list_number(self) -> usize
        ensures { result ≡ list_number self }
    {
        self.number as usize
    }
}
