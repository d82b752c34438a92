//! The packages of variables, with their changes and the requirements that have candidates of them.

use crate::literals::{Literal, Variable};
use crate::numbered_lists::NumberedLists;
use crate::owner::Owner;
use std::alloc::{AllocError, Global};

/// The changes of a package's variables.
#[derive(Clone, Copy)]
pub struct Changes {
    /// Their number, counted round 2^64.
    pub count: u64,
    /// The variable of the last one.
    pub last: Option<Variable>,
    /// Whether the package is one of those that were touched.
    is_touched: bool,
}

/// The packages of variables.
#[derive(Drop)]
pub struct Packages {
    /// The package of each variable.
    pub owners: Vec<Owner>,
    /// The requirements that have a candidate of a package, by the package's number.
    pub requirements: NumberedLists<u32>,
    /// The changes of each package that has requirements, by the package's number.
    changes: Vec<Changes>,
    /// The packages whose requirements have to be ranked again.
    pub touched: Vec<usize>,
}

impl Packages {
    /// Returns no packages.
    pub fn new(alloc: Global) -> Self {
        Packages {
            owners: Vec::new(alloc),
            requirements: NumberedLists::new(alloc),
            changes: Vec::new(alloc),
            touched: Vec::new(alloc),
        }
    }

    /// Returns the package of a variable, if it is known.
    pub fn owner_of(&self, variable: Variable) -> Owner {
        match self.owners.get(variable.index()) {
            Some(owner) => *owner,
            None => Owner::none(),
        }
    }

    /// Adds a requirement to those of a package.
    fn add_to(&mut self, package: usize, requirement: u32) -> Result<(), AllocError> {
        self.requirements.add(package, requirement)?;
        if self.changes.len() <= package {
            let none = Changes {
                count: 0,
                last: None,
                is_touched: false,
            };
            self.changes.resize(self.requirements.len(), none)?;
        }
        Ok(())
    }

    /// Adds a requirement to those of its candidates' packages.
    pub fn add(&mut self, requirement: u32, literals: &[Literal]) -> Result<(), AllocError> {
        let mut last = Owner::none();
        'literals: for literal in literals {
            let owner = self.owner_of(literal.variable());
            if literal.is_positive()
                && owner != last
                && let Some(package) = owner.number()
            {
                self.add_to(package, requirement)?;
                last = owner;
            }
        }
        Ok(())
    }

    /// Returns the changes of a variable's package, if the package has requirements.
    pub fn changes_of(&self, variable: Variable) -> Option<Changes> {
        let changes = self.changes.get(self.owner_of(variable).number()?)?;
        Some(*changes)
    }

    /// Notes that the requirements of a package have to be ranked again.
    #[inline(always)]
    pub fn touch(&mut self, package: usize) -> Result<(), AllocError> {
        if let Some(changes) = self.changes.get_mut(package)
            && !changes.is_touched
        {
            self.touched.push(package)?;
            changes.is_touched = true;
        }
        Ok(())
    }

    /// Notes that a variable got or lost its value.
    #[inline(always)]
    pub fn change(&mut self, variable: Variable) -> Result<(), AllocError> {
        let Some(package) = self.owner_of(variable).number() else {
            return Ok(());
        };
        if let Some(changes) = self.changes.get_mut(package) {
            changes.count = changes.count.wrapping_add(1);
            changes.last = Some(variable);
        }
        self.touch(package)?;
        Ok(())
    }

    /// Removes one of the packages whose requirements have to be ranked again, and returns it.
    pub fn next_touched(&mut self) -> Option<usize> {
        let package = self.touched.pop()?;
        if let Some(changes) = self.changes.get_mut(package) {
            changes.is_touched = false;
        }
        Some(package)
    }
}
