//! The packages of variables.

ghost use Rattle.std.specs.Prelude.{IfErr, ◌≡◌};
ghost use Rattle.resolver_clause_store.specs.declared.Exhausted.TheVariants.{Memory};

use indexmap::IndexSet;
use resolver_clause_store::{
    DependencyProvider, Exhausted, Interner, Origin, Owner, Variable, Variables,
};
use std::alloc::Global;
use std::hash::Hash;

/// The numbers of packages, in the order of their variables, and the owners of the variables that were followed last.
#[derive(Drop)]
pub struct Owners<N: Copy + Eq + Hash + Drop> {
    names: IndexSet<N>,
    owners: Vec<Owner>,
}

impl<N: Copy + Eq + Hash + Drop> Owners<N> {
    /// Returns the owners of no variables.
    pub fn new(alloc: Global) -> Self {
        Owners {
            names: IndexSet::new(alloc),
            owners: Vec::new(alloc),
        }
    }

    /// Returns the owners of the variables that were followed last.
    pub fn as_slice(&self) -> &[Owner] {
        self.owners.as_slice()
    }

    /// Returns the number of a package.
    fn number_of(&mut self, name: N) -> Result<usize, Exhausted>
        ensures memory { IfErr result (λ e. e ≡ Memory) }
    {
        if let Some(number) = self.names.get_index_of(&name) {
            return Ok(number);
        }
        let number = self.names.len();
        self.names.insert(name)?;
        Ok(number)
    }

    /// Returns the owner of a variable with this origin.
    fn owner_of<S: Copy + Eq + Hash + Drop, D: DependencyProvider<NameId = N, SolvableId = S>>(
        &mut self,
        provider: &D,
        origin: Option<Origin<N, S>>,
    ) -> Result<Owner, Exhausted>
        ensures memory { IfErr result (λ e. e ≡ Memory) }
    {
        match origin {
            Some(Origin::Solvable(solvable)) => {
                let number = self.number_of(provider.solvable_name(solvable))?;
                let owner = Owner::package(number)?;
                Ok(owner)
            }
            Some(Origin::Root | Origin::Helper(_)) => Ok(Owner::none()),
            None => Ok(Owner::none()),
        }
    }

    /// Appends the owner of a variable.
    fn follow_variable<
        S: Copy + Eq + Hash + Drop,
        D: DependencyProvider<NameId = N, SolvableId = S>,
    >(&mut self, provider: &D, variables: &Variables<N, S>, index: usize) -> Result<(), Exhausted>
        ensures memory { IfErr result (λ e. e ≡ Memory) }
    {
        let origin = if index < 1 << 31 {
            variables.origin(Variable::new(index as u32))
        } else {
            None
        };
        let owner = self.owner_of(provider, origin)?;
        self.owners.push(owner)?;
        Ok(())
    }

    /// Follows the variables from this number on, which are new.
    pub fn follow<S: Copy + Eq + Hash + Drop, D: DependencyProvider<NameId = N, SolvableId = S>>(
        &mut self,
        provider: &D,
        variables: &Variables<N, S>,
        from: usize,
    ) -> Result<(), Exhausted>
        ensures memory { IfErr result (λ e. e ≡ Memory) }
    {
        self.owners.clear();
        'variables: for index in from..variables.len() {
            self.follow_variable(provider, variables, index)?;
        }
        Ok(())
    }
}
