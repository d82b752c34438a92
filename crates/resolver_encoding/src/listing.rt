//! Lists of rules that have each instance of a package once.

ghost use Rattle.std.specs.Prelude.{◌≡◌, [], IfErr, OnOk, map};
ghost use Rattle.resolver_clause_store.specs.Laws.{IsIdentity};
ghost use Rattle.resolver_clause_store.specs.Statements.{constrains, excluded, lock, one_per_package, requires};

use indexmap::IndexSet;
use resolver_clause_store::{
    By, Exhausted, Requirement, Rule, StringId, VersionSetId, append, is_among,
};
use std::alloc::Global;
use std::hash::Hash;

/// An instance of a package, as a rule `OnePerPackage` lists it.
#[derive(Clone, Copy, PartialEq, Eq, Hash)]
pub(crate) struct Instance<N, S> {
    pub name: N,
    pub instance: S,
}

/// Rules in the order in which they were added, and the instances that they list.
#[derive(Drop)]
pub(crate) struct Listing<N: Copy + Eq + Hash + Drop, S: Copy + Eq + Hash + Drop> {
    alloc: Global,
    rules: Vec<Rule<N, S>>,
    instances: IndexSet<Instance<N, S>>,
}

impl<N: Copy + Eq + Hash + Drop, S: Copy + Eq + Hash + Drop> Listing<N, S> {
    ghost use Rattle.resolver_encoding.specs.Listing.{AddsRules, HasInstances};

    /// Returns an empty list.
    pub(crate) fn new(alloc: Global) -> Self
        ensures instances { HasInstances result }
        ensures none { result.rules.items ≡ [] }
    {
        Listing {
            alloc,
            rules: Vec::new(alloc),
            instances: IndexSet::new(alloc),
        }
    }

    /// Returns the allocator of the rules.
    pub(crate) fn allocator(&self) -> Global {
        self.alloc
    }

    /// Returns the rules.
    pub(crate) fn into_rules(self) -> Vec<Rule<N, S>>
        ensures { result ≡ self.rules }
    {
        self.rules
    }

    /// Adds a requirement.
    pub(crate) fn require(
        &mut self,
        by: By<S>,
        requirement: Requirement,
        candidates: Vec<S>,
        when: Vec<Vec<S>>,
    ) -> Result<(), Exhausted>
        requires { HasInstances self.old }
        ensures added { OnOk result (AddsRules (λ st. st ≡ requires by requirement candidates.items (map (λ list. list.items) when.items)) self.old self.new) }
        ensures memory { IfErr result (λ e. e ≡ Exhausted.Memory) }
    {
        self.rules.push(Rule::Requires {
            by,
            requirement,
            candidates,
            when,
        })?;
        Ok(())
    }

    /// Adds a constraint with a candidate that it excludes.
    pub(crate) fn constrain(
        &mut self,
        by: By<S>,
        version_set: VersionSetId,
        candidate: S,
    ) -> Result<(), Exhausted>
        requires { HasInstances self.old }
        ensures added { OnOk result (AddsRules (λ st. st ≡ constrains by version_set candidate) self.old self.new) }
        ensures memory { IfErr result (λ e. e ≡ Exhausted.Memory) }
    {
        self.rules.push(Rule::Constrains {
            by,
            version_set,
            candidate,
        })?;
        Ok(())
    }

    /// Adds a lock.
    pub(crate) fn lock(&mut self, locked: S, forbidden: S) -> Result<(), Exhausted>
        requires { HasInstances self.old }
        ensures added { OnOk result (AddsRules (λ st. st ≡ lock locked forbidden) self.old self.new) }
        ensures memory { IfErr result (λ e. e ≡ Exhausted.Memory) }
    {
        self.rules.push(Rule::Lock { locked, forbidden })?;
        Ok(())
    }

    /// Adds an exclusion.
    pub(crate) fn exclude(&mut self, solvable: S, reason: StringId) -> Result<(), Exhausted>
        requires { HasInstances self.old }
        ensures added { OnOk result (AddsRules (λ st. st ≡ excluded solvable reason) self.old self.new) }
        ensures memory { IfErr result (λ e. e ≡ Exhausted.Memory) }
    {
        self.rules.push(Rule::Excluded { solvable, reason })?;
        Ok(())
    }

    /// Adds a rule `OnePerPackage` for an instance, unless it is listed.
    pub(crate) fn list_instance(&mut self, name: N, instance: S) -> Result<(), Exhausted>
        requires names { IsIdentity N.eq }
        requires solvables { IsIdentity S.eq }
        requires instances { HasInstances self.old }
        ensures added { OnOk result (AddsRules (λ st. st ≡ one_per_package name instance) self.old self.new) }
        ensures memory { IfErr result (λ e. e ≡ Exhausted.Memory) }
    {
        let listed = Instance { name, instance };
        if is_among(&self.instances, &listed) {
            return Ok(());
        }
        append(&mut self.instances, listed)?;
        self.rules.push(Rule::OnePerPackage { name, instance })?;
        Ok(())
    }
}
