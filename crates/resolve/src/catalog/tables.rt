//! Tables of packages with their versions, and of conditions.

ghost use Rattle.std.specs.Prelude.{◌≡◌, ◌<◌, ◌≤◌, ◌++◌, ◌∷◌, [], length, IfOk, IfErr, IfNone, IfSome, MatchBool, OnErr, OnOk};
ghost use Rattle.std.proofs.Props.{props};
ghost use Rattle.resolve.specs.Additions.{IsTableShortage};
ghost use Rattle.resolve.specs.Listings.{no_versions};
ghost use Rattle.resolve.specs.Packages.{ArePackagesOf, IsConstrained, IsFavorRefused, IsFavored, IsLockRefused, IsLocked, IsMadeUnknown};
ghost use Rattle.resolve.specs.Packages.{IsReasonRefused, IsRequired, IsVersionOf, IsWithoutPackage, name_at, version_at, preference};
ghost use Rattle.resolver_clause_store.specs.Sorting.{sorted_by};
ghost use Rattle.resolve.specs.Conditions.{ArePartsLower, JoinsParts, condition_at};

use super::packages::Packages;
use super::solvables::Solvables;
use crate::ids::{NameId, SolvableId, Version, id_of};
use indexmap::IndexSet;
use resolver_clause_store::{
    Condition, ConditionId, ConditionalRequirement, Exhausted, LogicalOperator, StringId,
    VersionSetId,
};
use std::alloc::Global;
use std::cmp::Ordering;

/// All packages and all their versions, with a solvable at the place of each version.
#[derive(Drop)]
pub struct PackageTable {
    pub packages: Packages,
    pub versions: IndexSet<Version>,
    pub solvables: Solvables,
    ghost lawful: { ArePackagesOf versions.keys packages } by { Prim.hlevel props },
    ghost few: { length versions.keys ≤ 4294967295 } by { Prim.hlevel props },
}

impl PackageTable {
    ghost use Rattle.resolve.specs.Catalogs.{ChangesPackage, DeclaresVersion, ExcludesSolvable};

    /// Returns a table without packages.
    pub fn new(alloc: Global) -> PackageTable
        ensures packages { result.packages ≡ [] }
        ensures versions { result.versions.keys ≡ [] }
        ensures solvables { result.solvables ≡ [] }
    {
        PackageTable {
            packages: Packages::new(alloc),
            versions: IndexSet::new(alloc),
            solvables: Solvables::new(alloc),
        }
    }

    /// Returns the package of a solvable; the first package if there is no such solvable.
    pub fn name(&self, solvable: SolvableId) -> NameId
        ensures { result ≡ name_at self.now.versions.keys solvable }
    {
        match self.versions.get_index(solvable.0 as usize) {
            None => NameId(0),
            Some(found) => found.name,
        }
    }

    /// Returns the version of a solvable; 0 if there is no such solvable.
    pub fn version(&self, solvable: SolvableId) -> u32
        ensures { result ≡ version_at self.now.versions.keys solvable }
    {
        match self.versions.get_index(solvable.0 as usize) {
            None => 0,
            Some(found) => found.number,
        }
    }

    /// Compares two solvables by preference: the preferred one is less.
    pub fn compare(&self, one: SolvableId, other: SolvableId) -> Ordering
        ensures { result ≡ preference self.now.versions.keys one other }
    {
        let by_version = self.version(other).cmp(&self.version(one));
        by_version.then(one.0.cmp(&other.0))
    }

    /// Sorts solvables by preference, from the highest version on.
    pub fn sort(&self, solvables: &mut Vec<SolvableId>)
        ensures { solvables.new.items ≡ sorted_by (preference self.now.versions.keys) solvables.old.items }
    {
        solvables.sort_unstable_by(|one, other| self.compare(*one, *other));
    }

    /// Adds a package without versions.
    pub fn add_package(&mut self) -> Result<(), Exhausted>
        ensures added { OnOk result (self.new.packages ≡ self.old.packages ++ no_versions ∷ []) }
        ensures unchanged { OnErr result (self.new.packages ≡ self.old.packages) }
        ensures kept { (self.new.versions.keys ≡ self.old.versions.keys) × (self.new.solvables ≡ self.old.solvables) }
        ensures memory { IfErr result (λ e. e ≡ Exhausted.Memory) }
    {
        self.packages.add()?;
        Ok(())
    }

    /// Declares a version of a package, and lists it as the package's last candidate.
    ///
    /// Returns `false` if it was declared before, or if there is no such package.
    /// An error may leave the version declared, and not listed.
    pub fn add_version(&mut self, name: NameId, number: u32) -> Result<bool, Exhausted>
        ensures declared { IfOk result (DeclaresVersion self.old self.new (record { name = name; number = number })) }
        ensures refusal { IfErr result (IsTableShortage (length self.old.versions.keys)) }
    {
        let version = Version { name, number };
        let package = name.0 as usize;
        if package >= self.packages.len() || self.versions.contains(&version) {
            return Ok(false);
        }
        let id = SolvableId(id_of(self.versions.len())?);
        self.solvables.add()?;
        self.versions.insert(version)?;
        self.packages.list(package, id)?;
        Ok(true)
    }

    /// Adds a requirement to a solvable.
    #[inline(always)]
    pub fn add_requirement(
        &mut self,
        solvable: SolvableId,
        requirement: ConditionalRequirement,
    ) -> Result<(), Exhausted>
        ensures added { OnOk result (solvable.0 < length self.old.solvables →
            IsRequired self.old.solvables self.new.solvables solvable requirement) }
        ensures dropped { OnOk result (length self.old.solvables ≤ solvable.0 → self.new.solvables ≡ self.old.solvables) }
        ensures kept { (self.new.versions.keys ≡ self.old.versions.keys) × (self.new.packages ≡ self.old.packages) }
        ensures memory { IfErr result (λ e. e ≡ Exhausted.Memory) }
    {
        let place = solvable.0 as usize;
        if place >= self.solvables.len() {
            return Ok(());
        }
        self.solvables.require(place, requirement)?;
        Ok(())
    }

    /// Adds a constraint to a solvable.
    pub fn add_constraint(
        &mut self,
        solvable: SolvableId,
        constraint: VersionSetId,
    ) -> Result<(), Exhausted>
        ensures added { OnOk result (solvable.0 < length self.old.solvables →
            IsConstrained self.old.solvables self.new.solvables solvable constraint) }
        ensures dropped { OnOk result (length self.old.solvables ≤ solvable.0 → self.new.solvables ≡ self.old.solvables) }
        ensures kept { (self.new.versions.keys ≡ self.old.versions.keys) × (self.new.packages ≡ self.old.packages) }
        ensures memory { IfErr result (λ e. e ≡ Exhausted.Memory) }
    {
        let place = solvable.0 as usize;
        if place >= self.solvables.len() {
            return Ok(());
        }
        self.solvables.constrain(place, constraint)?;
        Ok(())
    }

    /// Makes the dependencies of a solvable unknown for a reason.
    ///
    /// Its requirements and constraints are then hidden from the solver. Returns `false` if it has a reason already, or
    /// if there is no such solvable.
    pub fn set_unknown(&mut self, solvable: SolvableId, reason: StringId) -> bool
        ensures unknown { MatchBool result (IsMadeUnknown self.old.solvables self.new.solvables solvable reason)
            (IsReasonRefused self.old.solvables self.new.solvables solvable) }
        ensures kept { (self.new.versions.keys ≡ self.old.versions.keys) × (self.new.packages ≡ self.old.packages) }
    {
        let place = solvable.0 as usize;
        if place >= self.solvables.len() || self.solvables.unknown(place).is_some() {
            return false;
        }
        self.solvables.set_unknown(place, reason);
        true
    }

    /// Returns the place of a solvable's package, if both are in the table.
    fn package_place(&self, solvable: SolvableId) -> Option<usize>
        ensures within { IfSome result (λ place. place < length self.now.packages) }
        ensures version { IfSome result (λ place. IsVersionOf self.now.versions.keys place solvable) }
        ensures absent { IfNone result (IsWithoutPackage self.now.versions.keys self.now.packages solvable) }
    {
        let version = self.versions.get_index(solvable.0 as usize)?;
        let package = version.name.0 as usize;
        if package >= self.packages.len() {
            return None;
        }
        Some(package)
    }

    /// Favors a solvable. Returns `false` if its package has a favored solvable already, or does not exist.
    pub fn favor(&mut self, solvable: SolvableId) -> bool
        ensures favored { ChangesPackage IsFavored IsFavorRefused self.old self.new solvable result }
        ensures kept { (self.new.versions.keys ≡ self.old.versions.keys) × (self.new.solvables ≡ self.old.solvables) }
    {
        let Some(place) = self.package_place(solvable) else {
            return false;
        };
        if self.packages.favored(place).is_some() {
            return false;
        }
        self.packages.favor(place, solvable);
        true
    }

    /// Locks the package of a solvable to it. Returns `false` if the package is locked already, or does not exist.
    pub fn lock(&mut self, solvable: SolvableId) -> bool
        ensures locked { ChangesPackage IsLocked IsLockRefused self.old self.new solvable result }
        ensures kept { (self.new.versions.keys ≡ self.old.versions.keys) × (self.new.solvables ≡ self.old.solvables) }
    {
        let Some(place) = self.package_place(solvable) else {
            return false;
        };
        if self.packages.locked(place).is_some() {
            return false;
        }
        self.packages.lock(place, solvable);
        true
    }

    /// Excludes a solvable for a reason. Returns `false` if it is excluded already, or does not exist.
    pub fn exclude(&mut self, solvable: SolvableId, reason: StringId) -> Result<bool, Exhausted>
        ensures excluded { IfOk result (ExcludesSolvable self.old self.new solvable reason) }
        ensures kept { self.new.versions.keys ≡ self.old.versions.keys }
        ensures memory { IfErr result (λ e. e ≡ Exhausted.Memory) }
    {
        let Some(package) = self.package_place(solvable) else {
            return Ok(false);
        };
        let place = solvable.0 as usize;
        if place >= self.solvables.len() || self.solvables.is_excluded(place) {
            return Ok(false);
        }
        self.packages.exclude(package, solvable, reason)?;
        self.solvables.exclude(place);
        Ok(true)
    }
}

/// All conditions. The parts of a condition come before it.
#[derive(Drop)]
pub struct ConditionTable {
    pub conditions: Vec<Condition>,
    ghost lawful: { ArePartsLower conditions.items } by { Prim.hlevel props },
}

impl ConditionTable {
    /// Returns a table without conditions.
    pub fn new(alloc: Global) -> ConditionTable
        ensures { result.conditions.items ≡ [] }
    {
        ConditionTable {
            conditions: Vec::new(alloc),
        }
    }

    /// Returns a condition, or a condition on the first version set if there is no such condition.
    pub fn get(&self, condition: ConditionId) -> Condition
        ensures { result ≡ condition_at self.now.conditions.items condition }
    {
        match self.conditions.get(condition.0 as usize) {
            None => Condition::Requirement(VersionSetId(0)),
            Some(found) => *found,
        }
    }

    /// Adds a condition that holds if a candidate of the version set is chosen.
    pub fn add_on(&mut self, version_set: VersionSetId) -> Result<ConditionId, Exhausted>
        ensures id { IfOk result (λ id. id.0 ≡ length self.old.conditions.items) }
        ensures added { OnOk result (self.new.conditions.items ≡ self.old.conditions.items ++ Condition.Requirement version_set ∷ []) }
        ensures refusal { IfErr result (IsTableShortage (length self.old.conditions.items)) }
    {
        let id = ConditionId(id_of(self.conditions.len())?);
        self.conditions.push(Condition::Requirement(version_set))?;
        Ok(id)
    }

    /// Adds a condition that joins two others. Returns `None` if one of them is not in the table.
    pub fn add_of(
        &mut self,
        operator: LogicalOperator,
        left: ConditionId,
        right: ConditionId,
    ) -> Result<Option<ConditionId>, Exhausted>
        ensures joined { IfOk result (JoinsParts self.old.conditions.items self.new.conditions.items operator left right) }
        ensures refusal { IfErr result (IsTableShortage (length self.old.conditions.items)) }
    {
        let count = self.conditions.len();
        if left.0 as usize >= count || right.0 as usize >= count {
            return Ok(None);
        }
        let id = ConditionId(id_of(count)?);
        self.conditions
            .push(Condition::Binary(operator, left, right))?;
        Ok(Some(id))
    }
}
