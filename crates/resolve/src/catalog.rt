//! The catalog: tables of everything that was declared.

ghost use Rattle.std.specs.Prelude.{◌≡◌, ◌≤◌, IfErr, IfOk, IsTrue, OnOk, Some, length, slice_get};
ghost use Rattle.std.proofs.Props.{props};
ghost use Rattle.resolve.specs.Additions.{IsTableShortage};
ghost use Rattle.resolve.specs.Packages.{version_at};

mod links;
mod packages;
mod provider;
mod solvables;
mod tables;
#[cfg(test)]
mod tests;
mod texts;

use crate::ids::{NameId, Range, SolvableId, Version, VersionSet, found_id, id_of};
use indexmap::IndexSet;
use resolver_clause_store::{Exhausted, StringId, VersionSetId, VersionSetUnionId};
use std::alloc::Global;
use tables::{ConditionTable, PackageTable};

/// The packages, their versions, and everything else that was declared.
///
/// An id of another catalog does no harm: what is added to it is dropped.
#[derive(Drop)]
pub struct Catalog {
    alloc: Global,
    names: IndexSet<String>,
    pub packages: PackageTable,
    version_sets: IndexSet<VersionSet>,
    unions: IndexSet<Vec<VersionSetId>>,
    pub conditions: ConditionTable,
    strings: IndexSet<String>,
    ghost few: { length names.keys ≤ 4294967295 } by { Prim.hlevel props },
}

impl Catalog {
    ghost use Rattle.resolve.specs.Catalogs.{catalog_universe, names_in, no_tables, packages_in, strings_in};
    ghost use Rattle.resolve.specs.Catalogs.{tables_in, unions_in, version_sets_in, versions_in};
    ghost use Rattle.std.specs.Str.{bytes_eq};
    ghost use Rattle.resolve.specs.Interning.{Interns};
    ghost use Rattle.resolve.specs.Meaning.{name_id, same_members, same_set, solvable_in, with_name};
    ghost use Rattle.resolve.specs.Tables.{AreTables};

    /// Returns a catalog without declarations.
    pub fn new(alloc: Global) -> Catalog
        ensures { tables_in result ≡ no_tables }
    {
        Catalog {
            alloc,
            names: IndexSet::new(alloc),
            packages: PackageTable::new(alloc),
            version_sets: IndexSet::new(alloc),
            unions: IndexSet::new(alloc),
            conditions: ConditionTable::new(alloc),
            strings: IndexSet::new(alloc),
        }
    }

    /// Returns the package of a name, which is added if it is new. Equal names share a package.
    pub fn name(&mut self, text: &str) -> Result<NameId, Exhausted>
        ensures kept { tables_in self.new ≡ record (tables_in self.old) { names = names_in self.new; packages = packages_in self.new } }
        ensures refusal { IfErr result (IsTableShortage (length (names_in self.old))) }
        ensures exact { OnOk result (tables_in self.new ≡ with_name (tables_in self.old) text.now) }
        ensures id { IfOk result (λ id. id ≡ name_id (tables_in self.old) text.now) }
    {
        if let Some(known) = found_id(self.names.get_index_of(text)) {
            return Ok(NameId(known));
        }
        let name = NameId(id_of(self.names.len())?);
        let key = String::from_str(self.alloc, text)?;
        self.names.insert(key)?;
        if let Err(refusal) = self.packages.add_package() {
            self.names.pop();
            return Err(refusal);
        }
        Ok(name)
    }

    /// Returns the version with this number of the package with this name, if it was declared.
    pub fn find_solvable(&self, text: &str, number: u32) -> Option<SolvableId>
        ensures { AreTables (tables_in self.now) → result ≡ solvable_in (tables_in self.now) (record { name = text.now; version = number }) }
    {
        let name = NameId(found_id(self.names.get_index_of(text))?);
        let version = Version { name, number };
        let found = found_id(self.packages.versions.get_index_of(&version))?;
        Some(SolvableId(found))
    }

    /// Returns whether a solvable is this version of the package with this name.
    ///
    /// Comparing two texts costs less than looking a name up.
    pub fn is_version(&self, solvable: SolvableId, text: &str, number: u32) -> bool
        ensures { AreTables (tables_in self.now) → IsTrue result →
            solvable_in (tables_in self.now) (record { name = text.now; version = number }) ≡ Some solvable }
    {
        match self.packages.versions.get_index(solvable.0 as usize) {
            None => false,
            Some(version) => version.number == number && self.has_name(version.name, text),
        }
    }

    /// Returns whether a package has this name.
    fn has_name(&self, name: NameId, text: &str) -> bool
        ensures { IsTrue result → slice_get (names_in self.now) name.0 ≡ Some text.now }
    {
        match self.names.get_index(name.0 as usize) {
            None => false,
            Some(known) => known.as_str() == text,
        }
    }

    /// Returns the name of a solvable's package, and its version.
    pub fn label(&self, solvable: SolvableId) -> (&str, u32)
        ensures name { result.0.now ≡ (catalog_universe self.now).name_text ((catalog_universe self.now).name solvable) }
        ensures version { result.1 ≡ version_at (versions_in self.now) solvable }
    {
        let name = self.packages.name(solvable);
        let text = match self.names.get_index(name.0 as usize) {
            None => "",
            Some(text) => text.as_str(),
        };
        (text, self.packages.version(solvable))
    }

    /// Returns the set of versions of a package in a range. Equal sets share an id.
    pub fn version_set(&mut self, name: NameId, range: Range) -> Result<VersionSetId, Exhausted>
        ensures kept { tables_in self.new ≡ record (tables_in self.old) { version_sets = version_sets_in self.new } }
        ensures exact { IfOk result (λ id. Interns same_set (version_sets_in self.old) (version_sets_in self.new) (record { name = name; range = range }) id.0) }
        ensures refusal { IfErr result (IsTableShortage (length (version_sets_in self.old))) }
    {
        let (place, _) = self.version_sets.insert_full(VersionSet { name, range })?;
        Ok(VersionSetId(id_of(place)?))
    }

    /// Returns the union of version sets in this order. Equal unions share an id.
    pub fn union(&mut self, members: Vec<VersionSetId>) -> Result<VersionSetUnionId, Exhausted>
        ensures kept { tables_in self.new ≡ record (tables_in self.old) { unions = unions_in self.new } }
        ensures exact { IfOk result (λ id. Interns same_members (unions_in self.old) (unions_in self.new) members.items id.0) }
        ensures refusal { IfErr result (IsTableShortage (length (unions_in self.old))) }
    {
        let (place, _) = self.unions.insert_full(members)?;
        Ok(VersionSetUnionId(id_of(place)?))
    }

    /// Returns the id of a reason. Equal texts share an id.
    pub fn string(&mut self, text: &str) -> Result<StringId, Exhausted>
        ensures kept { tables_in self.new ≡ record (tables_in self.old) { strings = strings_in self.new } }
        ensures exact { IfOk result (λ id. Interns bytes_eq (strings_in self.old) (strings_in self.new) text.now id.0) }
        ensures refusal { IfErr result (IsTableShortage (length (strings_in self.old))) }
    {
        let key = String::from_str(self.alloc, text)?;
        let (place, _) = self.strings.insert_full(key)?;
        Ok(StringId(id_of(place)?))
    }
}
