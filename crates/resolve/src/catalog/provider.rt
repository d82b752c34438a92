//! The catalog as a provider.

ghost use Rattle.std.specs.Prelude.{◌≡◌, IfOk, IfErr, string_bytes};

use super::Catalog;
use super::texts::{range_text, versions_text};
use crate::ids::{NameId, Range, SolvableId, VersionSet};
use itertools::Itertools;
use resolver_clause_store::{
    Candidates, Condition, ConditionId, Dependencies, DependencyProvider, Exhausted,
    HintDependenciesAvailable, Interner, KnownDependencies, StringId, VersionSetId,
    VersionSetUnionId,
};
use std::convert::Infallible;

impl Catalog {
    ghost use Rattle.resolve.specs.Catalogs.{merged_text_of, rising_versions, version_set_at};

    /// Returns a version set; if there is none, all versions of the first package.
    fn version_set_of(&self, version_set: VersionSetId) -> VersionSet
        ensures { result ≡ version_set_at self.now.version_sets.keys version_set }
    {
        match self.version_sets.get_index(version_set.0 as usize) {
            None => VersionSet {
                name: NameId(0),
                range: Range::All,
            },
            Some(found) => *found,
        }
    }

    /// Returns the versions of solvables, from the lowest on.
    fn rising_versions(&self, solvables: &[SolvableId]) -> Result<Vec<u32>, Exhausted>
        ensures versions { IfOk result (λ versions. versions.items ≡ rising_versions self.now.packages.versions.keys solvables.now) }
        ensures memory { IfErr result (λ e. e ≡ Exhausted.Memory) }
    {
        let versions = solvables
            .iter()
            .map(|solvable| self.packages.version(*solvable))
            .sorted_unstable(self.alloc)?;
        Ok(versions.collect_vec(self.alloc)?)
    }

    /// Returns the name of the first solvable, followed by the versions of all of them.
    fn merged_text(&self, solvables: &[SolvableId]) -> Result<String, Exhausted>
        ensures text { IfOk result (λ text. string_bytes text ≡ merged_text_of self.now.names.keys self.now.packages.versions.keys solvables.now) }
        ensures memory { IfErr result (λ e. e ≡ Exhausted.Memory) }
    {
        let mut text = String::new(self.alloc);
        let Some(first) = solvables.first() else {
            return Ok(text);
        };
        self.display_name(self.packages.name(*first), &mut text)?;
        text.push_str(" ")?;
        let versions = self.rising_versions(solvables)?;
        let written = versions_text(self.alloc, versions.as_slice())?;
        text.push_str(written.as_str())?;
        Ok(text)
    }
}

impl Interner for Catalog {
    ghost use Rattle.resolve.specs.Catalogs.{catalog_universe};
    ghost use Rattle.resolve.specs.CatalogLaws.{catalog_ids_lawful, same_names, same_solvables, compares_solvables};

    type NameId = NameId;

    type SolvableId = SolvableId;

    ghost universe = { catalog_universe };

    ghost lawful_ids = { catalog_ids_lawful };

    ghost names_are_values = { same_names };

    ghost solvables_are_values = { same_solvables };

    ghost solvables_compare = { compares_solvables };

    fn solvable_name(&self, solvable: SolvableId) -> NameId {
        self.packages.name(solvable)
    }

    fn version_set_name(&self, version_set: VersionSetId) -> NameId {
        self.version_set_of(version_set).name
    }

    fn version_sets_in_union(&self, version_set_union: VersionSetUnionId) -> &[VersionSetId] {
        match self.unions.get_index(version_set_union.0 as usize) {
            None => &[],
            Some(members) => members.as_slice(),
        }
    }

    fn resolve_condition(&self, condition: ConditionId) -> Condition {
        self.conditions.get(condition)
    }

    fn display_name(&self, name: NameId, out: &mut String) -> Result<(), Exhausted> {
        if let Some(text) = self.names.get_index(name.0 as usize) {
            out.push_str(text.as_str())?;
        }
        Ok(())
    }

    fn display_version_set(
        &self,
        version_set: VersionSetId,
        out: &mut String,
    ) -> Result<(), Exhausted> {
        let text = range_text(self.alloc, self.version_set_of(version_set).range)?;
        out.push_str(text.as_str())?;
        Ok(())
    }

    fn display_string(&self, string: StringId, out: &mut String) -> Result<(), Exhausted> {
        if let Some(text) = self.strings.get_index(string.0 as usize) {
            out.push_str(text.as_str())?;
        }
        Ok(())
    }

    fn display_merged_solvables(
        &self,
        solvables: &[SolvableId],
        out: &mut String,
    ) -> Result<(), Exhausted> {
        let text = self.merged_text(solvables)?;
        out.push_str(text.as_str())?;
        Ok(())
    }
}

impl DependencyProvider for Catalog {
    ghost use Rattle.resolve.specs.CatalogLaws.{catalog_packages_lawful};

    type Cancel = Infallible;

    ghost may_cancel = { λ _ _. ⊥ };

    ghost lawful_packages = { catalog_packages_lawful };

    fn get_candidates(&self, name: NameId) -> Result<Option<Candidates<SolvableId>>, Exhausted> {
        let packages = &self.packages.packages;
        let place = name.0 as usize;
        if place >= packages.len() {
            return Ok(None);
        }
        let candidates = packages.candidates(self.alloc, place)?;
        let excluded = packages.excluded(self.alloc, place)?;
        Ok(Some(Candidates {
            candidates,
            favored: packages.favored(place),
            locked: packages.locked(place),
            hint_dependencies_available: HintDependenciesAvailable::None,
            excluded,
        }))
    }

    fn get_dependencies(&self, solvable: SolvableId) -> Result<Dependencies, Exhausted> {
        let solvables = &self.packages.solvables;
        let place = solvable.0 as usize;
        if place >= solvables.len() {
            return Ok(Dependencies::Known(KnownDependencies {
                requirements: Vec::new(self.alloc),
                constrains: Vec::new(self.alloc),
            }));
        }
        if let Some(reason) = solvables.unknown(place) {
            return Ok(Dependencies::Unknown(reason));
        }
        let requirements = solvables.requirements(self.alloc, place)?;
        let constrains = solvables.constraints(self.alloc, place)?;
        Ok(Dependencies::Known(KnownDependencies {
            requirements,
            constrains,
        }))
    }

    fn filter_candidates(
        &self,
        candidates: &[SolvableId],
        version_set: VersionSetId,
        inverse: bool,
    ) -> Result<Vec<SolvableId>, Exhausted> {
        let range = self.version_set_of(version_set).range;
        let mut kept = Vec::new(self.alloc);
        for candidate in candidates {
            if range.takes(self.packages.version(*candidate)) != inverse {
                kept.push(*candidate)?;
            }
        }
        Ok(kept)
    }

    fn sort_candidates(&self, candidates: &mut Vec<SolvableId>) -> Result<(), Exhausted> {
        self.packages.sort(candidates);
        Ok(())
    }

    fn should_cancel_with_value(&self) -> Option<Infallible> {
        None
    }
}
