//! A provider without packages, for a clause search that is never stopped.

ghost use Rattle.std.specs.Prelude.{refl};
ghost use Rattle.resolver_clause_store.specs.Laws.{numbers_are_values};
ghost use Rattle.resolvo.specs.NoPackages.{empty_ids_lawful, empty_packages_lawful, empty_universe};

use resolver_clause_store::{
    Candidates, Condition, ConditionId, Dependencies, DependencyProvider, Exhausted, Interner,
    StringId, VersionSetId, VersionSetUnionId,
};
use std::alloc::Global;

/// A provider that knows no package and never stops a search.
#[derive(Drop)]
pub struct NoPackages {
    pub alloc: Global,
}

impl Interner for NoPackages {
    type NameId = u32;

    type SolvableId = u32;

    ghost universe = { λ _. empty_universe };

    ghost lawful_ids = { λ _. empty_ids_lawful };

    ghost names_are_values = { numbers_are_values };

    ghost solvables_are_values = { numbers_are_values };

    ghost solvables_compare = { λ _. refl };

    fn solvable_name(&self, solvable: u32) -> u32 {
        solvable
    }

    fn version_set_name(&self, version_set: VersionSetId) -> u32 {
        version_set.0
    }

    fn version_sets_in_union(&self, _version_set_union: VersionSetUnionId) -> &[VersionSetId] {
        &[]
    }

    fn resolve_condition(&self, _condition: ConditionId) -> Condition {
        Condition::Requirement(VersionSetId(0))
    }

    fn display_name(&self, _name: u32, _out: &mut String) -> Result<(), Exhausted> {
        Ok(())
    }

    fn display_version_set(
        &self,
        _version_set: VersionSetId,
        _out: &mut String,
    ) -> Result<(), Exhausted> {
        Ok(())
    }

    fn display_string(&self, _string: StringId, _out: &mut String) -> Result<(), Exhausted> {
        Ok(())
    }

    fn display_merged_solvables(
        &self,
        _solvables: &[u32],
        _out: &mut String,
    ) -> Result<(), Exhausted> {
        Ok(())
    }
}

impl DependencyProvider for NoPackages {
    type Cancel = u8;

    ghost may_cancel = { λ _ _. ⊥ };

    ghost lawful_packages = { λ _. empty_packages_lawful };

    fn get_candidates(&self, _name: u32) -> Result<Option<Candidates<u32>>, Exhausted> {
        Ok(None)
    }

    fn get_dependencies(&self, _solvable: u32) -> Result<Dependencies, Exhausted> {
        Ok(Dependencies::Unknown(StringId(0)))
    }

    fn filter_candidates(
        &self,
        candidates: &[u32],
        _version_set: VersionSetId,
        inverse: bool,
    ) -> Result<Vec<u32>, Exhausted> {
        let mut kept = Vec::new(self.alloc);
        if !inverse {
            kept.extend_from_slice(candidates)?;
        }
        Ok(kept)
    }

    fn sort_candidates(&self, _candidates: &mut Vec<u32>) -> Result<(), Exhausted> {
        Ok(())
    }

    fn should_cancel_with_value(&self) -> Option<u8> {
        None
    }
}
