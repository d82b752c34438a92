//! A small provider that logs the calls to it.
//!
//! Package n has the solvables 10 n + 1 to 10 n + 3, and favors the first. Version set 10 n + k has those up to 10 n +
//! k.

ghost use Rattle.std.specs.Prelude.{◌≡◌, refl};
ghost use Rattle.resolver_clause_store.specs.Laws.{numbers_are_values};
ghost use Rattle.resolve.specs.NotingProvider.{
  takes,
  test_ids_lawful,
  test_packages_lawful,
  test_universe,
};

use resolver_clause_store::{
    Candidates, Condition, ConditionId, Dependencies, DependencyProvider, Exhausted,
    HintDependenciesAvailable, Interner, KnownDependencies, StringId, VersionSetId,
    VersionSetUnionId,
};
use std::alloc::Global;
use std::cell::Cell;

#[derive(Drop)]
pub struct NotingProvider {
    pub alloc: Global,
    /// The version sets of each union.
    pub members: Vec<VersionSetId>,
    /// Whether the next cancel check stops the search.
    pub cancels: Cell<bool>,
    /// The digits name the calls in order: 1 a cancel check, 2 the candidates, 3 the dependencies, 4 a filter, 5 a
    /// sort.
    pub log: Cell<u64>,
}

impl NotingProvider {
    fn note(&self, question: u64) {
        self.log
            .set(self.log.get().wrapping_mul(10).wrapping_add(question));
    }
}

impl Interner for NotingProvider {
    type NameId = u32;

    type SolvableId = u32;

    ghost universe = { λ it. test_universe it.members.items };

    ghost lawful_ids = { λ it. test_ids_lawful it.members.items };

    ghost names_are_values = { numbers_are_values };

    ghost solvables_are_values = { numbers_are_values };

    ghost solvables_compare = { λ it. refl };

    fn solvable_name(&self, solvable: u32) -> u32 {
        solvable / 10
    }

    fn version_set_name(&self, version_set: VersionSetId) -> u32 {
        version_set.0 / 10
    }

    fn version_sets_in_union(&self, _version_set_union: VersionSetUnionId) -> &[VersionSetId] {
        &self.members
    }

    fn resolve_condition(&self, condition: ConditionId) -> Condition {
        Condition::Requirement(VersionSetId(condition.0))
    }

    fn display_name(&self, _name: u32, out: &mut String) -> Result<(), Exhausted> {
        out.push_str("package")?;
        Ok(())
    }

    fn display_version_set(
        &self,
        _version_set: VersionSetId,
        out: &mut String,
    ) -> Result<(), Exhausted> {
        out.push_str("*")?;
        Ok(())
    }

    fn display_string(&self, _string: StringId, out: &mut String) -> Result<(), Exhausted> {
        out.push_str("reason")?;
        Ok(())
    }

    fn display_merged_solvables(
        &self,
        _solvables: &[u32],
        out: &mut String,
    ) -> Result<(), Exhausted> {
        out.push_str("versions")?;
        Ok(())
    }
}

impl DependencyProvider for NotingProvider {
    type Cancel = u8;

    ghost may_cancel = { λ _ value. value ≡ 42 };

    ghost lawful_packages = { λ it. test_packages_lawful it.members.items };

    fn get_candidates(&self, name: u32) -> Result<Option<Candidates<u32>>, Exhausted> {
        self.note(2);
        if name >= 100 {
            return Ok(None);
        }
        let first = 10 * name + 1;
        Ok(Some(Candidates {
            candidates: Vec::from_array(self.alloc, [first, first + 1, first + 2])?,
            favored: Some(first),
            locked: None,
            hint_dependencies_available: HintDependenciesAvailable::Some(Vec::from_array(
                self.alloc,
                [first + 1],
            )?),
            excluded: Vec::new(self.alloc),
        }))
    }

    fn get_dependencies(&self, solvable: u32) -> Result<Dependencies, Exhausted> {
        self.note(3);
        if solvable % 10 == 3 {
            return Ok(Dependencies::Unknown(StringId(9)));
        }
        Ok(Dependencies::Known(KnownDependencies {
            requirements: Vec::new(self.alloc),
            constrains: Vec::new(self.alloc),
        }))
    }

    fn filter_candidates(
        &self,
        candidates: &[u32],
        version_set: VersionSetId,
        inverse: bool,
    ) -> Result<Vec<u32>, Exhausted> {
        self.note(4);
        let mut kept = Vec::new(self.alloc);
        for solvable in candidates {
            if (*solvable % 10 <= version_set.0 % 10) != inverse {
                kept.push(*solvable)?;
            }
        }
        Ok(kept)
    }

    fn sort_candidates(&self, candidates: &mut Vec<u32>) -> Result<(), Exhausted> {
        self.note(5);
        candidates.reverse();
        Ok(())
    }

    fn should_cancel_with_value(&self) -> Option<u8> {
        self.note(1);
        if self.cancels.replace(false) {
            Some(42)
        } else {
            None
        }
    }
}
