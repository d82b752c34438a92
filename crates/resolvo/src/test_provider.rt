//! A small provider.
//!
//! Package n has the solvables 10 n + 1 and 10 n + 4, the later one preferred. Version set 10 n + k has 10 n + k, and
//! with k = 0 both. Package 7 is locked to 71, package 8 excludes 84, and the dependencies of 94 are unknown. Packages
//! 10 to 19 hint that the dependencies of all their solvables are cheap. A condition below 1000 is a version set, and
//! 1000 n + k joins the conditions n and k: by "and" if n ends in 4, otherwise by "or".

ghost use Rattle.std.specs.Prelude.{◌≡◌, IfErr, IfOk, refl};
ghost use Rattle.resolver_clause_store.specs.Laws.{numbers_are_values};
ghost use Rattle.resolver_clause_store.specs.Universe.{hint_of as hint_in};
ghost use Rattle.resolvo.specs.TestProvider.{
  hint_by,
  stated_by as stated_in,
  takes as takes_in,
  test_ids_lawful,
  test_packages_lawful,
  test_universe,
};

use resolver_clause_store::{
    Candidates, Condition, ConditionId, ConditionalRequirement, Dependencies, DependencyProvider,
    Exhausted, HintDependenciesAvailable, Interner, KnownDependencies, LogicalOperator,
    Requirement, StringId, VersionSetId, VersionSetUnionId,
};
use std::alloc::Global;
use std::cell::Cell;

#[derive(Drop)]
pub struct TestProvider {
    pub alloc: Global,
    /// The requirements of each solvable.
    pub requirements: Vec<(u32, ConditionalRequirement)>,
    /// The constraints of each solvable.
    pub constraints: Vec<(u32, VersionSetId)>,
    /// The cancel check that stops the search: 1 for the next one, 0 for none.
    pub cancelling: Cell<u32>,
    /// The digits name the packages that were asked for their candidates, in order.
    pub log: Cell<u32>,
}

impl TestProvider {
    fn note(&self, name: u32) {
        self.log
            .set(self.log.get().wrapping_mul(10).wrapping_add(name));
    }
}

/// Returns the hint of a package about the dependencies of its solvables.
fn hint_of(name: u32) -> HintDependenciesAvailable<u32>
    ensures { hint_in result ≡ hint_by name }
{
    if name / 10 == 1 {
        return HintDependenciesAvailable::All;
    }
    HintDependenciesAvailable::None
}

/// Returns the statements about a solvable.
fn stated_by<T: Copy + Drop>(
    alloc: Global,
    statements: &[(u32, T)],
    solvable: u32,
) -> Result<Vec<T>, Exhausted>
    ensures value { IfOk result (λ stated. stated.items ≡ stated_in statements.now solvable) }
    ensures memory { IfErr result (λ e. e ≡ Exhausted.Memory) }
{
    let mut stated = Vec::new(alloc);
    for (owner, statement) in statements {
        if *owner == solvable {
            stated.push(*statement)?;
        }
    }
    Ok(stated)
}

/// Returns whether a solvable of its package is in a version set.
fn takes(version_set: VersionSetId, solvable: u32) -> bool
    ensures { result ≡ takes_in version_set solvable }
{
    if version_set.0 % 10 == 0 {
        return true;
    }
    solvable % 10 == version_set.0 % 10
}

impl Interner for TestProvider {
    type NameId = u32;

    type SolvableId = u32;

    ghost universe = { λ it. test_universe it.requirements.items it.constraints.items };

    ghost lawful_ids = { λ it. test_ids_lawful it.requirements.items it.constraints.items };

    ghost names_are_values = { numbers_are_values };

    ghost solvables_are_values = { numbers_are_values };

    ghost solvables_compare = { λ it. refl };

    fn solvable_name(&self, solvable: u32) -> u32 {
        solvable / 10
    }

    fn version_set_name(&self, version_set: VersionSetId) -> u32 {
        version_set.0 / 10
    }

    fn version_sets_in_union(&self, _version_set_union: VersionSetUnionId) -> &[VersionSetId] {
        &[]
    }

    fn resolve_condition(&self, condition: ConditionId) -> Condition {
        if condition.0 < 1000 {
            return Condition::Requirement(VersionSetId(condition.0));
        }
        let left = ConditionId(condition.0 / 1000);
        let right = ConditionId(condition.0 % 1000);
        if left.0 % 10 == 4 {
            return Condition::Binary(LogicalOperator::And, left, right);
        }
        Condition::Binary(LogicalOperator::Or, left, right)
    }

    fn display_name(&self, _name: u32, _out: &mut String) -> Result<(), Exhausted> {
        Ok(())
    }

    fn display_version_set(
        &self,
        _version_set: VersionSetId,
        _out: &mut String,
    ) -> Result<(), Exhausted> {
        Ok(())
    }

    fn display_string(&self, _string: StringId, _out: &mut String) -> Result<(), Exhausted> {
        Ok(())
    }

    fn display_merged_solvables(
        &self,
        _solvables: &[u32],
        _out: &mut String,
    ) -> Result<(), Exhausted> {
        Ok(())
    }
}

impl DependencyProvider for TestProvider {
    type Cancel = u8;

    ghost may_cancel = { λ _ value. value ≡ 7 };

    ghost lawful_packages = { λ it. test_packages_lawful it.requirements.items it.constraints.items };

    fn get_candidates(&self, name: u32) -> Result<Option<Candidates<u32>>, Exhausted> {
        self.note(name);
        if name >= 100 {
            return Ok(None);
        }
        let first = 10 * name + 1;
        let last = 10 * name + 4;
        let mut excluded = Vec::new(self.alloc);
        if name == 8 {
            excluded.push((last, StringId(5)))?;
        }
        Ok(Some(Candidates {
            candidates: Vec::from_array(self.alloc, [first, last])?,
            favored: None,
            locked: if name == 7 { Some(first) } else { None },
            hint_dependencies_available: hint_of(name),
            excluded,
        }))
    }

    fn get_dependencies(&self, solvable: u32) -> Result<Dependencies, Exhausted> {
        if solvable == 94 {
            return Ok(Dependencies::Unknown(StringId(6)));
        }
        let requirements = stated_by(self.alloc, &self.requirements, solvable)?;
        let constrains = stated_by(self.alloc, &self.constraints, solvable)?;
        Ok(Dependencies::Known(KnownDependencies {
            requirements,
            constrains,
        }))
    }

    fn filter_candidates(
        &self,
        candidates: &[u32],
        version_set: VersionSetId,
        inverse: bool,
    ) -> Result<Vec<u32>, Exhausted> {
        let mut kept = Vec::new(self.alloc);
        for solvable in candidates {
            if takes(version_set, *solvable) != inverse {
                kept.push(*solvable)?;
            }
        }
        Ok(kept)
    }

    fn sort_candidates(&self, candidates: &mut Vec<u32>) -> Result<(), Exhausted> {
        candidates.reverse();
        Ok(())
    }

    fn should_cancel_with_value(&self) -> Option<u8> {
        let place = self.cancelling.get();
        self.cancelling.set(place.saturating_sub(1));
        if place == 1 { Some(7) } else { None }
    }
}
