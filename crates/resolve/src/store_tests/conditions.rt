//! The order of the disjuncts.

ghost use Rattle.std.specs.Prelude.{◌+◌, ◌-◌, ◌*◌, cond, nat_eq, nat_lt, [], None, refl};
ghost use Rattle.std.proofs.Common.{rules};
ghost use Rattle.std.proofs.lemmas.Bool.{eqb-true, eq-eqb};
ghost use Rattle.resolver_clause_store.specs.Universe.{known, hint_none};
ghost use Rattle.resolver_clause_store.specs.declared.LogicalOperator.TheVariants.{And, Or};
ghost use Rattle.resolver_clause_store.specs.declared.Condition.TheVariants.{Requirement as Matched, Binary};

use resolver_clause_store::{
    Condition, ConditionId, Exhausted, Interner, LogicalOperator, StringId, VersionSetId,
    VersionSetUnionId, convert_conditions_to_dnf,
};
use std::test::Fail;

/// A provider of conditions: those below 3 join the two below them in a tree, the first by And, the others by Or.
struct Tree;

impl Interner for Tree {
    type NameId = u32;

    type SolvableId = u32;

    ghost universe = { λ it. record {
      name = λ s. s;
      version_set_name = λ v. v.0;
      union_members = λ m. [];
      condition = λ c. cond (nat_lt c.0 3)
          (Binary (cond (nat_eq c.0 0) And Or) (record { 0 = 2 * c.0 + 1 }) (record { 0 = 2 * c.0 + 2 }))
          (Matched (record { 0 = c.0 }));
      condition_rank = λ c. 7 - c.0;
      same_solvable = nat_eq;
      name_text = λ n. [];
      version_set_text = λ v. [];
      string_text = λ r. [];
      merged_text = λ xs. [];
      package_named = λ n. record { listed = []; favored = None; locked = None; excluded = []; hint = hint_none };
      needs = λ s. known (record { requirements = []; constraints = [] });
      matching_of = λ xs v. [];
      others_of = λ xs v. xs;
      sorted_of = λ xs. xs;
    } };

    ghost lawful_ids = { Prim.search rules };

    ghost names_are_values = { record { alone = eqb-true; itself = λ a. eq-eqb a a refl } };

    ghost solvables_are_values = { record { alone = eqb-true; itself = λ a. eq-eqb a a refl } };

    ghost solvables_compare = { λ it. refl };

    fn solvable_name(&self, solvable: u32) -> u32 {
        solvable
    }

    fn version_set_name(&self, version_set: VersionSetId) -> u32 {
        version_set.0
    }

    fn version_sets_in_union(&self, _version_set_union: VersionSetUnionId) -> &[VersionSetId] {
        &[]
    }

    fn resolve_condition(&self, condition: ConditionId) -> Condition {
        if condition.0 >= 3 {
            return Condition::Requirement(VersionSetId(condition.0));
        }
        let left = ConditionId(2 * condition.0 + 1);
        let right = ConditionId(2 * condition.0 + 2);
        if condition.0 == 0 {
            Condition::Binary(LogicalOperator::And, left, right)
        } else {
            Condition::Binary(LogicalOperator::Or, left, right)
        }
    }

    fn display_name(&self, _name: u32, _out: &mut String) -> Result<(), Exhausted> {
        Ok(())
    }

    fn display_version_set(
        &self,
        _version_set: VersionSetId,
        _out: &mut String,
    ) -> Result<(), Exhausted> {
        Ok(())
    }

    fn display_string(&self, _string: StringId, _out: &mut String) -> Result<(), Exhausted> {
        Ok(())
    }

    fn display_merged_solvables(
        &self,
        _solvables: &[u32],
        _out: &mut String,
    ) -> Result<(), Exhausted> {
        Ok(())
    }
}

#[test]
fn left_parts_come_first(rt: HostRuntime) -> Result<(), Fail> {
    let disjuncts = convert_conditions_to_dnf(rt.alloc(), &Tree, ConditionId(0))?;
    assert_eq!(rt; disjuncts.len(), 4);
    for (i, (left, right)) in [(3, 5), (3, 6), (4, 5), (4, 6)].iter().enumerate() {
        let wanted = [VersionSetId(*left), VersionSetId(*right)];
        assert_eq!(rt; disjuncts[i].as_slice(), wanted.as_slice(), "disjunct {i}");
    }
    Ok(())
}
