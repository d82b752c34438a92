//! Which versions of a few packages are told of together.
//!
//! The tests own nothing: what they call makes the rules, the graph and the groups, and says whether these are the wanted
//! ones.

ghost use Rattle.std.specs.Prelude.{◌/◌, cond, codes, nat_eq, [], None, refl};
ghost use Rattle.std.proofs.Common.{rules};
ghost use Rattle.std.proofs.lemmas.Bool.{eqb-true, eq-eqb};
ghost use Rattle.resolver_clause_store.specs.Universe.{known, hint_none};
ghost use Rattle.resolver_clause_store.specs.declared.Condition.TheVariants.{Requirement as Matched};

use super::rules::{Row, graph_of_rows, required_in};
use resolver_clause_store::{
    By, Condition, ConditionId, Exhausted, Interner, StringId, VersionSetId, VersionSetUnionId,
};
use resolver_report::MergedConflictNode;
use std::alloc::Global;
use std::collections::HashMap;
use std::rc::Rc;
use std::test::Fail;

/// Solvable 10 n + k is version k of package n. Package 1 is "a", the others are "b".
struct Packages;

impl Interner for Packages {
    type NameId = u32;

    type SolvableId = u32;

    ghost universe = { λ it. record {
      name = λ s. s / 10;
      version_set_name = λ v. v.0;
      union_members = λ m. [];
      condition = λ c. Matched (record { 0 = c.0 });
      condition_rank = λ c. 0;
      same_solvable = nat_eq;
      name_text = λ n. cond (nat_eq n 1) (codes "a") (codes "b");
      version_set_text = λ v. [];
      string_text = λ r. [];
      merged_text = λ xs. [];
      package_named = λ n. record { listed = []; favored = None; locked = None; excluded = []; hint = hint_none };
      needs = λ s. known (record { requirements = []; constraints = [] });
      matching_of = λ xs v. [];
      others_of = λ xs v. xs;
      sorted_of = λ xs. xs;
    } };

    ghost lawful_ids = { Prim.search rules };

    ghost names_are_values = { record { alone = eqb-true; itself = λ a. eq-eqb a a refl } };

    ghost solvables_are_values = { record { alone = eqb-true; itself = λ a. eq-eqb a a refl } };

    ghost solvables_compare = { λ it. refl };

    fn solvable_name(&self, solvable: u32) -> u32 {
        solvable / 10
    }

    fn version_set_name(&self, version_set: VersionSetId) -> u32 {
        version_set.0
    }

    fn version_sets_in_union(&self, _version_set_union: VersionSetUnionId) -> &[VersionSetId] {
        &[]
    }

    fn resolve_condition(&self, condition: ConditionId) -> Condition {
        Condition::Requirement(VersionSetId(condition.0))
    }

    fn display_name(&self, name: u32, out: &mut String) -> Result<(), Exhausted> {
        if name == 1 {
            out.push_str("a")?;
            return Ok(());
        }
        out.push_str("b")?;
        Ok(())
    }

    fn display_version_set(
        &self,
        _version_set: VersionSetId,
        _out: &mut String,
    ) -> Result<(), Exhausted> {
        Ok(())
    }

    fn display_string(&self, _string: StringId, _out: &mut String) -> Result<(), Exhausted> {
        Ok(())
    }

    fn display_merged_solvables(
        &self,
        _solvables: &[u32],
        _out: &mut String,
    ) -> Result<(), Exhausted> {
        Ok(())
    }
}

type Groups = HashMap<u32, Rc<MergedConflictNode<u32>>>;

fn groups_of(alloc: Global, rows: &[Row<'_>]) -> Result<Groups, Exhausted> {
    let graph = graph_of_rows(alloc, rows)?;
    graph.simplify(&Packages)
}

/// Whether these two solvables alone are in a group, it is the same one, and it lists them in this order.
fn is_one_group(groups: &Groups, ids: [u32; 2]) -> bool {
    let [first, second] = ids;
    match (groups.get(&first), groups.get(&second)) {
        (Some(group), Some(other)) => {
            (groups.len() == 2)
                & (group.ids.as_slice() == ids.as_slice())
                & Rc::ptr_eq(group, other)
        }
        _ => false,
    }
}

/// Whether these two versions share the one group that there is, which lists them in this order.
fn share_a_group(alloc: Global, rows: &[Row<'_>], ids: [u32; 2]) -> Result<bool, Exhausted> {
    let groups = groups_of(alloc, rows)?;
    Ok(is_one_group(&groups, ids))
}

/// Whether no two versions share a group.
fn all_part(alloc: Global, rows: &[Row<'_>]) -> Result<bool, Exhausted> {
    let groups = groups_of(alloc, rows)?;
    Ok(groups.is_empty())
}

#[test]
fn other_requirements_part(rt: HostRuntime) -> Result<(), Fail> {
    let rows = [
        required_in(By::Root, 0, &[12, 11]),
        required_in(By::Solvable(11), 1, &[]),
        required_in(By::Solvable(12), 2, &[]),
    ];
    assert!(rt; all_part(rt.alloc(), &rows)?);
    Ok(())
}

#[test]
fn other_names_part(rt: HostRuntime) -> Result<(), Fail> {
    let rows = [required_in(By::Root, 0, &[11, 21])];
    assert!(rt; all_part(rt.alloc(), &rows)?);
    Ok(())
}

#[test]
fn alike_versions_share_a_group(rt: HostRuntime) -> Result<(), Fail> {
    let rows = [
        required_in(By::Root, 0, &[12, 11]),
        required_in(By::Solvable(11), 1, &[]),
        required_in(By::Solvable(12), 1, &[]),
    ];
    assert!(rt; share_a_group(rt.alloc(), &rows, [12, 11])?);
    Ok(())
}

#[test]
fn the_order_of_edges_does_not_part(rt: HostRuntime) -> Result<(), Fail> {
    let rows = [
        required_in(By::Root, 0, &[12, 11]),
        required_in(By::Solvable(11), 1, &[]),
        required_in(By::Solvable(11), 2, &[21]),
        required_in(By::Solvable(12), 2, &[21]),
        required_in(By::Solvable(12), 1, &[]),
    ];
    assert!(rt; share_a_group(rt.alloc(), &rows, [12, 11])?);
    Ok(())
}

#[test]
fn how_often_an_edge_stands_parts(rt: HostRuntime) -> Result<(), Fail> {
    let rows = [
        required_in(By::Root, 0, &[12, 11]),
        required_in(By::Solvable(11), 1, &[]),
        required_in(By::Solvable(11), 1, &[]),
        required_in(By::Solvable(12), 1, &[]),
    ];
    assert!(rt; all_part(rt.alloc(), &rows)?);
    Ok(())
}

#[test]
fn conflicts_are_not_told_apart(rt: HostRuntime) -> Result<(), Fail> {
    let rows = [
        required_in(By::Root, 0, &[11, 12, 13]),
        Row::Constrains {
            by: By::Root,
            version_set: 1,
            candidate: 11,
        },
        Row::Constrains {
            by: By::Root,
            version_set: 2,
            candidate: 13,
        },
    ];
    // The last node takes the place of the unresolved one.
    assert!(rt; share_a_group(rt.alloc(), &rows, [13, 11])?);
    Ok(())
}
