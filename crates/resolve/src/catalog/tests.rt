//! Each call on its happy path.
//!
//! A single function owns a catalog: it takes what a test expects, and returns whether the catalog gives it.

use crate::catalog::Catalog;
use crate::ids::{NameId, Range, SolvableId};
use resolver_clause_store::{
    Condition, ConditionId, ConditionalRequirement, Dependencies, DependencyProvider, Exhausted,
    Interner, LogicalOperator, Requirement, StringId, VersionSetId, VersionSetUnionId,
};
use std::alloc::Global;
use std::test::Fail;

const MIDDLE: Range = Range::Within { low: 2, high: 10 };

/// What a catalog is expected to give whose first package `a` has versions 2, 10, 1 and 7, in this order.
#[derive(Clone, Copy)]
enum Wanted<'x> {
    /// All versions, sorted by preference.
    Sorted(&'x [SolvableId]),
    /// The versions in a range, or, with `true`, the others.
    Filtered(Range, bool, &'x [SolvableId]),
    VersionSetText(Range, &'x str),
    MergedText(&'x [SolvableId], &'x str),
    /// The texts of a reason and of a name.
    Texts(&'x str),
    /// The ids of a name, of another one, and of the first one again.
    Names([NameId; 3]),
    Reasons([StringId; 3]),
    /// The ids of a range of a package, of another range, and of the first one again.
    VersionSets([VersionSetId; 3]),
    /// The ids of a union, of the union of its members in reverse order, and of the first one again.
    Unions([VersionSetUnionId; 3]),
    /// The ids of two conditions and of their `or`, and this last condition.
    Conditions([ConditionId; 3], Condition),
    /// Whether a declared version is new, and whether another one is.
    Declared([bool; 2]),
    Found(&'x str, u32, Option<SolvableId>),
    /// Whether each of five calls succeeded, and the favored and the locked solvable.
    FavoredAndLocked([bool; 5], [Option<SolvableId>; 2]),
    /// Whether each of three exclusions was new, and the excluded solvables.
    Excluded([bool; 3], &'x [(SolvableId, StringId)]),
    /// The requirements and constraints of solvable 0.
    Needs(&'x [ConditionalRequirement], &'x [VersionSetId]),
    /// Whether each of two reasons was accepted, and the reason that hides the requirements of solvable 1.
    Unknown([bool; 2], StringId),
}

fn sorts(catalog: &Catalog, wanted: &[SolvableId]) -> Result<bool, Fail> {
    let package = catalog.get_candidates(NameId(0))?.ok_or("no package")?;
    let mut candidates = package.candidates;
    catalog.sort_candidates(&mut candidates)?;
    Ok(candidates.as_slice() == wanted)
}

fn filters(
    catalog: &mut Catalog,
    range: Range,
    inverse: bool,
    wanted: &[SolvableId],
) -> Result<bool, Fail> {
    let version_set = catalog.version_set(NameId(0), range)?;
    let all = [SolvableId(0), SolvableId(1), SolvableId(2), SolvableId(3)];
    let found = catalog.filter_candidates(&all, version_set, inverse)?;
    Ok(found.as_slice() == wanted)
}

fn writes_version_set(
    catalog: &mut Catalog,
    alloc: Global,
    range: Range,
    wanted: &str,
) -> Result<bool, Fail> {
    let version_set = catalog.version_set(NameId(0), range)?;
    let mut text = String::new(alloc);
    catalog.display_version_set(version_set, &mut text)?;
    Ok(text.as_str() == wanted)
}

fn writes_merged(
    catalog: &Catalog,
    alloc: Global,
    solvables: &[SolvableId],
    wanted: &str,
) -> Result<bool, Fail> {
    let mut text = String::new(alloc);
    catalog.display_merged_solvables(solvables, &mut text)?;
    Ok(text.as_str() == wanted)
}

fn writes_texts(catalog: &mut Catalog, alloc: Global, wanted: &str) -> Result<bool, Fail> {
    let name = catalog.name("asdf")?;
    let reason = catalog.string("too old")?;
    let mut text = String::new(alloc);
    catalog.display_string(reason, &mut text)?;
    catalog.display_name(name, &mut text)?;
    Ok(text.as_str() == wanted)
}

fn names(catalog: &mut Catalog) -> Result<[NameId; 3], Exhausted> {
    let a = catalog.name("a")?;
    let b = catalog.name("b")?;
    let again = catalog.name("a")?;
    Ok([a, b, again])
}

fn reasons(catalog: &mut Catalog) -> Result<[StringId; 3], Exhausted> {
    let old = catalog.string("old")?;
    let new = catalog.string("new")?;
    let again = catalog.string("old")?;
    Ok([old, new, again])
}

fn version_sets(catalog: &mut Catalog) -> Result<[VersionSetId; 3], Exhausted> {
    let one = catalog.version_set(NameId(0), MIDDLE)?;
    let other = catalog.version_set(NameId(1), MIDDLE)?;
    let again = catalog.version_set(NameId(0), MIDDLE)?;
    Ok([one, other, again])
}

fn union_of(
    catalog: &mut Catalog,
    alloc: Global,
    members: [u32; 2],
) -> Result<VersionSetUnionId, Fail> {
    let [first, second] = members;
    let members = Vec::from_array(alloc, [VersionSetId(first), VersionSetId(second)])?;
    Ok(catalog.union(members)?)
}

fn unions(catalog: &mut Catalog, alloc: Global) -> Result<[VersionSetUnionId; 3], Fail> {
    let one = union_of(catalog, alloc, [5, 6])?;
    let turned = union_of(catalog, alloc, [6, 5])?;
    let again = union_of(catalog, alloc, [5, 6])?;
    Ok([one, turned, again])
}

fn conditions(catalog: &mut Catalog) -> Result<Option<[ConditionId; 3]>, Exhausted> {
    let left = catalog.conditions.add_on(VersionSetId(5))?;
    let right = catalog.conditions.add_on(VersionSetId(5))?;
    let either = catalog.conditions.add_of(LogicalOperator::Or, left, right)?;
    let Some(either) = either else {
        return Ok(None);
    };
    Ok(Some([left, right, either]))
}

fn has_conditions(
    catalog: &mut Catalog,
    wanted: [ConditionId; 3],
    last: Condition,
) -> Result<bool, Exhausted> {
    let made = conditions(catalog)?;
    Ok(made == Some(wanted) && catalog.resolve_condition(wanted[2]) == last)
}

fn declared(catalog: &mut Catalog) -> Result<[bool; 2], Exhausted> {
    let again = catalog.packages.add_version(NameId(0), 7)?;
    let one_more = catalog.packages.add_version(NameId(0), 8)?;
    Ok([again, one_more])
}

fn favor_and_lock(catalog: &mut Catalog) -> [bool; 5] {
    [
        catalog.packages.favor(SolvableId(2)),
        catalog.packages.favor(SolvableId(1)),
        catalog.packages.lock(SolvableId(3)),
        catalog.packages.lock(SolvableId(2)),
        catalog.packages.favor(SolvableId(9)),
    ]
}

fn chooses(
    catalog: &mut Catalog,
    wanted: [bool; 5],
    first: [Option<SolvableId>; 2],
) -> Result<bool, Fail> {
    let are_new = favor_and_lock(catalog);
    let package = catalog.get_candidates(NameId(0))?.ok_or("no package")?;
    Ok(are_new == wanted && [package.favored, package.locked] == first)
}

fn exclude(catalog: &mut Catalog) -> Result<[bool; 3], Exhausted> {
    let first = catalog.packages.exclude(SolvableId(1), StringId(3))?;
    let again = catalog.packages.exclude(SolvableId(1), StringId(4))?;
    let strange = catalog.packages.exclude(SolvableId(9), StringId(3))?;
    Ok([first, again, strange])
}

fn excludes(
    catalog: &mut Catalog,
    wanted: [bool; 3],
    excluded: &[(SolvableId, StringId)],
) -> Result<bool, Fail> {
    let are_new = exclude(catalog)?;
    let package = catalog.get_candidates(NameId(0))?.ok_or("no package")?;
    Ok(are_new == wanted && package.excluded.as_slice() == excluded)
}

fn always(version_set: u32) -> ConditionalRequirement {
    ConditionalRequirement {
        condition: None,
        requirement: Requirement::Single(VersionSetId(version_set)),
    }
}

/// Gives solvable 0 a requirement and a constraint, and solvable 1 a requirement and two reasons.
fn add_needs(catalog: &mut Catalog) -> Result<[bool; 2], Exhausted> {
    catalog.packages.add_requirement(SolvableId(0), always(5))?;
    catalog
        .packages
        .add_constraint(SolvableId(0), VersionSetId(6))?;
    catalog.packages.add_requirement(SolvableId(1), always(5))?;
    let first = catalog.packages.set_unknown(SolvableId(1), StringId(7));
    let again = catalog.packages.set_unknown(SolvableId(1), StringId(8));
    Ok([first, again])
}

fn needs(
    catalog: &mut Catalog,
    requirements: &[ConditionalRequirement],
    constraints: &[VersionSetId],
) -> Result<bool, Exhausted> {
    add_needs(catalog)?;
    match catalog.get_dependencies(SolvableId(0))? {
        Dependencies::Known(known) => Ok(
            known.requirements.as_slice() == requirements
                && known.constrains.as_slice() == constraints,
        ),
        Dependencies::Unknown(_) => Ok(false),
    }
}

fn keeps_back(catalog: &mut Catalog, wanted: [bool; 2], why: StringId) -> Result<bool, Exhausted> {
    let are_new = add_needs(catalog)?;
    match catalog.get_dependencies(SolvableId(1))? {
        Dependencies::Known(_) => Ok(false),
        Dependencies::Unknown(reason) => Ok(are_new == wanted && reason == why),
    }
}

fn is_given(catalog: &mut Catalog, alloc: Global, wanted: Wanted<'_>) -> Result<bool, Fail> {
    match wanted {
        Wanted::Sorted(solvables) => sorts(catalog, solvables),
        Wanted::Filtered(range, inverse, solvables) => filters(catalog, range, inverse, solvables),
        Wanted::VersionSetText(range, text) => writes_version_set(catalog, alloc, range, text),
        Wanted::MergedText(solvables, text) => writes_merged(catalog, alloc, solvables, text),
        Wanted::Texts(text) => writes_texts(catalog, alloc, text),
        Wanted::Names(ids) => Ok(names(catalog)? == ids),
        Wanted::Reasons(ids) => Ok(reasons(catalog)? == ids),
        Wanted::VersionSets(ids) => Ok(version_sets(catalog)? == ids),
        Wanted::Unions(ids) => Ok(unions(catalog, alloc)? == ids),
        Wanted::Conditions(ids, last) => Ok(has_conditions(catalog, ids, last)?),
        Wanted::Declared(are_new) => Ok(declared(catalog)? == are_new),
        Wanted::Found(text, version, found) => Ok(catalog.find_solvable(text, version) == found),
        Wanted::FavoredAndLocked(are_new, first) => chooses(catalog, are_new, first),
        Wanted::Excluded(are_new, excluded) => excludes(catalog, are_new, excluded),
        Wanted::Needs(required, constrained) => Ok(needs(catalog, required, constrained)?),
        Wanted::Unknown(are_new, why) => Ok(keeps_back(catalog, are_new, why)?),
    }
}

fn declare_all(catalog: &mut Catalog) -> Result<(), Exhausted> {
    let a = catalog.name("a")?;
    for version in [2, 10, 1, 7] {
        catalog.packages.add_version(a, version)?;
    }
    Ok(())
}

/// Returns whether a catalog gives what is expected.
fn gives(alloc: Global, wanted: Wanted<'_>) -> Result<bool, Fail> {
    let mut catalog = Catalog::new(alloc);
    declare_all(&mut catalog)?;
    is_given(&mut catalog, alloc, wanted)
}

#[test]
fn higher_versions_come_first(rt: HostRuntime) -> Result<(), Fail> {
    let sorted = [SolvableId(1), SolvableId(3), SolvableId(0), SolvableId(2)];
    assert!(rt; gives(rt.alloc(), Wanted::Sorted(&sorted))?);
    Ok(())
}

#[test]
fn a_range_takes_its_low_end_and_not_its_high_end(rt: HostRuntime) -> Result<(), Fail> {
    let taken = [SolvableId(0), SolvableId(3)];
    assert!(rt; gives(rt.alloc(), Wanted::Filtered(MIDDLE, false, &taken))?);
    let left = [SolvableId(1), SolvableId(2)];
    assert!(rt; gives(rt.alloc(), Wanted::Filtered(MIDDLE, true, &left))?);
    let nothing = Range::Within { low: 10, high: 2 };
    assert!(rt; gives(rt.alloc(), Wanted::Filtered(nothing, false, &[]))?);
    Ok(())
}

#[test]
fn version_sets_are_written_as_ranges(rt: HostRuntime) -> Result<(), Fail> {
    assert!(rt; gives(rt.alloc(), Wanted::VersionSetText(Range::All, "*"))?);
    assert!(rt; gives(rt.alloc(), Wanted::VersionSetText(MIDDLE, ">=2, <10"))?);
    Ok(())
}

#[test]
fn merged_solvables_are_written_lowest_first(rt: HostRuntime) -> Result<(), Fail> {
    let some = [SolvableId(1), SolvableId(0), SolvableId(2)];
    assert!(rt; gives(rt.alloc(), Wanted::MergedText(&some, "a 1 | 2 | 10"))?);
    assert!(rt; gives(rt.alloc(), Wanted::MergedText(&[], ""))?);
    Ok(())
}

#[test]
fn names_and_reasons_are_written_as_they_are(rt: HostRuntime) -> Result<(), Fail> {
    assert!(rt; gives(rt.alloc(), Wanted::Texts("too oldasdf"))?);
    Ok(())
}

#[test]
fn equal_names_and_reasons_share_an_id(rt: HostRuntime) -> Result<(), Fail> {
    let ids = [NameId(0), NameId(1), NameId(0)];
    assert!(rt; gives(rt.alloc(), Wanted::Names(ids))?);
    let ids = [StringId(0), StringId(1), StringId(0)];
    assert!(rt; gives(rt.alloc(), Wanted::Reasons(ids))?);
    Ok(())
}

#[test]
fn equal_version_sets_and_unions_share_an_id(rt: HostRuntime) -> Result<(), Fail> {
    let ids = [VersionSetId(0), VersionSetId(1), VersionSetId(0)];
    assert!(rt; gives(rt.alloc(), Wanted::VersionSets(ids))?);
    let ids = [
        VersionSetUnionId(0),
        VersionSetUnionId(1),
        VersionSetUnionId(0),
    ];
    assert!(rt; gives(rt.alloc(), Wanted::Unions(ids))?);
    Ok(())
}

#[test]
fn each_condition_is_new(rt: HostRuntime) -> Result<(), Fail> {
    let ids = [ConditionId(0), ConditionId(1), ConditionId(2)];
    let either = Condition::Binary(LogicalOperator::Or, ConditionId(0), ConditionId(1));
    assert!(rt; gives(rt.alloc(), Wanted::Conditions(ids, either))?);
    Ok(())
}

#[test]
fn a_version_is_declared_once(rt: HostRuntime) -> Result<(), Fail> {
    assert!(rt; gives(rt.alloc(), Wanted::Declared([false, true]))?);
    let ten = Some(SolvableId(1));
    assert!(rt; gives(rt.alloc(), Wanted::Found("a", 10, ten))?);
    assert!(rt; gives(rt.alloc(), Wanted::Found("a", 3, None))?);
    assert!(rt; gives(rt.alloc(), Wanted::Found("b", 10, None))?);
    Ok(())
}

#[test]
fn a_package_is_favored_and_locked_once(rt: HostRuntime) -> Result<(), Fail> {
    let are_new = [true, false, true, false, false];
    let first = [Some(SolvableId(2)), Some(SolvableId(3))];
    assert!(rt; gives(rt.alloc(), Wanted::FavoredAndLocked(are_new, first))?);
    Ok(())
}

#[test]
fn a_solvable_is_excluded_once(rt: HostRuntime) -> Result<(), Fail> {
    let excluded = [(SolvableId(1), StringId(3))];
    assert!(rt;
        gives(
            rt.alloc(),
            Wanted::Excluded([true, false, false], &excluded)
        )?
    );
    Ok(())
}

#[test]
fn what_was_added_is_needed(rt: HostRuntime) -> Result<(), Fail> {
    let wanted = Wanted::Needs(&[always(5)], &[VersionSetId(6)]);
    assert!(rt; gives(rt.alloc(), wanted)?);
    Ok(())
}

#[test]
fn a_reason_keeps_back_what_was_added(rt: HostRuntime) -> Result<(), Fail> {
    assert!(rt; gives(rt.alloc(), Wanted::Unknown([true, false], StringId(7)))?);
    Ok(())
}
