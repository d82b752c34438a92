//! The rules of conflicts.

use super::sets::leave_no_set;
use super::solving::{Asked, solve};
use crate::ids::{NameId, SolvableId};
use resolver_clause_store::StringId;
use resolver_report::find;
use resolvo::{By, Exhausted, Rule, UnsolvableOrCancelled};
use std::alloc::Global;
use std::fmt::Write;
use std::test::Fail;

/// A property of a conflict's rules.
#[derive(Clone, Copy)]
enum Wanted {
    /// The first reason excludes the first solvable, and the root requires something.
    Excluded,
    /// The root requires the first solvable alone, which forbids itself.
    ForbiddenByItself,
    /// There are at least eight rules, and they name only solvables from one number up to another.
    Between(u32, u32),
    /// The plain search finds no set that obeys them.
    Refuted,
    /// The first solvable requires four others, and the second one forbids each of the four.
    GateAndHelper,
    /// No set of the first six solvables obeys the rules, while the set of the first one alone obeys one of them.
    NoSet,
    /// The root requires the second solvable or the first one, in this order, and both are excluded.
    BothExcluded,
    /// There are five rules, and none names the third solvable.
    WithoutThird,
}

fn are_exclusion_and_requirement(rules: &[Rule<NameId, SolvableId>]) -> bool {
    rules.len() == 2
        && matches!(
            &rules[0],
            Rule::Excluded {
                solvable: SolvableId(0),
                reason: StringId(0)
            }
        )
        && matches!(&rules[1], Rule::Requires { by: By::Root, .. })
}

/// Returns whether a rule states that the root requires the first solvable, without alternatives.
fn requires_first_alone(rule: &Rule<NameId, SolvableId>) -> bool {
    match rule {
        Rule::Requires {
            by: By::Root,
            candidates,
            when,
            ..
        } => candidates.as_slice() == [SolvableId(0)].as_slice() && when.is_empty(),
        _other => false,
    }
}

fn are_requirement_and_constraint(rules: &[Rule<NameId, SolvableId>]) -> bool {
    rules.len() == 2
        && requires_first_alone(&rules[0])
        && matches!(
            &rules[1],
            Rule::Constrains {
                by: By::Solvable(SolvableId(0)),
                candidate: SolvableId(0),
                ..
            }
        )
}

/// Returns whether a rule names only solvables from one number up to another.
fn is_between(rule: &Rule<NameId, SolvableId>, low: u32, high: u32) -> bool {
    let named = |solvable: SolvableId| low <= solvable.0 && solvable.0 < high;
    match rule {
        Rule::Requires { by, candidates, .. } => {
            let asks = match by {
                By::Root => true,
                By::Solvable(solvable) => named(*solvable),
            };
            asks && !candidates.is_empty() && candidates.iter().all(|s| named(*s))
        }
        Rule::Constrains { candidate, .. } => named(*candidate),
        Rule::Lock { locked, forbidden } => named(*locked) && named(*forbidden),
        Rule::Excluded { solvable, .. } => named(*solvable),
        Rule::OnePerPackage { instance, .. } => named(*instance),
    }
}

fn are_between(rules: &[Rule<NameId, SolvableId>], low: u32, high: u32) -> bool {
    8 <= rules.len() && rules.iter().all(|rule| is_between(rule, low, high))
}

fn are_refuted(alloc: Global, rules: &[Rule<NameId, SolvableId>]) -> bool {
    !rules.is_empty() && matches!(find(alloc, rules), Ok(None))
}

fn requires_of_x(rule: &Rule<NameId, SolvableId>) -> bool {
    match rule {
        Rule::Requires {
            by: By::Solvable(SolvableId(0)),
            candidates,
            when,
            ..
        } => candidates.len() == 4 && when.is_empty(),
        _other => false,
    }
}

fn constrains_of_w(rule: &Rule<NameId, SolvableId>, wanted: u32) -> bool {
    match rule {
        Rule::Constrains {
            by: By::Solvable(SolvableId(1)),
            candidate,
            ..
        } => candidate.0 == wanted,
        _other => false,
    }
}

fn are_gate_and_helper(rules: &[Rule<NameId, SolvableId>]) -> bool {
    for place in 2..6u32 {
        if !rules.iter().any(|rule| constrains_of_w(rule, place)) {
            return false;
        }
    }
    rules.iter().any(requires_of_x)
}

fn requires_second_or_first(rule: &Rule<NameId, SolvableId>) -> bool {
    match rule {
        Rule::Requires {
            by: By::Root,
            candidates,
            when,
            ..
        } => candidates.as_slice() == [SolvableId(1), SolvableId(0)].as_slice() && when.is_empty(),
        _other => false,
    }
}

fn excludes(rule: &Rule<NameId, SolvableId>, wanted: u32) -> bool {
    match rule {
        Rule::Excluded { solvable, .. } => solvable.0 == wanted,
        _other => false,
    }
}

fn are_requirement_and_both_exclusions(rules: &[Rule<NameId, SolvableId>]) -> bool {
    rules.len() == 3
        && rules.iter().any(requires_second_or_first)
        && rules.iter().any(|rule| excludes(rule, 0))
        && rules.iter().any(|rule| excludes(rule, 1))
}

/// Returns whether a rule names a solvable.
fn names(rule: &Rule<NameId, SolvableId>, solvable: SolvableId) -> bool {
    match rule {
        Rule::Requires { by, candidates, .. } => {
            *by == By::Solvable(solvable) || candidates.iter().any(|s| *s == solvable)
        }
        Rule::Constrains { by, candidate, .. } => {
            *by == By::Solvable(solvable) || *candidate == solvable
        }
        Rule::Lock { locked, forbidden } => *locked == solvable || *forbidden == solvable,
        Rule::Excluded {
            solvable: excluded,
            ..
        } => *excluded == solvable,
        Rule::OnePerPackage { instance, .. } => *instance == solvable,
    }
}

fn are_without_third(rules: &[Rule<NameId, SolvableId>]) -> bool {
    rules.len() == 5 && !rules.iter().any(|rule| names(rule, SolvableId(2)))
}

fn are_as(alloc: Global, rules: &[Rule<NameId, SolvableId>], wanted: Wanted) -> bool {
    match wanted {
        Wanted::Excluded => are_exclusion_and_requirement(rules),
        Wanted::ForbiddenByItself => are_requirement_and_constraint(rules),
        Wanted::Between(low, high) => are_between(rules, low, high),
        Wanted::Refuted => are_refuted(alloc, rules),
        Wanted::GateAndHelper => are_gate_and_helper(rules),
        Wanted::NoSet => leave_no_set(rules, 64),
        Wanted::BothExcluded => are_requirement_and_both_exclusions(rules),
        Wanted::WithoutThird => are_without_third(rules),
    }
}

/// Returns whether an input has a conflict whose rules have a property.
fn has_rules(alloc: Global, input: &str, wanted: Wanted) -> Result<bool, Fail> {
    let solved = solve(alloc, Asked::new(input))?;
    match &solved.outcome {
        Err(UnsolvableOrCancelled::Unsolvable(conflict)) => {
            Ok(are_as(alloc, conflict.rules(), wanted))
        }
        _other => Err(Fail::from("no conflict")),
    }
}

#[test]
fn a_conflict_lists_the_exclusion_with_its_reason(rt: HostRuntime) -> Result<(), Fail> {
    let input = "package a=1\nexclude a=1 it is bad\nrequire a\n";
    assert!(rt; has_rules(rt.alloc(), input, Wanted::Excluded)?);
    Ok(())
}

#[test]
fn a_conflict_leaves_out_what_the_search_did_not_use(rt: HostRuntime) -> Result<(), Fail> {
    let input =
        "package a=1\npackage a=2\nexclude a=1 it is bad\nexclude a=2 it is worse\nrequire a@1\n";
    assert!(rt; has_rules(rt.alloc(), input, Wanted::Excluded)?);
    Ok(())
}

#[test]
fn a_constraint_on_its_own_package_gives_two_rules(rt: HostRuntime) -> Result<(), Fail> {
    let input = "package a=1\nconstrains a=1 a@2..3\nrequire a@1\n";
    assert!(rt; has_rules(rt.alloc(), input, Wanted::ForbiddenByItself)?);
    Ok(())
}

const CLASH: &str =
    "package p=1\npackage p=2\npackage q=1\npackage q=2\npackage r=1\npackage r=2\nrequires p=1 r@1\nrequires p=2 r@1\nrequires q=1 r@2\nrequires q=2 r@2\nrequire p\nrequire q\n";

/// Returns an input with a clash after packages that have no part in it, each with two versions.
fn clash_after(alloc: Global, packages: u32) -> Result<String, Fail> {
    let mut input = String::new(alloc);
    for number in 0..packages {
        write!(
            input,
            "package u{number}=1\npackage u{number}=2\nrequire u{number}\n"
        )?;
    }
    input.push_str(CLASH)?;
    Ok(input)
}

fn are_apart(alloc: Global, packages: u32, wanted: Wanted) -> Result<bool, Fail> {
    let input = clash_after(alloc, packages)?;
    has_rules(alloc, &input, wanted)
}

#[test]
fn packages_without_part_in_a_conflict_are_not_named(rt: HostRuntime) -> Result<(), Fail> {
    assert!(rt; are_apart(rt.alloc(), 1, Wanted::Between(2, 8))?);
    assert!(rt; are_apart(rt.alloc(), 200, Wanted::Between(400, 406))?);
    Ok(())
}

/// A clash, followed by a package that the root requires and that has no part in it.
const CLASH_BEFORE_W: &str =
    "package p=1\npackage p=2\npackage q=1\npackage q=2\npackage r=1\npackage r=2\nrequires p=1 r@1\nrequires p=2 r@1\nrequires q=1 r@2\nrequires q=2 r@2\nrequire p\nrequire q\npackage w=1\nrequire w\n";

#[test]
fn a_requirement_behind_a_clash_is_not_named(rt: HostRuntime) -> Result<(), Fail> {
    assert!(rt; has_rules(rt.alloc(), CLASH_BEFORE_W, Wanted::Between(0, 6))?);
    Ok(())
}

#[test]
fn the_plain_search_finds_no_set_for_a_clash_among_others(rt: HostRuntime) -> Result<(), Fail> {
    assert!(rt; has_rules(rt.alloc(), CLASH_BEFORE_W, Wanted::Refuted)?);
    assert!(rt; has_rules(rt.alloc(), GATED, Wanted::Refuted)?);
    assert!(rt; are_apart(rt.alloc(), 200, Wanted::Refuted)?);
    Ok(())
}

#[test]
fn the_plain_search_finds_no_set_for_a_conflict(rt: HostRuntime) -> Result<(), Fail> {
    let inputs = [
        CLASH,
        "require x\n",
        "package a=1\nexclude a=1 it is bad\nrequire a\n",
        "package a=1\nconstrains a=1 a@2..3\nrequire a@1\n",
        "package a=1\npackage a=2\nrequires a=1 x\nrequires a=2 x\nrequire a\n",
        "package a=1\npackage a=2\nlock a=1\nrequire a@2..3\n",
        "package a=1\npackage b=1\nrequires a=1 b\nrequire a\nconstrain b@2..3\n",
        "package a=1\npackage b=1\nrequires a=1 b\nrequires b=1 a\nrequires b=1 missing\nrequire a\n",
        "package p=1\npackage c=1\nrequires p=1 x if c\nrequire p\nrequire c\n",
        OVERLAP,
    ];
    for input in inputs {
        assert!(rt; has_rules(rt.alloc(), input, Wanted::Refuted)?, "{input}");
    }
    Ok(())
}

const OVERLAP: &str =
    "package a=1\npackage a=2\nexclude a=1 bad\nexclude a=2 bad\nrequire a@1..3 | a@2\n";

/// Declares x 1, w 2, and z 1 to 4, in this order.
const GATED: &str =
    "package x=1\npackage w=2\npackage z=1\npackage z=2\npackage z=3\npackage z=4\nrequires x=1 z\nconstrains w=2 z@9\nrequire x\nrequire w\n";

#[test]
fn rules_name_who_stands_on_a_gate_and_who_on_a_helper(rt: HostRuntime) -> Result<(), Fail> {
    assert!(rt; has_rules(rt.alloc(), GATED, Wanted::GateAndHelper)?);
    Ok(())
}

#[test]
fn no_set_obeys_the_rules_over_a_gate_and_a_helper(rt: HostRuntime) -> Result<(), Fail> {
    assert!(rt; has_rules(rt.alloc(), GATED, Wanted::NoSet)?);
    Ok(())
}

#[test]
fn a_union_that_overlaps_itself_lists_each_candidate_once(rt: HostRuntime) -> Result<(), Fail> {
    assert!(rt; has_rules(rt.alloc(), OVERLAP, Wanted::BothExcluded)?);
    Ok(())
}

/// Declares a 1, a 2, b 1, b 2, c 1 and c 2, in this order. Both versions of a fail by c 2, and a 2 by b 1 as well.
const DETOUR: &str =
    "package a=1\npackage a=2\npackage b=1\npackage b=2\npackage c=1\npackage c=2\nrequires a=1 c@2\nrequires a=2 b@1\nrequires a=2 c@2\nconstrains b=1 c@2\nconstrains b=2 c@1\nrequires c=2 b@2\nrequire a\nrequire c\n";

#[test]
fn a_needless_detour_is_not_named(rt: HostRuntime) -> Result<(), Fail> {
    assert!(rt; has_rules(rt.alloc(), DETOUR, Wanted::WithoutThird)?);
    Ok(())
}

/// Returns whether a rule is the unconditional requirement of these candidates.
fn is_requirement(
    rule: &Rule<NameId, SolvableId>,
    wanted: By<SolvableId>,
    listed: &[SolvableId],
) -> bool {
    match rule {
        Rule::Requires {
            by,
            candidates,
            when,
            ..
        } => *by == wanted && candidates.as_slice() == listed && when.is_empty(),
        _other => false,
    }
}

/// Returns whether one of the rules is the unconditional requirement of these candidates.
fn has_requirement(
    rules: &[Rule<NameId, SolvableId>],
    by: By<SolvableId>,
    listed: &[SolvableId],
) -> bool {
    rules.iter().any(|rule| is_requirement(rule, by, listed))
}

/// Returns whether one of the rules marks an instance of a package.
fn has_mark(rules: &[Rule<NameId, SolvableId>], package: NameId, solvable: SolvableId) -> bool {
    rules.iter().any(
        |rule| matches!(rule, Rule::OnePerPackage { name, instance } if *name == package && *instance == solvable),
    )
}

/// Returns whether the rules are those of a clash, whose first package and first solvable have these numbers.
fn are_clash(rules: &[Rule<NameId, SolvableId>], package: u32, first: u32) -> bool {
    let r = NameId(package.saturating_add(2));
    let at = |place: u32| SolvableId(first.saturating_add(place));
    rules.len() == 8
        && has_requirement(rules, By::Root, &[at(1), at(0)])
        && has_requirement(rules, By::Root, &[at(3), at(2)])
        && has_requirement(rules, By::Solvable(at(0)), &[at(4)])
        && has_requirement(rules, By::Solvable(at(1)), &[at(4)])
        && has_requirement(rules, By::Solvable(at(2)), &[at(5)])
        && has_requirement(rules, By::Solvable(at(3)), &[at(5)])
        && has_mark(rules, r, at(4))
        && has_mark(rules, r, at(5))
}

/// A property of a minimal conflict's rules.
#[derive(Clone, Copy)]
enum Left {
    /// There are this many.
    Count(usize),
    /// They are those of a clash, whose first package and first solvable have these numbers.
    Clash(u32, u32),
}

fn are_left(rules: &[Rule<NameId, SolvableId>], left: Left) -> bool {
    match left {
        Left::Count(count) => rules.len() == count,
        Left::Clash(package, first) => are_clash(rules, package, first),
    }
}

/// Returns whether the plain search finds a set that obeys all rules except this one.
fn is_needed(
    alloc: Global,
    rules: &[Rule<NameId, SolvableId>],
    place: usize,
) -> Result<bool, Exhausted> {
    let mut others = Vec::new(alloc);
    for other in 0..rules.len() {
        if other != place {
            others.push(rules[other].clone()?)?;
        }
    }
    Ok(find(alloc, &others)?.is_some())
}

/// Returns whether the plain search finds no set that obeys the rules, but finds one without any one of them.
fn are_irreducible(alloc: Global, rules: &[Rule<NameId, SolvableId>]) -> Result<bool, Exhausted> {
    for place in 0..rules.len() {
        if !is_needed(alloc, rules, place)? {
            return Ok(false);
        }
    }
    Ok(are_refuted(alloc, rules))
}

/// Returns whether the minimal conflict of an input has these rules, if the plain search agrees that it is minimal.
fn leaves(alloc: Global, input: &str, left: Left) -> Result<bool, Fail> {
    let solved = solve(alloc, Asked::new(input))?;
    let Err(UnsolvableOrCancelled::Unsolvable(conflict)) = &solved.outcome else {
        return Err(Fail::from("no conflict"));
    };
    let Ok(minimal) = conflict.minimal() else {
        return Err(Fail::from("refused"));
    };
    match are_irreducible(alloc, minimal.rules()) {
        Ok(true) => Ok(are_left(minimal.rules(), left)),
        Ok(false) => Err(Fail::from("a rule can be left out")),
        Err(_) => Err(Fail::from("refused")),
    }
}

/// The same for a clash after this many packages without part in it.
fn leaves_after(alloc: Global, packages: u32, left: Left) -> Result<bool, Fail> {
    let input = clash_after(alloc, packages)?;
    leaves(alloc, &input, left)
}

#[test]
fn a_minimal_clash_has_eight_rules(rt: HostRuntime) -> Result<(), Fail> {
    assert!(rt; leaves(rt.alloc(), CLASH, Left::Clash(0, 0))?);
    assert!(rt; leaves(rt.alloc(), CLASH_BEFORE_W, Left::Clash(0, 0))?);
    assert!(rt; leaves_after(rt.alloc(), 200, Left::Clash(200, 400))?);
    Ok(())
}

#[test]
fn no_rule_of_a_minimal_conflict_can_be_left_out(rt: HostRuntime) -> Result<(), Fail> {
    let inputs = [
        ("require x\nrequire y\n", 1),
        ("package a=1\nexclude a=1 it is bad\nrequire a\n", 2),
        ("package a=1\nconstrains a=1 a@2..3\nrequire a@1\n", 2),
        (
            "package a=1\npackage a=2\nrequires a=1 x\nrequires a=2 x\nrequire a\n",
            3,
        ),
        ("package a=1\npackage a=2\nlock a=1\nrequire a@2..3\n", 2),
        (
            "package a=1\npackage b=1\nrequires a=1 b\nrequire a\nconstrain b@2..3\n",
            3,
        ),
        (
            "package a=1\npackage b=1\nrequires a=1 b\nrequires b=1 a\nrequires b=1 missing\nrequire a\n",
            3,
        ),
        (
            "package p=1\npackage c=1\nrequires p=1 x if c\nrequire p\nrequire c\n",
            3,
        ),
        (OVERLAP, 3),
        (GATED, 7),
    ];
    for (input, count) in inputs {
        assert!(rt; leaves(rt.alloc(), input, Left::Count(count))?, "{input}");
    }
    Ok(())
}
