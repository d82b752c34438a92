//! Minimal conflicts of lists of rules worked out by hand, and of random lists, which the plain search checks.

ghost use Rattle.std.specs.Prelude.{◌<◌, length};

use super::{clauses_within, copies_of, left_by, verdict_of};
use crate::conflict::Conflict;
use crate::minimal::decision::Verdict;
use resolver_clause_store::{By, Exhausted, Requirement, Rule, StringId, VersionSetId};
use resolver_report::find;
use std::alloc::{AllocError, Global};
use std::test::Fail;

/// The statement of a rule, without the number of its place, which stands for its source.
#[derive(Clone, Copy)]
enum Stated<'x> {
    /// The requirer, the candidates, and the lists of the condition.
    Requires(By<u32>, &'x [u32], &'x [&'x [u32]]),
    Constrains(By<u32>, u32),
    Lock(u32),
    Excluded(u32),
    OnePerPackage(u32, u32),
}

fn lists_of(alloc: Global, lists: &[&[u32]]) -> Result<Vec<Vec<u32>>, AllocError> {
    let mut copies = Vec::new(alloc);
    for list in lists {
        copies.push(Vec::from_slice(alloc, list)?)?;
    }
    Ok(copies)
}

fn rule_of(alloc: Global, place: u32, stated: Stated<'_>) -> Result<Rule<u32, u32>, AllocError> {
    match stated {
        Stated::Requires(by, candidates, lists) => Ok(Rule::Requires {
            by,
            requirement: Requirement::Single(VersionSetId(place)),
            candidates: Vec::from_slice(alloc, candidates)?,
            when: lists_of(alloc, lists)?,
        }),
        Stated::Constrains(by, candidate) => Ok(Rule::Constrains {
            by,
            version_set: VersionSetId(place),
            candidate,
        }),
        Stated::Lock(forbidden) => Ok(Rule::Lock {
            locked: place,
            forbidden,
        }),
        Stated::Excluded(solvable) => Ok(Rule::Excluded {
            solvable,
            reason: StringId(place),
        }),
        Stated::OnePerPackage(name, instance) => Ok(Rule::OnePerPackage { name, instance }),
    }
}

/// Returns the number of a place.
fn number_of(place: usize) -> u32 {
    match u32::try_from(place) {
        Ok(number) => number,
        Err(_) => u32::MAX,
    }
}

fn rules_of(alloc: Global, stated: &[Stated<'_>]) -> Result<Vec<Rule<u32, u32>>, AllocError> {
    let mut rules = Vec::new(alloc);
    for place in 0..stated.len() {
        rules.push(rule_of(alloc, number_of(place), stated[place])?)?;
    }
    Ok(rules)
}

/// Returns whether the rule copies the one at this place.
fn is_copy(rule: &Rule<u32, u32>, place: u32, stated: Stated<'_>) -> bool {
    match rule {
        Rule::Requires {
            requirement: Requirement::Single(VersionSetId(at)),
            candidates,
            ..
        } => *at == place
            && matches!(stated, Stated::Requires(_, all, _) if all == candidates.as_slice()),
        Rule::Requires { .. } => false,
        Rule::Constrains { version_set, .. } => version_set.0 == place,
        Rule::Lock { locked, .. } => *locked == place,
        Rule::Excluded { reason, .. } => reason.0 == place,
        Rule::OnePerPackage { name, instance } => {
            matches!(stated, Stated::OnePerPackage(n, i) if n == *name && i == *instance)
        }
    }
}

/// Returns whether the rules copy those at these places, in order.
fn are_copies(rules: &[Rule<u32, u32>], stated: &[Stated<'_>], places: &[usize]) -> bool {
    if rules.len() != places.len() {
        return false;
    }
    for index in 0..rules.len() {
        let place = places[index];
        if place >= stated.len() || !is_copy(&rules[index], number_of(place), stated[place]) {
            return false;
        }
    }
    true
}

/// Returns whether the minimal conflict of the rules has those at these places.
fn leaves(alloc: Global, stated: &[Stated<'_>], places: &[usize]) -> Result<bool, Fail> {
    let conflict = Conflict {
        rules: rules_of(alloc, stated)?,
    };
    match conflict.minimal() {
        Ok(minimal) => Ok(are_copies(minimal.rules(), stated, places)),
        Err(_) => Err(Fail::from("refused")),
    }
}

/// Two packages that clash over a third, with an exclusion that one of the rules makes redundant.
const CLASH: [Stated<'static>; 9] = [
    Stated::Requires(By::Root, &[12, 11], &[]),
    Stated::Requires(By::Root, &[22, 21], &[]),
    Stated::Requires(By::Solvable(11), &[31], &[]),
    Stated::Requires(By::Solvable(12), &[31], &[]),
    Stated::Requires(By::Solvable(21), &[32], &[]),
    Stated::Requires(By::Solvable(22), &[32], &[]),
    Stated::OnePerPackage(3, 31),
    Stated::OnePerPackage(3, 32),
    Stated::Excluded(11),
];

#[test]
fn the_first_rules_that_can_be_left_out_are(rt: HostRuntime) -> Result<(), Fail> {
    assert!(rt; leaves(rt.alloc(), &CLASH, &[0, 1, 3, 4, 5, 6, 7, 8])?);
    assert!(rt; leaves(rt.alloc(), &CLASH[..8], &[0, 1, 2, 3, 4, 5, 6, 7])?);
    Ok(())
}

#[test]
fn rules_that_repeat_or_are_needless_are_left_out(rt: HostRuntime) -> Result<(), Fail> {
    let two_missing = [
        Stated::Requires(By::Root, &[], &[]),
        Stated::Requires(By::Root, &[], &[]),
    ];
    let twice_excluded = [
        Stated::Requires(By::Root, &[11], &[]),
        Stated::Excluded(11),
        Stated::Excluded(11),
    ];
    assert!(rt; leaves(rt.alloc(), &two_missing, &[1])?);
    assert!(rt; leaves(rt.alloc(), &twice_excluded, &[0, 2])?);
    Ok(())
}

/// Rules of every kind except instances. The last one is redundant.
const CONDITIONAL: [Stated<'static>; 6] = [
    Stated::Requires(By::Root, &[21, 22], &[]),
    Stated::Requires(By::Root, &[31], &[]),
    Stated::Lock(41),
    Stated::Requires(By::Root, &[41], &[&[31, 32], &[22]]),
    Stated::Constrains(By::Solvable(31), 21),
    Stated::Constrains(By::Root, 51),
];

/// Instances of one package, two of which are needed.
const MARKED: [Stated<'static>; 6] = [
    Stated::OnePerPackage(1, 11),
    Stated::OnePerPackage(2, 12),
    Stated::Requires(By::Root, &[11], &[]),
    Stated::OnePerPackage(1, 12),
    Stated::Requires(By::Solvable(11), &[12], &[]),
    Stated::OnePerPackage(1, 13),
];

#[test]
fn each_kind_of_rule_can_be_needed(rt: HostRuntime) -> Result<(), Fail> {
    assert!(rt; leaves(rt.alloc(), &CONDITIONAL, &[0, 1, 2, 3, 4])?);
    assert!(rt; leaves(rt.alloc(), &MARKED, &[0, 2, 3, 4])?);
    Ok(())
}

/// Draws the next number, below 65536.
fn draw(state: &mut u32) -> u32 {
    *state = state.wrapping_mul(1_664_525).wrapping_add(1_013_904_223);
    state.wrapping_shr(16)
}

fn draw_solvable(state: &mut u32) -> u32 {
    draw(state) % 6
}

fn draw_list(alloc: Global, state: &mut u32, least: u32) -> Result<Vec<u32>, AllocError> {
    let mut list = Vec::new(alloc);
    let count = least.saturating_add(draw(state) % 2);
    for _ in 0..count {
        list.push(draw_solvable(state))?;
    }
    Ok(list)
}

fn draw_lists(alloc: Global, state: &mut u32) -> Result<Vec<Vec<u32>>, AllocError> {
    let mut lists = Vec::new(alloc);
    let count = (draw(state) % 6).saturating_sub(3);
    for _ in 0..count {
        lists.push(draw_list(alloc, state, 1)?)?;
    }
    Ok(lists)
}

fn draw_requirement(
    alloc: Global,
    state: &mut u32,
    place: u32,
    by: By<u32>,
) -> Result<Rule<u32, u32>, AllocError> {
    let candidates = draw_list(alloc, state, 1)?;
    let when = draw_lists(alloc, state)?;
    Ok(Rule::Requires {
        by,
        requirement: Requirement::Single(VersionSetId(place)),
        candidates,
        when,
    })
}

fn draw_rule(alloc: Global, state: &mut u32, place: u32) -> Result<Rule<u32, u32>, AllocError> {
    let kind = draw(state) % 9;
    let solvable = draw_solvable(state);
    let other = draw_solvable(state);
    match kind {
        0 | 1 | 2 => draw_requirement(alloc, state, place, By::Root),
        3 | 4 | 5 => draw_requirement(alloc, state, place, By::Solvable(solvable)),
        6 => Ok(Rule::Constrains {
            by: By::Solvable(solvable),
            version_set: VersionSetId(place),
            candidate: other,
        }),
        7 => Ok(Rule::Excluded {
            solvable,
            reason: StringId(place),
        }),
        _mark => Ok(Rule::OnePerPackage {
            name: solvable % 2,
            instance: other,
        }),
    }
}

fn draw_rules(alloc: Global, seed: u32) -> Result<Vec<Rule<u32, u32>>, AllocError> {
    let mut state = seed;
    let mut rules = Vec::new(alloc);
    let count = 8 + draw(&mut state) % 8;
    for place in 0..count {
        rules.push(draw_rule(alloc, &mut state, place)?)?;
    }
    Ok(rules)
}

/// Returns whether the plain search finds a set that obeys all rules except this one.
fn is_needed(alloc: Global, rules: &[Rule<u32, u32>], place: usize) -> Result<bool, Exhausted>
    requires { place < length rules.now }
{
    let mut others = vec![in alloc; true; rules.len()]?;
    others[place] = false;
    let copies = copies_of(alloc, rules, &others)?;
    Ok(find(alloc, &copies)?.is_some())
}

/// Returns whether the plain search finds no set that obeys the rules, and finds one without any one of them.
fn is_irreducible(alloc: Global, rules: &[Rule<u32, u32>]) -> Result<bool, Exhausted> {
    for place in 0..rules.len() {
        if !is_needed(alloc, rules, place)? {
            return Ok(false);
        }
    }
    Ok(find(alloc, rules)?.is_none())
}

/// Returns whether the clause search finds that some set obeys the rules. One does.
fn is_seen_obeyed(alloc: Global, rules: &[Rule<u32, u32>]) -> Result<bool, Exhausted> {
    let form = clauses_within(alloc, rules)?;
    let all = vec![in alloc; true; rules.len()]?;
    let verdict = verdict_of(alloc, rules, &form, &all, usize::MAX)?;
    Ok(matches!(verdict, Some(Verdict::Obeyed(_))))
}

/// The result for random rules.
#[derive(Clone, Copy, PartialEq)]
enum Tried {
    /// Some set obeys them, and the search over their clauses finds this.
    Obeyed,
    /// No set obeys them, and the rules that are left are irreducible and the same as by the plain search.
    Minimal,
    Wrong,
}

fn try_rules(alloc: Global, rules: &[Rule<u32, u32>]) -> Result<Tried, Exhausted> {
    if find(alloc, rules)?.is_some() {
        let seen = is_seen_obeyed(alloc, rules)?;
        return Ok(if seen { Tried::Obeyed } else { Tried::Wrong });
    }
    let plainly = left_by(alloc, rules, &None)?;
    let wanted = copies_of(alloc, rules, &plainly)?;
    let all = vec![in alloc; true; rules.len()]?;
    let conflict = Conflict {
        rules: copies_of(alloc, rules, &all)?,
    };
    let minimal = conflict.minimal()?;
    let right = is_irreducible(alloc, minimal.rules())? && minimal.rules().len() == wanted.len();
    Ok(if right { Tried::Minimal } else { Tried::Wrong })
}

/// Returns how many lists of random rules have an irreducible minimal conflict, and how many results are wrong.
fn counts(alloc: Global) -> Result<(u32, u32), Exhausted> {
    let mut minimal: u32 = 0;
    let mut wrong: u32 = 0;
    for seed in 0..700 {
        let rules = draw_rules(alloc, seed)?;
        match try_rules(alloc, &rules)? {
            Tried::Obeyed => (),
            Tried::Minimal => minimal = minimal.saturating_add(1),
            Tried::Wrong => wrong = wrong.saturating_add(1),
        }
    }
    Ok((minimal, wrong))
}

#[test]
fn random_conflicts_become_irreducible(rt: HostRuntime) -> Result<(), Fail> {
    match counts(rt.alloc()) {
        Ok((minimal, wrong)) => {
            assert!(rt; wrong == 0);
            assert!(rt; minimal >= 300);
        }
        Err(_) => return Err(Fail::from("refused")),
    }
    Ok(())
}

/// Returns the number of rules in the trimmed conflict, if the plain search confirms that no set obeys them.
fn trimmed_count(alloc: Global, rules: Vec<Rule<u32, u32>>) -> Result<Option<usize>, Exhausted> {
    let conflict = Conflict { rules };
    let trimmed = conflict.trimmed()?;
    if find(alloc, trimmed.rules())?.is_some() {
        return Ok(None);
    }
    Ok(Some(trimmed.rules().len()))
}

fn trimmed_count_of(alloc: Global, stated: &[Stated<'_>]) -> Result<Option<usize>, Fail> {
    let rules = rules_of(alloc, stated)?;
    match trimmed_count(alloc, rules) {
        Ok(count) => Ok(count),
        Err(_) => Err(Fail::from("refused")),
    }
}

#[test]
fn what_is_not_needed_is_trimmed(rt: HostRuntime) -> Result<(), Fail> {
    let twice_excluded = [
        Stated::Requires(By::Root, &[11], &[]),
        Stated::Excluded(11),
        Stated::Excluded(11),
    ];
    assert!(rt; trimmed_count_of(rt.alloc(), &twice_excluded)? == Some(2));
    assert!(rt; trimmed_count_of(rt.alloc(), &CLASH[..8])? == Some(8));
    Ok(())
}

/// The result of trimming random rules.
#[derive(Clone, Copy, PartialEq)]
enum Trimmed {
    /// Some set obeys the rules.
    Obeyed,
    /// No set obeys the rules that are left, and there are fewer of them.
    Fewer,
    /// No set obeys the rules that are left, and there are as many of them.
    AsMany,
    Wrong,
}

fn trim_rules(alloc: Global, rules: Vec<Rule<u32, u32>>) -> Result<Trimmed, Exhausted> {
    let count = rules.len();
    if find(alloc, &rules)?.is_some() {
        return Ok(Trimmed::Obeyed);
    }
    match trimmed_count(alloc, rules)? {
        Some(left) if left < count => Ok(Trimmed::Fewer),
        Some(left) if left == count => Ok(Trimmed::AsMany),
        _ => Ok(Trimmed::Wrong),
    }
}

/// Returns how many lists of random rules lose rules, and how many results are wrong.
fn trimmed_counts(alloc: Global) -> Result<(u32, u32), Exhausted> {
    let mut fewer: u32 = 0;
    let mut wrong: u32 = 0;
    for seed in 0..300 {
        let rules = draw_rules(alloc, seed)?;
        match trim_rules(alloc, rules)? {
            Trimmed::Obeyed | Trimmed::AsMany => (),
            Trimmed::Fewer => fewer = fewer.saturating_add(1),
            Trimmed::Wrong => wrong = wrong.saturating_add(1),
        }
    }
    Ok((fewer, wrong))
}

#[test]
fn random_conflicts_are_trimmed(rt: HostRuntime) -> Result<(), Fail> {
    match trimmed_counts(rt.alloc()) {
        Ok((fewer, wrong)) => {
            assert!(rt; wrong == 0);
            assert!(rt; fewer >= 100);
        }
        Err(_) => return Err(Fail::from("refused")),
    }
    Ok(())
}
