//! The rules that are about reached solvables.

ghost use Rattle.std.specs.Prelude.{◌≡◌, All, Contains, IfErr, IfOk, MatchBool};
ghost use Rattle.std.specs.HashMap.{get};
ghost use Rattle.indexmap.specs.IndexSet.{insert_all};
ghost use Rattle.resolver_clause_store.specs.Laws.{IsIdentity};
ghost use Rattle.resolver_report.specs.ReachedRules.{IsKept, LeavesJust, LeavesKept};
ghost use Rattle.resolver_report.specs.Listed.{optional_items};
ghost use Rattle.resolver_report.specs.Reaching.{IsAbout, IsReachedSet};
ghost use Rattle.resolver_clause_store.specs.Statements.{IsPresent};
ghost use Rattle.resolver_clause_store.specs.Rules.{IsRefuted};

use crate::candidate_lists::{CandidateLists, candidates_by_requirer};
use indexmap::IndexSet;
use resolver_clause_store::{By, Exhausted, Rule};
use std::alloc::Global;
use std::hash::Hash;

/// Whether a solvable is in the set.
fn is_member<S: Eq + Hash>(set: &IndexSet<S>, solvable: &S) -> bool
    requires { IsIdentity S.eq }
    ensures { MatchBool result (Contains set.now.keys solvable.now) (Contains set.now.keys solvable.now → ⊥) }
{
    set.contains(solvable)
}

/// Whether a requirer is present: a solvable if it is in the set, the root always.
fn is_present<S: Eq + Hash>(by: &By<S>, set: &IndexSet<S>) -> bool
    requires { IsIdentity S.eq }
    ensures { MatchBool result (IsPresent by.now set.now.keys) (IsPresent by.now set.now.keys → ⊥) }
{
    match by {
        By::Root => true,
        By::Solvable(solvable) => is_member(set, solvable),
    }
}

/// Adds the solvables that are not in the set yet.
fn add_all<S: Copy + Eq + Hash + Drop>(set: &mut IndexSet<S>, more: &[S]) -> Result<(), Exhausted>
    ensures added { IfOk result (λ _. set.new.keys ≡ insert_all S.eq set.old.keys more.now) }
    ensures memory { IfErr result (λ e. e ≡ Exhausted.Memory) }
{
    for solvable in more {
        set.insert(*solvable)?;
    }
    Ok(())
}

/// Adds the candidates that a solvable requires.
fn add_candidates_of<S: Copy + Eq + Hash + Drop>(
    set: &mut IndexSet<S>,
    candidate_lists: &CandidateLists<S>,
    solvable: S,
) -> Result<(), Exhausted>
    ensures added { IfOk result (λ _. set.new.keys ≡ insert_all S.eq set.old.keys (optional_items (get S.eq candidate_lists.now.by_solvable solvable))) }
    ensures memory { IfErr result (λ e. e ≡ Exhausted.Memory) }
{
    match candidate_lists.by_solvable.get(&solvable) {
        Some(more) => {
            add_all(set, more)?;
            Ok(())
        }
        None => Ok(()),
    }
}

/// Collects what the rules reach: what the root requires, then what each of these requires, and so on.
fn reached_by<N, S: Copy + Eq + Hash + Drop>(
    alloc: Global,
    rules: &[Rule<N, S>],
) -> Result<IndexSet<S>, Exhausted>
    requires { IsIdentity S.eq }
    ensures reached { IfOk result (λ set. IsReachedSet rules.now set.keys) }
    ensures memory { IfErr result (λ e. e ≡ Exhausted.Memory) }
{
    let candidate_lists = candidates_by_requirer(alloc, rules)?;
    let mut set = IndexSet::new(alloc);
    add_all(&mut set, &candidate_lists.by_root)?;
    let mut next = 0;
    while next < set.len() {
        let solvable = set[next];
        add_candidates_of(&mut set, &candidate_lists, solvable)?;
        next += 1;
    }
    Ok(set)
}

/// Whether everything that a rule is about is in the set.
fn is_about<N, S: Eq + Hash>(rule: &Rule<N, S>, set: &IndexSet<S>) -> bool
    requires { IsIdentity S.eq }
    ensures { MatchBool result (IsAbout set.now.keys rule.now) (IsAbout set.now.keys rule.now → ⊥) }
{
    match rule {
        Rule::Requires { by, .. } => is_present(by, set),
        Rule::Constrains { by, candidate, .. } => is_present(by, set) && is_member(set, candidate),
        Rule::Lock { forbidden, .. } => is_member(set, forbidden),
        Rule::Excluded { solvable, .. } => is_member(set, solvable),
        Rule::OnePerPackage { instance, .. } => is_member(set, instance),
    }
}

/// Drops each rule that is about something outside the set.
fn retain_about<N: Drop, S: Eq + Hash + Drop>(rules: &mut Vec<Rule<N, S>>, set: &IndexSet<S>)
    requires { IsIdentity S.eq }
    ensures { LeavesJust (IsAbout set.now.keys) rules.old.items rules.new.items }
{
    rules.retain(|rule| is_about(rule, set));
}

/// Keeps the rules that are about what is reached, in their order.
///
/// A solvable is reached if it is a candidate of a requirement of the root or of a reached solvable, whatever the
/// conditions. A rule is kept if its requirer is reached, as the root is, and so is the solvable that it forbids or
/// lists as an instance. If the rules are refuted, so are the kept ones, and keeping the reached ones of these drops
/// none.
///
/// The time is linear in the rules and the candidates that they list.
///
/// The error is [`Exhausted::Memory`] alone.
pub fn keep_reached<N: Drop, S: Copy + Eq + Hash + Drop>(
    alloc: Global,
    rules: Vec<Rule<N, S>>,
) -> Result<Vec<Rule<N, S>>, Exhausted>
    requires { IsIdentity S.eq }
    ensures left { IfOk result (λ kept. LeavesKept rules.items kept.items) }
    ensures again { IfOk result (λ kept. All (IsKept kept.items) kept.items) }
    ensures refuted { IfOk result (λ kept. IsRefuted rules.items → IsRefuted kept.items) }
    ensures memory { IfErr result (λ e. e ≡ Exhausted.Memory) }
{
    let set = reached_by(alloc, &rules)?;
    let mut kept = rules;
    retain_about(&mut kept, &set);
    Ok(kept)
}
