//! Trimmed conflicts: the rules of a list that short searches over them leave.

ghost use Rattle.std.specs.Prelude.{◌<◌, ◌≡◌, IfErr, IfOk, IfSome, OnOk, length};
ghost use Rattle.resolver_clause_store.specs.Laws.{IsIdentity};
ghost use Rattle.resolver_clause_store.specs.Rules.{IsRefuted};
ghost use Rattle.resolvo.specs.Minimal.{IsRefutedPart, only_marked};
ghost use Rattle.resolvo.specs.RuleClauses.{DecideRules};

use super::decision::Verdict;
use super::rule_clauses::RuleClauses;
use super::{clauses_within, verdict_of};
use crate::tuning::{TRIM_LEARNT, TRIM_SEARCHES, TRIM_TURNS};
use resolver_clause_store::{Exhausted, Rule};
use std::alloc::Global;
use std::hash::Hash;
use std::mem::drop;

/// Returns the number of marked rules.
fn marked_count(marks: &[bool]) -> usize {
    marks.iter().filter(|mark| **mark).count()
}

/// Returns whether at least a tenth of the marks is gone.
fn are_far_fewer(before: &[bool], after: &[bool]) -> bool {
    let count = marked_count(before);
    count.saturating_sub(marked_count(after)).saturating_mul(10) >= count
}

/// Searches over the clauses of the marked rules, and returns the marks of the rules that it used, if it finds that no set obeys
/// them. `None` if one does, or if the search would learn too many clauses.
fn used_rules<N, S>(
    alloc: Global,
    rules: &[Rule<N, S>],
    form: &Option<RuleClauses>,
    marks: &[bool],
) -> Result<Option<Vec<bool>>, Exhausted>
    requires size { length marks.now ≡ length rules.now }
    requires form { IfSome form.now (λ form. DecideRules rules.now form.variables form.clauses.items) }
    ensures part { IfOk result (λ answer. IfSome answer (λ used. IsRefutedPart rules.now marks.now used.items)) }
    ensures memory { IfErr result (λ e. e ≡ Exhausted.Memory) }
{
    let Some(verdict) = verdict_of(alloc, rules, form, marks, TRIM_LEARNT)? else {
        return Ok(None);
    };
    match verdict {
        Verdict::Refuted(used) => Ok(Some(used)),
        Verdict::Obeyed(_) => Ok(None),
    }
}

/// Keeps the marks of the rules that a search over the marked ones uses. Returns whether a further search may be worth its time.
fn search_again<N, S>(
    alloc: Global,
    rules: &[Rule<N, S>],
    form: &Option<RuleClauses>,
    marks: &mut Vec<bool>,
) -> Result<bool, Exhausted>
    requires size { length marks.old.items ≡ length rules.now }
    requires form { IfSome form.now (λ form. DecideRules rules.now form.variables form.clauses.items) }
    ensures size { OnOk result (length marks.new.items ≡ length rules.now) }
    ensures refuted { OnOk result (IsRefuted (only_marked marks.old.items rules.now) → IsRefuted (only_marked marks.new.items rules.now)) }
    ensures memory { IfErr result (λ e. e ≡ Exhausted.Memory) }
{
    match used_rules(alloc, rules, form, marks)? {
        Some(used) => {
            let goes_on = are_far_fewer(marks, &used);
            *marks = used;
            Ok(goes_on)
        }
        None => Ok(false),
    }
}

/// Marks the rules that are left by a few searches, each over the rules that the one before used.
fn used_again<N, S>(
    alloc: Global,
    rules: &[Rule<N, S>],
    form: &Option<RuleClauses>,
) -> Result<Vec<bool>, Exhausted>
    requires form { IfSome form.now (λ form. DecideRules rules.now form.variables form.clauses.items) }
    ensures size { IfOk result (λ marks. length marks.items ≡ length rules.now) }
    ensures refuted { IfOk result (λ marks. IsRefuted rules.now → IsRefuted (only_marked marks.items rules.now)) }
    ensures memory { IfErr result (λ e. e ≡ Exhausted.Memory) }
{
    let mut marks = vec![in alloc; true; rules.len()]?;
    'searches: for _search in 0..TRIM_SEARCHES {
        if !search_again(alloc, rules, form, &mut marks)? {
            return Ok(marks);
        }
    }
    Ok(marks)
}

/// Leaves out the rule at a place, if a search finds that no set obeys the others that are marked.
fn try_without<N, S>(
    alloc: Global,
    rules: &[Rule<N, S>],
    form: &Option<RuleClauses>,
    marks: &mut Vec<bool>,
    place: usize,
) -> Result<(), Exhausted>
    requires inside { place < length rules.now }
    requires size { length marks.old.items ≡ length rules.now }
    requires form { IfSome form.now (λ form. DecideRules rules.now form.variables form.clauses.items) }
    ensures size { OnOk result (length marks.new.items ≡ length rules.now) }
    ensures refuted { OnOk result (IsRefuted (only_marked marks.old.items rules.now) → IsRefuted (only_marked marks.new.items rules.now)) }
    ensures memory { IfErr result (λ e. e ≡ Exhausted.Memory) }
{
    if !marks[place] {
        return Ok(());
    }
    let mut others = Vec::from_slice(alloc, marks)?;
    others[place] = false;
    match used_rules(alloc, rules, form, &others)? {
        Some(used) => {
            *marks = used;
            Ok(())
        }
        None => Ok(()),
    }
}

/// Gives each marked rule its turn, first to last, if there are few of them: it is left out if a search finds that no set
/// obeys the others.
fn try_each<N, S>(
    alloc: Global,
    rules: &[Rule<N, S>],
    form: &Option<RuleClauses>,
    marks: &mut Vec<bool>,
) -> Result<(), Exhausted>
    requires size { length marks.old.items ≡ length rules.now }
    requires form { IfSome form.now (λ form. DecideRules rules.now form.variables form.clauses.items) }
    ensures size { OnOk result (length marks.new.items ≡ length rules.now) }
    ensures refuted { OnOk result (IsRefuted (only_marked marks.old.items rules.now) → IsRefuted (only_marked marks.new.items rules.now)) }
    ensures memory { IfErr result (λ e. e ≡ Exhausted.Memory) }
{
    if marked_count(marks) > TRIM_TURNS {
        return Ok(());
    }
    'turns: for place in 0..rules.len() {
        try_without(alloc, rules, form, marks, place)?;
    }
    Ok(())
}

/// Marks the rules that are left by both: the searches, each over the rules that the one before used, and the turns.
fn trim<N, S>(
    alloc: Global,
    rules: &[Rule<N, S>],
    form: &Option<RuleClauses>,
) -> Result<Vec<bool>, Exhausted>
    requires form { IfSome form.now (λ form. DecideRules rules.now form.variables form.clauses.items) }
    ensures size { IfOk result (λ marks. length marks.items ≡ length rules.now) }
    ensures refuted { IfOk result (λ marks. IsRefuted rules.now → IsRefuted (only_marked marks.items rules.now)) }
    ensures memory { IfErr result (λ e. e ≡ Exhausted.Memory) }
{
    let mut marks = used_again(alloc, rules, form)?;
    try_each(alloc, rules, form, &mut marks)?;
    Ok(marks)
}

/// Marks the rules of a smaller conflict, as far as short searches over their clauses find one.
///
/// Up to three searches run, each over the rules that the one before used, as long as each drops at least a tenth of them. If
/// at most 100 rules are left, each has its turn then. A search that would learn more than 500 clauses is given up, and leaves
/// no rule out.
pub fn trimmed_marks<N: Copy + Eq + Hash + Drop, S: Copy + Eq + Hash + Drop>(
    alloc: Global,
    rules: &[Rule<N, S>],
) -> Result<Vec<bool>, Exhausted>
    requires names { IsIdentity N.eq }
    requires solvables { IsIdentity S.eq }
    ensures size { IfOk result (λ marks. length marks.items ≡ length rules.now) }
    ensures refuted { IfOk result (λ marks. IsRefuted rules.now → IsRefuted (only_marked marks.items rules.now)) }
    ensures memory { IfErr result (λ e. e ≡ Exhausted.Memory) }
{
    let form = clauses_within(alloc, rules)?;
    let marks = trim(alloc, rules, &form);
    drop(form);
    Ok(marks?)
}
