//! Minimal conflicts: each rule of a list has its turn, and is left out if no set obeys the others.

mod decision;
mod no_packages;
mod rotation;
mod rule_clauses;
mod rule_codes;
mod trimming;

ghost use Rattle.std.specs.Prelude.{[], IfErr, IfOk, IfSome, IsSome, OnOk, false, length, replicate, take, true, ◌+◌, ◌-◌, ◌<◌, ◌≡◌};
ghost use Rattle.std.specs.List.{AllZip, slice_index_or};
ghost use Rattle.resolver_clause_store.specs.Laws.{IsIdentity};
ghost use Rattle.resolver_clause_store.specs.Statements.{StatesTheSame};
ghost use Rattle.resolvo.specs.MarkedClauses.{VerdictIs};
ghost use Rattle.resolvo.specs.RuleClauses.{DecideRules};
ghost use Rattle.resolvo.specs.Minimal.{CopiesFirst, IsUnderway, LeavesInTurn, only_marked, others_of};
ghost use Rattle.resolvo.specs.Rotations.{AreNeeded, AreUnderway};

use decision::{Verdict, decide};
use resolver_clause_store::{Exhausted, Rule};
use resolver_report::find;
use rotation::rotate;
use rule_clauses::{RuleClauses, clauses_of};
use std::alloc::{AllocError, Global};
use std::hash::Hash;
use std::mem::drop;
pub use trimming::trimmed_marks;

/// Copies the marked rules.
pub fn copies_of<N: Copy + Drop, S: Copy + Drop>(
    alloc: Global,
    rules: &[Rule<N, S>],
    marks: &[bool],
) -> Result<Vec<Rule<N, S>>, Exhausted>
    requires { length marks.now ≡ length rules.now }
    ensures same { IfOk result (λ copies. AllZip StatesTheSame (only_marked marks.now rules.now) copies.items) }
    ensures memory { IfErr result (λ e. e ≡ Exhausted.Memory) }
{
    let mut copies = Vec::new(alloc);
    for place in 0..rules.len() {
        add_copy(&mut copies, rules, marks, place)?;
    }
    Ok(copies)
}

/// Appends a copy of a rule, if it is marked.
fn add_copy<N: Copy + Drop, S: Copy + Drop>(
    copies: &mut Vec<Rule<N, S>>,
    rules: &[Rule<N, S>],
    marks: &[bool],
    place: usize,
) -> Result<(), Exhausted>
    requires inside { place < length rules.now }
    requires size { length marks.now ≡ length rules.now }
    ensures same { OnOk result (CopiesFirst place marks.now rules.now copies.old.items → CopiesFirst (place + 1) marks.now rules.now copies.new.items) }
    ensures memory { IfErr result (λ e. e ≡ Exhausted.Memory) }
{
    if !marks[place] {
        return Ok(());
    }
    let copy = rules[place].clone()?;
    copies.push(copy)?;
    Ok(())
}

/// Returns the clauses of the rules, or `None` if there are more propositions than ids.
fn clauses_within<N: Copy + Eq + Hash + Drop, S: Copy + Eq + Hash + Drop>(
    alloc: Global,
    rules: &[Rule<N, S>],
) -> Result<Option<RuleClauses>, Exhausted>
    requires names { IsIdentity N.eq }
    requires solvables { IsIdentity S.eq }
    ensures form { IfOk result (λ answer. IfSome answer (λ form. DecideRules rules.now form.variables form.clauses.items)) }
    ensures memory { IfErr result (λ e. e ≡ Exhausted.Memory) }
{
    match clauses_of(alloc, rules) {
        Ok(form) => Ok(Some(form)),
        Err(Exhausted::Ids) => Ok(None),
        Err(Exhausted::Memory) => Err(Exhausted::Memory),
    }
}

/// Decides by the clauses of the rules whether a set obeys the marked ones. `None` if there are no clauses, if the
/// search would learn more clauses than the limit allows, or if ids run out.
fn verdict_of<N, S>(
    alloc: Global,
    rules: &[Rule<N, S>],
    form: &Option<RuleClauses>,
    marks: &[bool],
    learnt_limit: usize,
) -> Result<Option<Verdict>, Exhausted>
    requires size { length marks.now ≡ length rules.now }
    requires form { IfSome form.now (λ form. DecideRules rules.now form.variables form.clauses.items) }
    ensures verdict { IfOk result (λ answer. IfSome answer (VerdictIs rules.now marks.now)) }
    ensures memory { IfErr result (λ e. e ≡ Exhausted.Memory) }
{
    match form {
        Some(form) => {
            let verdict = decide(alloc, rules, form, marks, learnt_limit)?;
            Ok(verdict)
        }
        None => Ok(None),
    }
}

/// Decides by the plain search whether a set obeys the marked rules. This may take exponential time.
fn decide_plainly<N: Copy + Eq + Drop, S: Copy + Eq + Drop>(
    alloc: Global,
    rules: &[Rule<N, S>],
    marks: &[bool],
) -> Result<Verdict, Exhausted>
    requires names { IsIdentity N.eq }
    requires solvables { IsIdentity S.eq }
    requires size { length marks.now ≡ length rules.now }
    ensures verdict { IfOk result (VerdictIs rules.now marks.now) }
    ensures memory { IfErr result (λ e. e ≡ Exhausted.Memory) }
{
    let copies = copies_of(alloc, rules, marks)?;
    match find(alloc, &copies)? {
        Some(_) => Ok(Verdict::Obeyed(Vec::new(alloc))),
        None => {
            let part = Vec::from_slice(alloc, marks)?;
            Ok(Verdict::Refuted(part))
        }
    }
}

/// Decides whether a set obeys the marked rules: by their clauses, or by the plain search if there are none or ids run
/// out.
fn verdict_on<N: Copy + Eq + Drop, S: Copy + Eq + Drop>(
    alloc: Global,
    rules: &[Rule<N, S>],
    form: &Option<RuleClauses>,
    marks: &[bool],
) -> Result<Verdict, Exhausted>
    requires names { IsIdentity N.eq }
    requires solvables { IsIdentity S.eq }
    requires size { length marks.now ≡ length rules.now }
    requires form { IfSome form.now (λ form. DecideRules rules.now form.variables form.clauses.items) }
    ensures verdict { IfOk result (VerdictIs rules.now marks.now) }
    ensures memory { IfErr result (λ e. e ≡ Exhausted.Memory) }
{
    match verdict_of(alloc, rules, form, marks, usize::MAX)? {
        Some(verdict) => Ok(verdict),
        None => {
            let verdict = decide_plainly(alloc, rules, marks)?;
            Ok(verdict)
        }
    }
}

/// Marks the rules that remain when the one after `kept` has its turn: the kept ones and all those after it.
fn others(alloc: Global, kept: &[bool], count: usize) -> Result<Vec<bool>, AllocError>
    requires { length kept.now < count }
    ensures { IfOk result (λ marks. marks.items ≡ others_of kept.now (count - (length kept.now + 1))) }
{
    let mut marks = Vec::from_slice(alloc, kept)?;
    marks.push(false)?;
    let behind = vec![in alloc; true; count - marks.len()]?;
    marks.extend_from_slice(&behind)?;
    Ok(marks)
}

/// The state between two turns.
#[derive(Drop)]
struct Turns {
    /// For each rule that had its turn, whether it was kept.
    kept: Vec<bool>,
    /// The rules of the last core that was found. None of them has been left out.
    core: Vec<bool>,
    /// The rules that are known to be needed.
    needed: Vec<bool>,
}

/// Returns the state before the first turn, when no rule is kept or known to be needed.
fn first_turns(alloc: Global, count: usize, core: Vec<bool>) -> Result<Turns, AllocError>
    ensures kept { IfOk result (λ turns. turns.kept.items ≡ []) }
    ensures core { IfOk result (λ turns. turns.core ≡ core) }
    ensures needed { IfOk result (λ turns. turns.needed.items ≡ replicate count false) }
{
    let needed = vec![in alloc; false; count]?;
    Ok(Turns {
        kept: Vec::new(alloc),
        core,
        needed,
    })
}

/// Marks further rules that are needed, starting from values that obey all remaining rules except one.
fn note_needed(
    alloc: Global,
    form: &Option<RuleClauses>,
    turns: &mut Turns,
    values: Vec<bool>,
) -> Result<(), AllocError>
    requires needed { IfSome form.now (λ form. AreNeeded form.clauses.items turns.old.kept.items turns.old.needed.items) }
    ensures needed { OnOk result (IfSome form.now (λ form. AreNeeded form.clauses.items turns.new.kept.items turns.new.needed.items)) }
    ensures size { OnOk result (length turns.new.needed.items ≡ length turns.old.needed.items) }
    ensures kept { turns.new.kept ≡ turns.old.kept }
    ensures core { turns.new.core ≡ turns.old.core }
{
    if let Some(form) = form {
        rotate(alloc, &form.clauses, &turns.kept, &mut turns.needed, values)?;
    }
    Ok(())
}

/// Returns whether the rule that has its turn is known to be needed.
fn is_needed(form: &Option<RuleClauses>, turns: &Turns) -> bool
    requires { length turns.now.kept.items < length turns.now.needed.items }
    ensures some { result ≡ true → IsSome form.now }
    ensures marked { result ≡ true → slice_index_or turns.now.needed.items (length turns.now.kept.items) false ≡ true }
{
    match form {
        Some(_) => turns.needed[turns.kept.len()],
        None => false,
    }
}

/// Takes the turn of the rule after `kept`: it is kept if some set obeys the others.
///
/// A rule outside the core is left out without a search, and a rule that is known to be needed is kept without one. The
/// core stays valid until one of its rules is left out, which takes a search.
fn take_turn<N: Copy + Eq + Drop, S: Copy + Eq + Drop>(
    alloc: Global,
    rules: &[Rule<N, S>],
    form: &Option<RuleClauses>,
    turns: &mut Turns,
) -> Result<(), Exhausted>
    requires names { IsIdentity N.eq }
    requires solvables { IsIdentity S.eq }
    requires form { IfSome form.now (λ form. DecideRules rules.now form.variables form.clauses.items) }
    requires inside { length turns.old.kept.items < length rules.now }
    requires underway { AreUnderway rules.now form.now turns.old }
    ensures underway { OnOk result (AreUnderway rules.now form.now turns.new) }
    ensures next { OnOk result (length turns.new.kept.items ≡ length turns.old.kept.items + 1) }
    ensures memory { IfErr result (λ e. e ≡ Exhausted.Memory) }
{
    if !turns.core[turns.kept.len()] {
        turns.kept.push(false)?;
        return Ok(());
    }
    if is_needed(form, turns) {
        turns.kept.push(true)?;
        return Ok(());
    }
    let marks = others(alloc, &turns.kept, rules.len())?;
    match verdict_on(alloc, rules, form, &marks)? {
        Verdict::Refuted(part) => {
            turns.core = part;
            turns.kept.push(false)?;
            Ok(())
        }
        Verdict::Obeyed(values) => {
            note_needed(alloc, form, turns, values)?;
            turns.kept.push(true)?;
            Ok(())
        }
    }
}

/// Marks the rules that are left when each has had its turn.
fn take_turns<N: Copy + Eq + Drop, S: Copy + Eq + Drop>(
    alloc: Global,
    rules: &[Rule<N, S>],
    form: &Option<RuleClauses>,
    first: Vec<bool>,
) -> Result<Vec<bool>, Exhausted>
    requires names { IsIdentity N.eq }
    requires solvables { IsIdentity S.eq }
    requires form { IfSome form.now (λ form. DecideRules rules.now form.variables form.clauses.items) }
    requires underway { IsUnderway rules.now [] first.items }
    ensures left { IfOk result (λ kept. LeavesInTurn [] rules.now (only_marked kept.items rules.now)) }
    ensures size { IfOk result (λ kept. length kept.items ≡ length rules.now) }
    ensures memory { IfErr result (λ e. e ≡ Exhausted.Memory) }
{
    let mut turns = first_turns(alloc, rules.len(), first)?;
    for _turn in 0..rules.len() {
        take_turn(alloc, rules, form, &mut turns)?;
    }
    Ok(turns.kept)
}

/// Marks the rules that are left when each has had its turn, decided by the clauses of the rules.
fn left_by<N: Copy + Eq + Drop, S: Copy + Eq + Drop>(
    alloc: Global,
    rules: &[Rule<N, S>],
    form: &Option<RuleClauses>,
) -> Result<Vec<bool>, Exhausted>
    requires names { IsIdentity N.eq }
    requires solvables { IsIdentity S.eq }
    requires form { IfSome form.now (λ form. DecideRules rules.now form.variables form.clauses.items) }
    ensures left { IfOk result (λ kept. LeavesInTurn [] rules.now (only_marked kept.items rules.now)) }
    ensures size { IfOk result (λ kept. length kept.items ≡ length rules.now) }
    ensures memory { IfErr result (λ e. e ≡ Exhausted.Memory) }
{
    let all = vec![in alloc; true; rules.len()]?;
    match verdict_on(alloc, rules, form, &all)? {
        Verdict::Refuted(core) => {
            let kept = take_turns(alloc, rules, form, core)?;
            Ok(kept)
        }
        Verdict::Obeyed(_) => Ok(all),
    }
}

/// Marks the rules that are left when each has had its turn, first to last. A rule is left out exactly if no set obeys
/// those kept before it together with those after it.
pub fn left_in_turn<N: Copy + Eq + Hash + Drop, S: Copy + Eq + Hash + Drop>(
    alloc: Global,
    rules: &[Rule<N, S>],
) -> Result<Vec<bool>, Exhausted>
    requires names { IsIdentity N.eq }
    requires solvables { IsIdentity S.eq }
    ensures left { IfOk result (λ kept. LeavesInTurn [] rules.now (only_marked kept.items rules.now)) }
    ensures size { IfOk result (λ kept. length kept.items ≡ length rules.now) }
    ensures memory { IfErr result (λ e. e ≡ Exhausted.Memory) }
{
    let form = clauses_within(alloc, rules)?;
    let kept = left_by(alloc, rules, &form);
    drop(form);
    Ok(kept?)
}

#[cfg(test)]
mod tests;
