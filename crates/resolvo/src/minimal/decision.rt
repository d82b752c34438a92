//! Decides by a search over clauses whether a set obeys the marked rules.

ghost use Rattle.std.specs.Prelude.{[], ◌++◌, ◌<◌, ◌≤◌, ◌≡◌, ◌∷◌, All, Bool, IfErr, IfOk, IfSome, List, OnOk, Vec, length};
ghost use Rattle.std.specs.declared.alloc.Global.{Global};
ghost use Rattle.resolver_clause_store.specs.TrailView.{variable_count};
ghost use Rattle.resolver_clause_store.specs.Literals.{Literal};
ghost use Rattle.resolvo.specs.ClauseSearches.{IsConsistent, IsLoaded, IsRootTurn, numbers_of, trail_of};
ghost use Rattle.resolvo.specs.MarkedClauses.{AddsMarkedClause, AreMarksOf, HasEnded, HoldsMarked, IsMarked, VerdictIs};
ghost use Rattle.resolvo.specs.RuleClauses.{DecideRules};
ghost use Rattle.resolvo.specs.declared.minimal.rule_clauses.RuleClause.{RuleClause};

use super::no_packages::NoPackages;
use super::rule_clauses::{RuleClause, RuleClauses};
use crate::clause_search::{ClauseSearch, Outcome};
use resolver_clause_store::{
    Activity, Clauses, Exhausted, Interrupted, Literal, RequirementClause, Rule, Trail, UnionEnds,
    Variable, narrow,
};
use std::alloc::{AllocError, Global};
use std::mem::drop;

/// The decision on the marked rules.
#[derive(Drop)]
pub enum Verdict {
    /// Some set obeys them. The values are those that the clause search found, or empty if the plain search decided.
    Obeyed(Vec<bool>),
    /// No set obeys the rules with these marks, all of which are among the marked rules.
    Refuted(Vec<bool>),
}

/// The clauses of the marked rules, in the form that a search takes.
#[derive(Drop)]
pub struct MarkedClauses {
    pub clauses: Clauses,
    /// For each clause, the place of its rule.
    pub places: Vec<usize>,
    /// The clauses whose candidates are to be tried.
    pub requirements: Vec<RequirementClause>,
    /// None of these is a union, so there are no ends.
    pub union_ends: UnionEnds,
}

/// Appends a clause number to the clauses whose candidates are to be tried.
fn add_requirement(
    requirements: &mut Vec<RequirementClause>,
    number: usize,
) -> Result<(), AllocError>
    ensures { OnOk result (numbers_of requirements.new.items ≡ numbers_of requirements.old.items ++ number ∷ []) }
{
    requirements.push(RequirementClause {
        number: narrow(number)?,
        of_root: false,
        is_union: false,
    })?;
    Ok(())
}

/// Appends a clause of a marked rule.
fn add_clause(marked: &mut MarkedClauses, clause: &RuleClause) -> Result<(), AllocError>
    ensures { OnOk result ((marks : List Bool) → IsMarked marks clause.now → AddsMarkedClause marks marked.old marked.new clause.now) }
{
    let number = marked.clauses.len();
    marked.clauses.push(&clause.literals)?;
    marked.places.push(clause.rule)?;
    if !clause.is_requirement {
        return Ok(());
    }
    add_requirement(&mut marked.requirements, number)?;
    Ok(())
}

/// Appends a clause, if its rule is marked.
fn add_marked(
    marked: &mut MarkedClauses,
    clause: &RuleClause,
    marks: &[bool],
) -> Result<(), AllocError>
    requires { clause.now.rule < length marks.now }
    ensures { OnOk result (AddsMarkedClause marks.now marked.old marked.new clause.now) }
{
    if !marks[clause.rule] {
        return Ok(());
    }
    add_clause(marked, clause)?;
    Ok(())
}

/// Collects the clauses of the marked rules.
pub fn marked_clauses(
    alloc: Global,
    clauses: &[RuleClause],
    marks: &[bool],
) -> Result<MarkedClauses, AllocError>
    requires { All (λ (clause : RuleClause). clause.rule < length marks.now) clauses.now }
    ensures { IfOk result (HoldsMarked marks.now clauses.now) }
{
    let mut marked = MarkedClauses {
        clauses: Clauses::new(alloc),
        places: Vec::new(alloc),
        requirements: Vec::new(alloc),
        union_ends: UnionEnds::new(alloc),
    };
    'clauses: for index in 0..clauses.len() {
        add_marked(&mut marked, &clauses[index], marks)?;
    }
    Ok(marked)
}

/// Marks the rules of the clauses with these numbers.
pub fn marks_of(
    alloc: Global,
    count: usize,
    places: &[usize],
    numbers: &[usize],
) -> Result<Vec<bool>, AllocError>
    requires inside { All (λ number. number < length places.now) numbers.now }
    requires below { All (λ place. place < count) places.now }
    ensures { IfOk result (λ marks. AreMarksOf places.now numbers.now count marks.items) }
{
    let mut marks = vec![in alloc; false; count]?;
    'numbers: for index in 0..numbers.len() {
        marks[places[numbers[index]]] = true;
    }
    Ok(marks)
}

/// Returns whether the variable with this number is true.
fn is_set(trail: &Trail, number: usize) -> bool
    requires { number < variable_count trail.now }
{
    if number >= 1 << 31 {
        return false;
    }
    let literal = Literal::new(Variable::new(number as u32), true);
    trail.value(literal) == Some(true)
}

/// Returns the values of the first variables. A variable without a value counts as false.
fn values_of(alloc: Global, trail: &Trail, variables: usize) -> Result<Vec<bool>, AllocError>
    requires { variables ≤ variable_count trail.now }
{
    let mut values = Vec::new(alloc);
    for number in 0..variables {
        values.push(is_set(trail, number))?;
    }
    Ok(values)
}

/// Searches to the end, or returns `Refused` if the limit of learnt clauses is reached or ids run out.
fn search_on(
    alloc: Global,
    search: &mut ClauseSearch,
    learnt_limit: usize,
) -> Result<Outcome, Exhausted>
    requires consistent { IsConsistent search.old }
    requires root { IsRootTurn search.old }
    ensures outcome { IfOk result (HasEnded search.old search.new) }
    ensures variables { IfOk result (λ outcome. outcome ≡ Outcome.Finished → variable_count (trail_of search.new) ≡ variable_count (trail_of search.old)) }
    ensures memory { IfErr result (λ e. e ≡ Exhausted.Memory) }
{
    match search.run(alloc, &NoPackages { alloc }, learnt_limit, usize::MAX) {
        Ok(outcome) => Ok(outcome),
        Err(Interrupted::Exhausted(Exhausted::Memory)) => Err(Exhausted::Memory),
        Err(_) => Ok(Outcome::Refused),
    }
}

/// Decides by a new search over the clauses of the marked rules.
fn decide_by<N, S>(
    search: &mut ClauseSearch,
    rules: &[Rule<N, S>],
    form: &RuleClauses,
    marks: &[bool],
    marked: &MarkedClauses,
    learnt_limit: usize,
) -> Result<Option<Verdict>, Exhausted>
    requires consistent { IsConsistent search.old }
    requires blank { IsLoaded [] [] search.old }
    requires variables { variable_count (trail_of search.old) ≡ 0 }
    requires root { IsRootTurn search.old }
    requires size { length marks.now ≡ length rules.now }
    requires form { DecideRules rules.now form.now.variables form.now.clauses.items }
    requires marked { HoldsMarked marks.now form.now.clauses.items marked.now }
    ensures verdict { IfOk result (λ answer. IfSome answer (VerdictIs rules.now marks.now)) }
    ensures memory { IfErr result (λ e. e ≡ Exhausted.Memory) }
{
    let alloc = *form.clauses.allocator();
    search.load(
        form.variables,
        &marked.clauses,
        &marked.requirements,
        &marked.union_ends,
        &[],
    )?;
    match search_on(alloc, search, learnt_limit)? {
        Outcome::Finished => {
            let values = values_of(alloc, search.trail(), form.variables)?;
            Ok(Some(Verdict::Obeyed(values)))
        }
        Outcome::Contradiction(core) => {
            let part = marks_of(alloc, rules.len(), &marked.places, &core)?;
            Ok(Some(Verdict::Refuted(part)))
        }
        Outcome::Refused => Ok(None),
    }
}

/// Decides by a search whether a set obeys the marked rules, or returns `None` if it would learn more clauses than the
/// limit allows, or ids run out.
pub fn decide<N, S>(
    alloc: Global,
    rules: &[Rule<N, S>],
    form: &RuleClauses,
    marks: &[bool],
    learnt_limit: usize,
) -> Result<Option<Verdict>, Exhausted>
    requires size { length marks.now ≡ length rules.now }
    requires form { DecideRules rules.now form.now.variables form.now.clauses.items }
    ensures verdict { IfOk result (λ answer. IfSome answer (VerdictIs rules.now marks.now)) }
    ensures memory { IfErr result (λ e. e ≡ Exhausted.Memory) }
{
    let marked = marked_clauses(alloc, &form.clauses, marks)?;
    let mut search = ClauseSearch::new(alloc, Activity::standard());
    let verdict = decide_by(&mut search, rules, form, marks, &marked, learnt_limit);
    drop(search);
    drop(marked);
    Ok(verdict?)
}
