//! A plain search over a list of rules.

ghost use Rattle.std.specs.Prelude.{Any, ◌≡◌, IfErr, IfOk, MatchOption, ◌∷◌, [], IfNone, IfSome, IsTrue, IsFalse, MatchBool, All};
ghost use Rattle.resolver_clause_store.specs.Laws.{IsIdentity};
ghost use Rattle.resolver_clause_store.specs.Lists.{HasNoRepeats};
ghost use Rattle.resolver_clause_store.specs.Statements.{AllMeet, IsPresent};
ghost use Rattle.resolver_clause_store.specs.Rules.{AllNeeded, IsRefuted, Obeys};
ghost use Rattle.resolver_clause_store.specs.NumberedLists.{items_of};
ghost use Rattle.resolver_report.specs.Plain.{BreaksSome, Clashes, HasTwo, IsAllowed, IsOnlyInstance, IsBroken, MeetsRule, IsOpenRequirement};
ghost use Rattle.resolver_report.specs.Plain.{IsUnmetRequirement};
ghost use Rattle.resolver_report.specs.Plain.{HasNoOtherInstance};
ghost use Rattle.resolver_report.specs.Plain.{HasOtherInstance};
ghost use Rattle.resolver_report.specs.Searching.{IsAfterChoice, IsExamined, IsSearching, IsStepFrom, search_work, untried_view, work_of_choice, work_with};

use resolver_clause_store::{By, Exhausted, Rule, has, meets};
use std::alloc::Global;

/// Whether a requirer is present: a solvable if it is in the set, the root always.
fn is_present<S: Eq>(by: &By<S>, set: &[S]) -> bool
    requires { IsIdentity S.eq }
    ensures { MatchBool result (IsPresent by.now set.now) (IsPresent by.now set.now → ⊥) }
{
    match by {
        By::Root => true,
        By::Solvable(solvable) => has(set, solvable),
    }
}

/// Whether the rule is a constraint, lock or exclusion that the set breaks.
fn is_forbidden<N, S: Eq>(rule: &Rule<N, S>, set: &[S]) -> bool
    requires { IsIdentity S.eq }
    ensures { MatchBool result (IsBroken set.now rule.now) (IsAllowed set.now rule.now) }
{
    match rule {
        Rule::Requires { .. } | Rule::OnePerPackage { .. } => false,
        Rule::Constrains { by, candidate, .. } => is_present(by, set) && has(set, candidate),
        Rule::Lock { forbidden, .. } => has(set, forbidden),
        Rule::Excluded { solvable, .. } => has(set, solvable),
    }
}

/// Whether each of the lists has a member in the set.
fn all_meet<S: Eq>(lists: &[Vec<S>], set: &[S]) -> bool
    requires { IsIdentity S.eq }
    ensures { MatchBool result (AllMeet set.now (items_of lists.now)) (AllMeet set.now (items_of lists.now) → ⊥) }
{
    for list in lists {
        if !meets(list, set) {
            return false;
        }
    }
    true
}

/// The candidates of a requirement that is not met: its requirer and its conditions are in the set, its candidates are
/// not.
fn open_candidates<'a, N, S: Eq>(rule: &'a Rule<N, S>, set: &[S]) -> Option<&'a [S]>
    requires { IsIdentity S.eq }
    ensures { MatchOption result (MeetsRule set.now rule.now) (λ wanted. IsUnmetRequirement set.now wanted.now rule.now) }
{
    match rule {
        Rule::Requires {
            by,
            candidates,
            when,
            ..
        } => {
            if !is_present(by, set) {
                return None;
            }
            if !all_meet(when, set) {
                return None;
            }
            if meets(candidates, set) {
                return None;
            }
            Some(candidates)
        }
        Rule::Constrains { .. }
        | Rule::Lock { .. }
        | Rule::Excluded { .. }
        | Rule::OnePerPackage { .. } => None,
    }
}

/// Whether the set has something that a rule forbids.
fn breaks_some<N, S: Eq>(rules: &[Rule<N, S>], set: &[S]) -> bool
    requires { IsIdentity S.eq }
    ensures { MatchBool result (BreaksSome set.now rules.now) (All (IsAllowed set.now) rules.now) }
{
    for rule in rules {
        if is_forbidden(rule, set) {
            return true;
        }
    }
    false
}

/// Whether a rule lists another instance of this package, and the set has that instance.
fn lists_other_instance<N: Eq, S: Eq>(rule: &Rule<N, S>, set: &[S], name: &N, instance: &S) -> bool
    requires names { IsIdentity N.eq }
    requires solvables { IsIdentity S.eq }
    ensures { MatchBool result (HasOtherInstance set.now name.now instance.now rule.now) (HasNoOtherInstance set.now name.now instance.now rule.now) }
{
    match rule {
        Rule::OnePerPackage {
            name: other_name,
            instance: other,
        } => {
            if other_name != name {
                return false;
            }
            if !has(set, other) {
                return false;
            }
            other != instance
        }
        Rule::Requires { .. }
        | Rule::Constrains { .. }
        | Rule::Lock { .. }
        | Rule::Excluded { .. } => { false }
    }
}

/// Whether one of the rules lists another instance of this package, and the set has that instance.
fn has_other<N: Eq, S: Eq>(rules: &[Rule<N, S>], set: &[S], name: &N, instance: &S) -> bool
    requires names { IsIdentity N.eq }
    requires solvables { IsIdentity S.eq }
    ensures { MatchBool result (Any (HasOtherInstance set.now name.now instance.now) rules.now)
        (All (HasNoOtherInstance set.now name.now instance.now) rules.now) }
{
    for rule in rules {
        if lists_other_instance(rule, set, name, instance) {
            return true;
        }
    }
    false
}

/// Whether a rule lists an instance in the set, and another rule lists another instance of its package in the set.
fn clashes<N: Eq, S: Eq>(rule: &Rule<N, S>, rules: &[Rule<N, S>], set: &[S]) -> bool
    requires names { IsIdentity N.eq }
    requires solvables { IsIdentity S.eq }
    ensures { MatchBool result (Clashes set.now rules.now rule.now) (IsOnlyInstance set.now rules.now rule.now) }
{
    match rule {
        Rule::OnePerPackage { name, instance } => {
            if !has(set, instance) {
                return false;
            }
            has_other(rules, set, name, instance)
        }
        Rule::Requires { .. }
        | Rule::Constrains { .. }
        | Rule::Lock { .. }
        | Rule::Excluded { .. } => false,
    }
}

/// Whether the set has two listed instances of one package.
fn has_two<N: Eq, S: Eq>(rules: &[Rule<N, S>], set: &[S]) -> bool
    requires names { IsIdentity N.eq }
    requires solvables { IsIdentity S.eq }
    ensures { MatchBool result (HasTwo set.now rules.now) (All (IsOnlyInstance set.now rules.now) rules.now) }
{
    for rule in rules {
        if clashes(rule, rules, set) {
            return true;
        }
    }
    false
}

/// The candidates of the first requirement that is not met.
fn first_open<'a, N, S: Eq>(rules: &'a [Rule<N, S>], set: &[S]) -> Option<&'a [S]>
    requires { IsIdentity S.eq }
    ensures { MatchOption result (All (MeetsRule set.now) rules.now) (λ wanted. IsOpenRequirement set.now rules.now wanted.now) }
{
    for rule in rules {
        if let Some(candidates) = open_candidates(rule, set) {
            return Some(candidates);
        }
    }
    None
}

/// The result of testing a set against the rules.
enum Examined<'r, S> {
    /// No set that contains this one obeys the rules.
    Refuted,
    /// The set obeys the rules.
    Obeys,
    /// The first requirement that is not met has these candidates.
    Open(&'r [S]),
}

/// Tests a set against the rules.
fn examine<'r, N: Eq, S: Eq>(rules: &'r [Rule<N, S>], set: &[S]) -> Examined<'r, S>
    requires names { IsIdentity N.eq }
    requires solvables { IsIdentity S.eq }
    ensures { IsExamined rules.now set.now result }
{
    if breaks_some(rules, set) {
        return Examined::Refuted;
    }
    if has_two(rules, set) {
        return Examined::Refuted;
    }
    match first_open(rules, set) {
        Some(wanted) => Examined::Open(wanted),
        None => Examined::Obeys,
    }
}

/// The candidates of a requirement that have not been tried.
#[derive(Drop)]
pub struct Untried<'r, S> {
    pub candidates: &'r [S],
}

/// The result of one step of the search.
#[derive(Clone, Copy)]
pub enum Step {
    /// The search goes on.
    GoesOn,
    /// The set obeys the rules.
    Found,
    /// No set obeys the rules.
    Refuted,
}

/// Tests the set after a choice. If no set that contains it obeys the rules, undoes the choice.
fn enter<'r, N: Eq, S: Copy + Eq + Drop>(
    rules: &'r [Rule<N, S>],
    set: &mut Vec<S>,
    untried: &mut Vec<Untried<'r, S>>,
) -> Result<Step, Exhausted>
    requires names { IsIdentity N.eq }
    requires solvables { IsIdentity S.eq }
    requires chosen { IsAfterChoice rules.now set.old.items (untried_view untried.old.items) }
    ensures step { IfOk result (IsStepFrom S.eq rules.now set.new untried.new (work_of_choice S.eq rules.now set.old.items (untried_view untried.old.items))) }
    ensures memory { IfErr result (λ e. e ≡ Exhausted.Memory) }
{
    match examine(rules, set) {
        Examined::Refuted => {
            set.pop();
            Ok(Step::GoesOn)
        }
        Examined::Obeys => Ok(Step::Found),
        Examined::Open(candidates) => {
            untried.push(Untried { candidates })?;
            Ok(Step::GoesOn)
        }
    }
}

/// Chooses the first untried candidate.
fn choose<'r, N: Eq, S: Copy + Eq + Drop>(
    rules: &'r [Rule<N, S>],
    set: &mut Vec<S>,
    untried: &mut Vec<Untried<'r, S>>,
    candidates: &'r [S],
    solvable: S,
    rest: &'r [S],
) -> Result<Step, Exhausted>
    requires names { IsIdentity N.eq }
    requires solvables { IsIdentity S.eq }
    requires candidates { candidates.now ≡ solvable ∷ rest.now }
    requires searching { IsSearching rules.now set.old.items (candidates.now ∷ untried_view untried.old.items) }
    ensures step { IfOk result (IsStepFrom S.eq rules.now set.new untried.new (work_with S.eq rules.now set.old candidates.now untried.old)) }
    ensures memory { IfErr result (λ e. e ≡ Exhausted.Memory) }
{
    untried.push(Untried { candidates: rest })?;
    set.push(solvable)?;
    let step = enter(rules, set, untried)?;
    Ok(step)
}

/// Chooses the next untried candidate, or undoes the last choice if none is left.
fn advance<'r, N: Eq, S: Copy + Eq + Drop>(
    rules: &'r [Rule<N, S>],
    set: &mut Vec<S>,
    untried: &mut Vec<Untried<'r, S>>,
) -> Result<Step, Exhausted>
    requires names { IsIdentity N.eq }
    requires solvables { IsIdentity S.eq }
    requires searching { IsSearching rules.now set.old.items (untried_view untried.old.items) }
    ensures step { IfOk result (IsStepFrom S.eq rules.now set.new untried.new (search_work S.eq rules.now set.old.items (untried_view untried.old.items))) }
    ensures memory { IfErr result (λ e. e ≡ Exhausted.Memory) }
{
    let Some(level) = untried.pop() else {
        return Ok(Step::Refuted);
    };
    let [solvable, rest @ ..] = level.candidates else {
        set.pop();
        return Ok(Step::GoesOn);
    };
    let step = choose(rules, set, untried, level.candidates, *solvable, rest)?;
    Ok(step)
}

/// Searches from the empty set.
fn search<'r, N: Eq, S: Copy + Eq + Drop>(
    rules: &'r [Rule<N, S>],
    set: &mut Vec<S>,
    untried: &mut Vec<Untried<'r, S>>,
) -> Result<bool, Exhausted>
    requires names { IsIdentity N.eq }
    requires solvables { IsIdentity S.eq }
    requires nothing_chosen { set.old.items ≡ [] }
    requires nothing_left { untried.old.items ≡ [] }
    ensures found { IfOk result (λ found. IsTrue found → Obeys set.new.items rules.now) }
    ensures needed { IfOk result (λ found. IsTrue found → AllNeeded rules.now set.new.items) }
    ensures once { IfOk result (λ found. IsTrue found → HasNoRepeats set.new.items) }
    ensures refuted { IfOk result (λ found. IsFalse found → IsRefuted rules.now) }
    ensures memory { IfErr result (λ e. e ≡ Exhausted.Memory) }
{
    let mut step = enter(rules, set, untried)?;
    while let Step::GoesOn = step {
        step = advance(rules, set, untried)?;
    }
    match step {
        Step::Found => Ok(true),
        Step::Refuted | Step::GoesOn => Ok(false),
    }
}

/// Finds a set that obeys the rules, or `None` if no set does.
///
/// The search starts from the empty set. While a requirement is not met, it tries the candidates of the first such
/// requirement in their order. So each solvable of the set is needed, and none is listed twice. The set is in the order
/// of the choices. The clauses say neither which order that is, nor which set is found if several obey the rules.
///
/// The time may be exponential in the number of rules. The choices are kept in a list, so the call stack does not grow
/// with them.
///
/// The error is [`Exhausted::Memory`] alone.
pub fn find<N: Eq, S: Copy + Eq + Drop>(
    alloc: Global,
    rules: &[Rule<N, S>],
) -> Result<Option<Vec<S>>, Exhausted>
    requires names { IsIdentity N.eq }
    requires solvables { IsIdentity S.eq }
    ensures found { IfOk result (λ answer. IfSome answer (λ set. Obeys set.items rules.now)) }
    ensures needed { IfOk result (λ answer. IfSome answer (λ set. AllNeeded rules.now set.items)) }
    ensures once { IfOk result (λ answer. IfSome answer (λ set. HasNoRepeats set.items)) }
    ensures refuted { IfOk result (λ answer. IfNone answer (IsRefuted rules.now)) }
    ensures memory { IfErr result (λ e. e ≡ Exhausted.Memory) }
{
    let mut set = Vec::new(alloc);
    let mut untried = Vec::new(alloc);
    if search(rules, &mut set, &mut untried)? {
        Ok(Some(set))
    } else {
        Ok(None)
    }
}
