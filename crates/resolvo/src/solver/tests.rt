//! Problems of a few packages, with the answers worked out by hand.

ghost use Rattle.std.specs.Prelude.{◌^◌, ◌≤◌};
ghost use Rattle.resolvo.specs.Solvers.{IsSound, provider_in};
ghost use Rattle.resolvo.specs.TestProvider.{test_universe};

mod strangers;

use super::*;
use crate::problem::EmptySolvables;
use crate::test_provider::TestProvider;
use resolver_clause_store::{By, ConditionId, ConditionalRequirement, Requirement, VersionSetId};
use resolver_report::{ConflictGraph, ConflictNode, Rule, find};
use std::alloc::AllocError;
use std::cell::Cell;
use std::mem::drop;
use std::test::Fail;

type Outcome = Result<Vec<u32>, UnsolvableOrCancelled<TestProvider>>;

type TestProblem = Problem<u32, EmptySolvables<u32>>;

fn always(version_set: u32) -> ConditionalRequirement {
    ConditionalRequirement {
        condition: None,
        requirement: Requirement::Single(VersionSetId(version_set)),
    }
}

fn when(condition: u32, version_set: u32) -> ConditionalRequirement {
    ConditionalRequirement {
        condition: Some(ConditionId(condition)),
        requirement: Requirement::Single(VersionSetId(version_set)),
    }
}

/// The statements of a provider.
#[derive(Clone, Copy)]
struct Stated<'x> {
    /// The requirements of each solvable.
    required: &'x [(u32, ConditionalRequirement)],
    /// The constraints of each solvable.
    constrained: &'x [(u32, VersionSetId)],
}

/// The parts of a problem.
#[derive(Clone, Copy)]
enum Asked<'x> {
    /// No parts, as `new` makes it.
    Nothing,
    /// No parts, as `default` makes it.
    Unset,
    /// These requirements.
    Required(&'x [ConditionalRequirement]),
    /// These requirements and constraints.
    Constrained(&'x [ConditionalRequirement], &'x [VersionSetId]),
    /// The same, after requirement 14 and constraint 24 were replaced.
    Replaced(&'x [ConditionalRequirement], &'x [VersionSetId]),
}

/// The expected result of a problem.
#[derive(Clone, Copy)]
enum Wanted<'x> {
    /// These solvables are chosen.
    Chosen(&'x [u32]),
    /// The same, and this many disjuncts are deferred.
    Deferred(&'x [u32], usize),
    /// The same, with this many clauses and deferred disjuncts.
    Counted(&'x [u32], usize, usize),
    /// The same, and exactly these packages were asked for their candidates: the digits name them in order.
    Asking(&'x [u32], usize, usize, u32),
    /// Ids run out.
    Ids,
    /// The same, with this many clauses.
    IdsBehind(usize),
    /// There is a conflict whose rules no set obeys, both by trying all sets and by the plain search.
    Refuted,
}

/// A step of a test with a solver.
#[derive(Clone, Copy)]
enum Step<'x> {
    /// The limits of variables, clauses and learnt clauses are lowered.
    Room(u16),
    RoomForClauses(u16),
    RoomForLearning(u16),
    /// The limits are set back.
    Unlimited,
    /// It solves a problem, with this result.
    Solve(Asked<'x>, Wanted<'x>),
    /// It solves a problem, and then another one, for which these solvables are chosen. After that, the graph of the
    /// first one's conflict is right.
    Graph(Asked<'x>, Asked<'x>, &'x [u32]),
}

/// Returns a provider that states nothing yet.
fn provider_of_nothing(alloc: Global) -> TestProvider {
    TestProvider {
        alloc,
        requirements: Vec::new(alloc),
        constraints: Vec::new(alloc),
        cancelling: Cell::new(0),
        log: Cell::new(0),
    }
}

/// Makes a provider state the requirements and constraints of solvables.
fn state(provider: &mut TestProvider, stated: &Stated<'_>) -> Result<(), AllocError> {
    provider.requirements = Vec::from_slice(provider.alloc, stated.required)?;
    provider.constraints = Vec::from_slice(provider.alloc, stated.constrained)?;
    Ok(())
}

fn requiring(
    alloc: Global,
    required: &[ConditionalRequirement],
) -> Result<TestProblem, AllocError> {
    let requirements = Vec::from_slice(alloc, required)?;
    Ok(Problem::new().requirements(requirements))
}

fn constraining(
    alloc: Global,
    required: &[ConditionalRequirement],
    constrained: &[VersionSetId],
) -> Result<TestProblem, AllocError> {
    let constraints = Vec::from_slice(alloc, constrained)?;
    let problem = requiring(alloc, required)?;
    Ok(problem.constraints(constraints))
}

/// Returns a problem whose parts were set twice.
fn replacing(
    alloc: Global,
    required: &[ConditionalRequirement],
    constrained: &[VersionSetId],
) -> Result<TestProblem, AllocError> {
    let requirements = Vec::from_slice(alloc, required)?;
    let constraints = Vec::from_slice(alloc, constrained)?;
    let problem = constraining(alloc, &[always(14)], &[VersionSetId(24)])?;
    Ok(problem.requirements(requirements).constraints(constraints))
}

fn problem_of(alloc: Global, asked: &Asked<'_>) -> Result<TestProblem, AllocError> {
    match asked {
        Asked::Nothing => Ok(Problem::new()),
        Asked::Unset => Ok(Problem::default()),
        Asked::Required(required) => requiring(alloc, required),
        Asked::Constrained(required, constrained) => constraining(alloc, required, constrained),
        Asked::Replaced(required, constrained) => replacing(alloc, required, constrained),
    }
}

fn is_answer(outcome: &Outcome, wanted: &[u32]) -> bool {
    match outcome {
        Ok(chosen) => chosen.as_slice() == wanted,
        Err(_) => false,
    }
}

fn has_no_ids(outcome: &Outcome) -> bool {
    matches!(
        outcome,
        Err(UnsolvableOrCancelled::Exhausted(Exhausted::Ids))
    )
}

/// Returns whether the last problem had this result.
fn is_wanted(solver: &Solver<TestProvider>, outcome: &Outcome, wanted: &Wanted<'_>) -> bool {
    match wanted {
        Wanted::Chosen(chosen) => is_answer(outcome, chosen),
        Wanted::Deferred(chosen, deferred) => {
            is_answer(outcome, chosen) & (solver.deferred_requirements_count() == *deferred)
        }
        Wanted::Counted(chosen, clauses, deferred) => {
            is_answer(outcome, chosen)
                & (solver.clause_count() == *clauses)
                & (solver.deferred_requirements_count() == *deferred)
        }
        Wanted::Asking(chosen, clauses, deferred, asked) => {
            is_answer(outcome, chosen)
                & (solver.clause_count() == *clauses)
                & (solver.deferred_requirements_count() == *deferred)
                & (solver.provider().log.get() == *asked)
        }
        Wanted::Ids => has_no_ids(outcome),
        Wanted::IdsBehind(clauses) => has_no_ids(outcome) & (solver.clause_count() == *clauses),
        Wanted::Refuted => is_explained(solver, outcome),
    }
}

/// Returns whether a problem has this result.
fn ends_with(solver: &mut Solver<TestProvider>, problem: TestProblem, wanted: &Wanted<'_>) -> bool
    requires { IsSound (test_universe (provider_in solver.old).requirements.items
        (provider_in solver.old).constraints.items) solver.old }
    ensures { IsSound (test_universe (provider_in solver.new).requirements.items
        (provider_in solver.new).constraints.items) solver.new }
{
    let outcome = solver.solve(problem);
    is_wanted(solver, &outcome, wanted)
}

/// Returns whether the problem with these parts has this result.
fn solves(solver: &mut Solver<TestProvider>, asked: &Asked<'_>, wanted: &Wanted<'_>) -> bool
    requires { IsSound (test_universe (provider_in solver.old).requirements.items
        (provider_in solver.old).constraints.items) solver.old }
    ensures { IsSound (test_universe (provider_in solver.new).requirements.items
        (provider_in solver.new).constraints.items) solver.new }
{
    match problem_of(solver.alloc, asked) {
        Ok(problem) => ends_with(solver, problem, wanted),
        Err(_) => false,
    }
}

/// Sets the limit of variables.
fn limit_variables(solver: &mut Solver<TestProvider>, limit: u16)
    requires { IsSound (test_universe (provider_in solver.old).requirements.items
        (provider_in solver.old).constraints.items) solver.old }
    ensures { IsSound (test_universe (provider_in solver.new).requirements.items
        (provider_in solver.new).constraints.items) solver.new }
{
    solver.variable_limit = limit as usize;
}

/// Sets the limit of clauses.
fn limit_clauses(solver: &mut Solver<TestProvider>, limit: u16)
    requires { IsSound (test_universe (provider_in solver.old).requirements.items
        (provider_in solver.old).constraints.items) solver.old }
    ensures { IsSound (test_universe (provider_in solver.new).requirements.items
        (provider_in solver.new).constraints.items) solver.new }
{
    solver.clause_limit = limit as usize;
}

/// Sets the limit of learnt clauses.
fn limit_learning(solver: &mut Solver<TestProvider>, limit: u16)
    requires { IsSound (test_universe (provider_in solver.old).requirements.items
        (provider_in solver.old).constraints.items) solver.old }
    ensures { IsSound (test_universe (provider_in solver.new).requirements.items
        (provider_in solver.new).constraints.items) solver.new }
{
    solver.learnt_limit = limit as usize;
}

/// Sets back the limits to those of a new solver.
fn set_back_limits(solver: &mut Solver<TestProvider>)
    requires { IsSound (test_universe (provider_in solver.old).requirements.items
        (provider_in solver.old).constraints.items) solver.old }
    ensures { IsSound (test_universe (provider_in solver.new).requirements.items
        (provider_in solver.new).constraints.items) solver.new }
{
    solver.variable_limit = 1 << 31;
    solver.clause_limit = 1 << 31;
    solver.learnt_limit = 1 << 31;
}

/// Returns the conflict of a problem, if it has one.
fn conflict_in(
    solver: &mut Solver<TestProvider>,
    problem: TestProblem,
) -> Option<Conflict<u32, u32>>
    requires { IsSound (test_universe (provider_in solver.old).requirements.items
        (provider_in solver.old).constraints.items) solver.old }
    ensures { IsSound (test_universe (provider_in solver.new).requirements.items
        (provider_in solver.new).constraints.items) solver.new }
{
    match solver.solve(problem) {
        Err(UnsolvableOrCancelled::Unsolvable(conflict)) => Some(conflict),
        _ => None,
    }
}

/// Returns the conflict of the problem with these parts, if it has one.
fn conflict_of(solver: &mut Solver<TestProvider>, asked: &Asked<'_>) -> Option<Conflict<u32, u32>>
    requires { IsSound (test_universe (provider_in solver.old).requirements.items
        (provider_in solver.old).constraints.items) solver.old }
    ensures { IsSound (test_universe (provider_in solver.new).requirements.items
        (provider_in solver.new).constraints.items) solver.new }
{
    match problem_of(solver.alloc, asked) {
        Ok(problem) => conflict_in(solver, problem),
        Err(_) => None,
    }
}

/// Returns whether the graph of the first problem's conflict is right after these solvables were chosen for the second
/// one.
fn has_graph_afterwards(
    solver: &mut Solver<TestProvider>,
    first: &Asked<'_>,
    second: &Asked<'_>,
    chosen: &[u32],
) -> bool
    requires { IsSound (test_universe (provider_in solver.old).requirements.items
        (provider_in solver.old).constraints.items) solver.old }
    ensures { IsSound (test_universe (provider_in solver.new).requirements.items
        (provider_in solver.new).constraints.items) solver.new }
{
    let conflict = conflict_of(solver, first);
    solves(solver, second, &Wanted::Chosen(chosen)) & is_graph_right(solver, &conflict)
}

/// Takes a step, and returns whether it has the expected result.
fn goes(solver: &mut Solver<TestProvider>, step: &Step<'_>) -> bool
    requires { IsSound (test_universe (provider_in solver.old).requirements.items
        (provider_in solver.old).constraints.items) solver.old }
    ensures { IsSound (test_universe (provider_in solver.new).requirements.items
        (provider_in solver.new).constraints.items) solver.new }
{
    match step {
        Step::Room(variables) => {
            limit_variables(solver, *variables);
            true
        }
        Step::RoomForClauses(clauses) => {
            limit_clauses(solver, *clauses);
            true
        }
        Step::RoomForLearning(learnt) => {
            limit_learning(solver, *learnt);
            true
        }
        Step::Unlimited => {
            set_back_limits(solver);
            true
        }
        Step::Solve(asked, wanted) => solves(solver, asked, wanted),
        Step::Graph(first, second, chosen) => has_graph_afterwards(solver, first, second, chosen),
    }
}

/// Takes one step after another, and returns whether each has the expected result.
fn all_go(solver: &mut Solver<TestProvider>, steps: &[Step<'_>]) -> bool
    requires { IsSound (test_universe (provider_in solver.old).requirements.items
        (provider_in solver.old).constraints.items) solver.old }
    ensures { IsSound (test_universe (provider_in solver.new).requirements.items
        (provider_in solver.new).constraints.items) solver.new }
{
    for step in steps {
        if !goes(solver, step) {
            return false;
        }
    }
    true
}

/// Returns whether a new solver has no clauses, all steps succeed, and its provider still makes the same statements.
fn goes_through(solver: &mut Solver<TestProvider>, stated: &Stated<'_>, steps: &[Step<'_>]) -> bool
    requires { IsSound (test_universe (provider_in solver.old).requirements.items
        (provider_in solver.old).constraints.items) solver.old }
{
    let before = solver.clause_count();
    all_go(solver, steps)
        & (before == 0)
        & (solver.provider().requirements.len() == stated.required.len())
}

/// Returns whether these steps succeed with a solver over a provider of these statements.
///
/// Only this function owns a solver, because the prover takes long for each exit of a function that owns one.
fn holds(alloc: Global, stated: &Stated<'_>, steps: &[Step<'_>]) -> bool {
    let mut provider = provider_of_nothing(alloc);
    let has_room = state(&mut provider, stated).is_ok();
    let mut solver = Solver::new(alloc, provider);
    let held = has_room & goes_through(&mut solver, stated, steps);
    drop(solver);
    held
}

/// Returns whether steps succeed with a solver over a provider of these requirements and constraints.
fn goes_over<'x>(
    alloc: Global,
    required: &'x [(u32, ConditionalRequirement)],
    constrained: &'x [(u32, VersionSetId)],
    steps: &'x [Step<'x>],
) -> bool {
    let stated = Stated {
        required,
        constrained,
    };
    holds(alloc, &stated, steps)
}

/// Returns whether these solvables are chosen for a problem, with this many clauses and no deferred disjunct.
fn chooses<'x>(
    alloc: Global,
    required: &'x [(u32, ConditionalRequirement)],
    constrained: &'x [(u32, VersionSetId)],
    asked: Asked<'x>,
    chosen: &'x [u32],
    clauses: usize,
) -> bool {
    let step = Step::Solve(asked, Wanted::Counted(chosen, clauses, 0));
    goes_over(alloc, required, constrained, &[step])
}

#[test]
fn an_empty_problem_has_an_empty_answer(rt: HostRuntime) -> Result<(), Fail> {
    assert!(rt; chooses(rt.alloc(), &[], &[], Asked::Nothing, &[], 1));
    Ok(())
}

#[test]
fn a_requirement_of_a_requirement_is_met(rt: HostRuntime) -> Result<(), Fail> {
    let asked = Asked::Required(&[always(11)]);
    assert!(rt; chooses(rt.alloc(), &[(11, always(24))], &[], asked, &[11, 24], 3));
    Ok(())
}

#[test]
fn an_older_version_is_taken_where_the_newer_one_fails(rt: HostRuntime) -> Result<(), Fail> {
    let asked = Asked::Required(&[always(10)]);
    assert!(rt; chooses(rt.alloc(), &[(14, always(23))], &[], asked, &[11], 5));
    Ok(())
}

#[test]
fn locks_exclusions_and_unknown_needs_are_kept(rt: HostRuntime) -> Result<(), Fail> {
    for (version_set, wanted, count) in [(10, 14, 4), (70, 71, 5), (80, 81, 5), (90, 91, 5)] {
        let asked = Asked::Required(&[always(version_set)]);
        assert!(rt;
            chooses(rt.alloc(), &[], &[], asked, &[wanted], count),
            "version set {version_set}"
        );
    }
    Ok(())
}

#[test]
fn constraints_are_kept(rt: HostRuntime) -> Result<(), Fail> {
    let asked = Asked::Required(&[always(11), always(20)]);
    let constrained = [(11, VersionSetId(21))];
    assert!(rt; chooses(rt.alloc(), &[], &constrained, asked, &[11, 21], 6));
    Ok(())
}

/// Returns whether the requirement of a version set, and of 34 under a condition, has this answer, with these numbers
/// of clauses and deferred disjuncts, and exactly these packages are asked for their candidates.
fn chooses_under_condition(
    alloc: Global,
    version_set: u32,
    wanted: &[u32],
    counts: (usize, usize),
    asked: u32,
) -> bool {
    let required = [always(version_set), when(11_021, 34)];
    let step = Step::Solve(
        Asked::Required(&required),
        Wanted::Asking(wanted, counts.0, counts.1, asked),
    );
    goes_over(alloc, &[], &[], &[step])
}

#[test]
fn a_condition_activates_a_requirement(rt: HostRuntime) -> Result<(), Fail> {
    assert!(rt; chooses_under_condition(rt.alloc(), 11, &[11, 34], (4, 1), 123));
    assert!(rt; chooses_under_condition(rt.alloc(), 14, &[14], (2, 2), 12));
    Ok(())
}

/// Returns the step that lowers the limit of variables, or of clauses.
fn room_for<'x>(variables: bool, room: u16) -> Step<'x> {
    if variables {
        return Step::Room(room);
    }
    Step::RoomForClauses(room)
}

/// Returns whether ids run out behind two clauses with room for two, the problem has its answer with room for three, and
/// also after each of them with the limits set back.
fn runs_out(alloc: Global, variables: bool) -> bool {
    let asked = Asked::Required(&[always(11)]);
    let refused = Step::Solve(asked, Wanted::IdsBehind(2));
    let answered = Step::Solve(asked, Wanted::Counted(&[11, 24], 3, 0));
    let steps = [
        room_for(variables, 2),
        refused,
        Step::Unlimited,
        answered,
        room_for(variables, 3),
        answered,
        Step::Unlimited,
        answered,
    ];
    goes_over(alloc, &[(11, always(24))], &[], &steps)
}

#[test]
fn variables_run_out_at_the_limit(rt: HostRuntime) -> Result<(), Fail> {
    assert!(rt; runs_out(rt.alloc(), true));
    Ok(())
}

#[test]
fn clauses_run_out_at_the_limit(rt: HostRuntime) -> Result<(), Fail> {
    assert!(rt; runs_out(rt.alloc(), false));
    Ok(())
}

#[test]
fn learnt_clauses_run_out_at_the_limit(rt: HostRuntime) -> Result<(), Fail> {
    let required = [
        (11, always(31)),
        (14, always(31)),
        (21, always(34)),
        (24, always(34)),
    ];
    let asked = Asked::Required(&[always(10), always(20)]);
    let steps = [
        Step::RoomForLearning(0),
        Step::Solve(asked, Wanted::Ids),
        Step::Unlimited,
        Step::Solve(asked, Wanted::Refuted),
    ];
    assert!(rt; goes_over(rt.alloc(), &required, &[], &steps));
    Ok(())
}

#[test]
fn what_is_set_again_is_replaced(rt: HostRuntime) -> Result<(), Fail> {
    let asked = Asked::Replaced(&[always(20)], &[VersionSetId(21)]);
    assert!(rt; chooses(rt.alloc(), &[], &[], asked, &[21], 5));
    Ok(())
}

/// Returns whether two steps succeed, and a problem without requirements then has an empty answer.
fn goes_afresh<'x>(
    alloc: Global,
    required: &'x [(u32, ConditionalRequirement)],
    first: Step<'x>,
    second: Step<'x>,
) -> bool {
    let third = Step::Solve(Asked::Unset, Wanted::Counted(&[], 1, 0));
    goes_over(alloc, required, &[], &[first, second, third])
}

#[test]
fn each_problem_starts_afresh(rt: HostRuntime) -> Result<(), Fail> {
    let first = Asked::Required(&[always(11)]);
    let second = Asked::Required(&[always(20)]);
    let first = Step::Solve(first, Wanted::Counted(&[11, 24], 3, 0));
    let second = Step::Solve(second, Wanted::Counted(&[24], 4, 0));
    assert!(rt; goes_afresh(rt.alloc(), &[(11, always(24))], first, second));
    Ok(())
}

/// Returns whether two equal problems both have this answer, with no deferred disjunct.
fn answers_twice<'x>(
    alloc: Global,
    required: &'x [(u32, ConditionalRequirement)],
    asked: Asked<'x>,
    chosen: &'x [u32],
) -> bool {
    let first = Step::Solve(asked, Wanted::Chosen(chosen));
    let second = Step::Solve(asked, Wanted::Deferred(chosen, 0));
    goes_over(alloc, required, &[], &[first, second])
}

#[test]
fn hints_and_cached_answers_change_no_answer(rt: HostRuntime) -> Result<(), Fail> {
    let plain = [
        (4, always(14)),
        (4, always(20)),
        (14, always(1000)),
        (24, always(30)),
        (34, always(11)),
    ];
    let asked = Asked::Required(&[always(0)]);
    assert!(rt; answers_twice(rt.alloc(), &plain, asked, &[1]));
    let hinted = [
        (104, always(114)),
        (104, always(120)),
        (114, always(1000)),
        (124, always(130)),
        (134, always(111)),
    ];
    let asked = Asked::Required(&[always(100)]);
    assert!(rt; answers_twice(rt.alloc(), &hinted, asked, &[101]));
    Ok(())
}

/// Returns whether the first requirement alone leaves two disjuncts deferred, and a candidate is chosen once one of
/// them is met.
fn answers_once_met<'x>(
    alloc: Global,
    required: &'x [(u32, ConditionalRequirement)],
    asked: &'x [ConditionalRequirement; 2],
    chosen: &'x [u32; 3],
) -> bool {
    let alone = Step::Solve(
        Asked::Required(&asked[..1]),
        Wanted::Deferred(&chosen[..1], 2),
    );
    let both = Step::Solve(Asked::Required(asked), Wanted::Deferred(chosen, 1));
    goes_over(alloc, required, &[], &[alone, both])
}

#[test]
fn hints_leave_put_off_what_does_not_hold(rt: HostRuntime) -> Result<(), Fail> {
    let required = [(1, when(11_031, 21))];
    let asked = [always(1), always(11)];
    assert!(rt; answers_once_met(rt.alloc(), &required, &asked, &[1, 11, 21]));
    let required = [(101, when(111_131, 121))];
    let asked = [always(101), always(111)];
    assert!(rt; answers_once_met(rt.alloc(), &required, &asked, &[101, 111, 121]));
    Ok(())
}

fn is_there(by: &By<u32>, set: &[u32]) -> bool {
    match by {
        By::Root => true,
        By::Solvable(solvable) => set.contains(solvable),
    }
}

fn meet(list: &[u32], set: &[u32]) -> bool {
    for solvable in list {
        if set.contains(solvable) {
            return true;
        }
    }
    false
}

fn obeys_alone(rule: &Rule<u32, u32>, set: &[u32]) -> bool {
    match rule {
        Rule::Requires {
            by,
            candidates,
            when,
            ..
        } => {
            let mut active = is_there(by, set);
            for list in when {
                active = active && meet(list, set);
            }
            !active || meet(candidates, set)
        }
        Rule::Constrains { by, candidate, .. } => !is_there(by, set) || !set.contains(candidate),
        Rule::Lock { forbidden, .. } => !set.contains(forbidden),
        Rule::Excluded { solvable, .. } => !set.contains(solvable),
        Rule::OnePerPackage { .. } => true,
    }
}

/// Returns whether two listed instances of this name are in the set.
fn has_two(rules: &[Rule<u32, u32>], wanted: u32, set: &[u32]) -> bool {
    let mut first = None;
    for rule in rules {
        if let Rule::OnePerPackage { name, instance } = rule {
            if *name == wanted && set.contains(instance) {
                if first.is_some() && first != Some(*instance) {
                    return true;
                }
                first = Some(*instance);
            }
        }
    }
    false
}

fn obeys(rules: &[Rule<u32, u32>], set: &[u32]) -> bool {
    for rule in rules {
        if !obeys_alone(rule, set) {
            return false;
        }
        if let Rule::OnePerPackage { name, .. } = rule {
            if has_two(rules, *name, set) {
                return false;
            }
        }
    }
    true
}

/// Returns whether a set of the six solvables, by the digits of a number, obeys the rules.
fn obeys_by_digits(rules: &[Rule<u32, u32>], digits: u32) -> bool {
    let six = [31, 34, 41, 44, 51, 54];
    let mut set = [0; 6];
    for place in 0..6 {
        if (digits >> place) % 2 == 1 {
            set[place] = six[place];
        }
    }
    obeys(rules, &set)
}

/// Returns whether no set of the six solvables obeys the rules, while some obey one of them.
fn is_refuted(rules: &[Rule<u32, u32>]) -> bool {
    for digits in 0..64u32 {
        if obeys_by_digits(rules, digits) {
            return false;
        }
    }
    rules.iter().any(|rule| obeys_alone(rule, &[31]))
}

/// Returns whether there is a conflict whose rules no set obeys, both by trying all sets and by the plain search.
fn is_explained(solver: &Solver<TestProvider>, outcome: &Outcome) -> bool {
    match outcome {
        Err(UnsolvableOrCancelled::Unsolvable(conflict)) => {
            is_refuted(conflict.rules())
                & matches!(&find(solver.alloc, conflict.rules()), Ok(None))
                & (10 <= solver.clause_count())
        }
        _ => false,
    }
}

#[test]
fn no_set_obeys_the_rules_of_a_conflict(rt: HostRuntime) -> Result<(), Fail> {
    let required = [
        (31, always(51)),
        (34, always(51)),
        (41, always(54)),
        (44, always(54)),
    ];
    let asked = Asked::Required(&[always(30), always(40)]);
    let step = Step::Solve(asked, Wanted::Refuted);
    assert!(rt; goes_over(rt.alloc(), &required, &[], &[step]));
    Ok(())
}

/// Returns whether a graph has just the root, the missing node, and one edge from the first to the second.
fn is_missing_alone(conflict: &ConflictGraph<u32>) -> bool {
    let nodes = [ConflictNode::Root, ConflictNode::UnresolvedDependency];
    match conflict.graph.edges() {
        [edge] => {
            (conflict.graph.nodes() == nodes.as_slice())
                & (edge.source == conflict.root_node)
                & (conflict.unresolved_node == Some(edge.target))
        }
        _ => false,
    }
}

/// Returns whether there is a conflict, and its graph is right.
fn is_graph_right(solver: &Solver<TestProvider>, conflict: &Option<Conflict<u32, u32>>) -> bool {
    match conflict {
        Some(conflict) => match &conflict.graph(solver) {
            Ok(graph) => is_missing_alone(graph),
            Err(_) => false,
        },
        None => false,
    }
}

/// Returns whether the graph of the first problem's conflict is right after these solvables were chosen for the second
/// one.
fn has_graph<'x>(alloc: Global, first: Asked<'x>, second: Asked<'x>, chosen: &'x [u32]) -> bool {
    goes_over(alloc, &[], &[], &[Step::Graph(first, second, chosen)])
}

#[test]
fn a_graph_is_that_of_its_conflict_whatever_was_solved_since(rt: HostRuntime) -> Result<(), Fail> {
    let first = Asked::Required(&[always(1000)]);
    let second = Asked::Required(&[always(10), always(20)]);
    assert!(rt; has_graph(rt.alloc(), first, second, &[14, 24]));
    Ok(())
}
