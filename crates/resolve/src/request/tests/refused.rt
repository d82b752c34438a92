//! Each turn of the soft requirements of random problems, judged by trying all sets.
//!
//! To see the turns of a problem, it is solved with the first of its soft requirements, then with the first two, and so
//! on: a solver takes the same turns each time.

use super::random_problems::{RandomProblem, Soft, Statement};
use super::solving;
use super::solving::{Asked, Solved, digit, set_of};
use resolvo::UnsolvableOrCancelled;
use std::alloc::Global;
use std::test::Fail;

/// The number of problems that are drawn.
const PROBLEMS: u64 = 500;

/// The chosen set, and the exempt part of it.
#[derive(Clone, Copy)]
struct Answer {
    chosen: u32,
    exempt: u32,
}

/// The outcome of a turn.
#[derive(Clone, Copy)]
enum Turn {
    Wrong,
    Skipped,
    Accepted,
    Exempt,
    Refused,
    /// A candidate of a version set was accepted, or each was refused.
    Matched,
    Unmatched,
}

/// The number of each outcome, and the seed of a problem with a wrong one.
#[derive(Clone, Copy)]
struct Counts {
    wrong: Option<u64>,
    unsolvable: u32,
    skipped: u32,
    accepted: u32,
    exempt: u32,
    refused: u32,
    matched: u32,
    unmatched: u32,
}

/// A run over soft requirements: its answer, the solvables that were tried, and those that were accepted.
#[derive(Clone, Copy)]
struct Run {
    answer: Answer,
    tried: u32,
    accepted: u32,
    /// The packages of version sets that had their turns.
    asked: u32,
}

/// The options of a turn: solvables of a package, which may become exempt unless a version set names them.
#[derive(Clone, Copy)]
struct Tried {
    options: u32,
    package: u32,
    may_be_exempt: bool,
}

/// Returns the answer of a solver, if there is one.
fn answer_of(solved: &Solved) -> Result<Option<Answer>, Fail> {
    match &solved.outcome {
        Ok(chosen) => Ok(Some(Answer {
            chosen: set_of(chosen),
            exempt: solved.exempt,
        })),
        Err(UnsolvableOrCancelled::Unsolvable(_)) => Ok(None),
        Err(_) => Err(Fail::from("refused")),
    }
}

/// Solves an input with these soft requirements, and returns the answer, if there is one.
fn solve(alloc: Global, input: &str, soft: &[Soft]) -> Result<Option<Answer>, Fail> {
    let asked = Asked {
        soft,
        ..Asked::new(input)
    };
    let solved = solving::solve(alloc, asked)?;
    answer_of(&solved)
}

fn is_within(part: u32, set: u32) -> bool {
    part & set == part
}

fn obeys(statement: Statement, set: u32, exempt: u32) -> bool {
    match statement {
        Statement::Requires {
            by,
            candidates,
            when,
            ..
        } => !is_within(by, set) || !when.holds(set) || set & candidates != 0,
        Statement::Constrains { by, forbidden, .. } => !is_within(by, set) || set & forbidden == 0,
        Statement::Unknown(unknown) => set & unknown == 0,
        Statement::LockedOutOrExcluded(barred) => set & barred & !exempt == 0,
        Statement::OnePackage(members) => (set & members).count_ones() < 2,
    }
}

fn is_valid(statements: &[Statement], set: u32, exempt: u32) -> bool {
    for statement in statements {
        if !obeys(*statement, set, exempt) {
            return false;
        }
    }
    true
}

/// Returns whether a valid set of at most eight solvables contains a part.
fn fits(statements: &[Statement], part: u32, exempt: u32) -> bool {
    for set in 0..256u32 {
        if is_within(part, set) && is_valid(statements, set, exempt) {
            return true;
        }
    }
    false
}

/// Returns the members, with the candidates in bounds that they and the root require under conditions that hold in a
/// set.
fn with_required(statements: &[Statement], members: u32, set: u32, bounds: u32) -> u32 {
    let mut grown = members;
    for statement in statements {
        if let Statement::Requires {
            by,
            candidates,
            when,
            ..
        } = statement
        {
            if is_within(*by, members) && when.holds(set) {
                grown |= candidates & bounds;
            }
        }
    }
    grown
}

/// Returns the part of a set that is reached from the root and these seeds.
fn needed(statements: &[Statement], set: u32, seeds: u32) -> u32 {
    let mut members = seeds & set;
    for _ in 0..9u32 {
        members = with_required(statements, members, set, set);
    }
    members
}

/// Returns all solvables that reading may come to from the root and these seeds.
fn near(statements: &[Statement], seeds: u32) -> u32 {
    let mut members = seeds;
    for _ in 0..9u32 {
        members = with_required(statements, members, members, u32::MAX);
    }
    members
}

/// Returns the packages that the root and the members of a set name.
fn named(statements: &[Statement], set: u32) -> u32 {
    let mut packages = 0;
    for statement in statements {
        packages |= named_by(*statement, set);
    }
    packages
}

fn named_by(statement: Statement, set: u32) -> u32 {
    match statement {
        Statement::Requires {
            by,
            packages,
            when,
            ..
        } => {
            if is_within(by, set) && when.holds(set) {
                packages
            } else {
                0
            }
        }
        Statement::Constrains { by, packages, .. } => {
            if is_within(by, set) { packages } else { 0 }
        }
        _ => 0,
    }
}

/// Returns the packages that may have been asked.
fn may_be_asked(statements: &[Statement], run: Run) -> u32 {
    named(statements, near(statements, run.tried)) | run.asked
}

/// Returns whether the new exemptions of a turn are right.
///
/// A solvable is not exempt if its package was certainly asked or a version set names it, and it is exempt if its
/// package cannot have been asked.
fn is_exempt_rightly(statements: &[Statement], run: Run, tried: Tried, newly: u32) -> bool {
    if !tried.may_be_exempt {
        return newly == 0;
    }
    if newly != 0 {
        return (named(statements, run.answer.chosen) | run.asked) & tried.package == 0;
    }
    may_be_asked(statements, run) & tried.package != 0
}

/// Returns whether an answer may follow another one after a solvable was accepted.
fn is_accepted(
    statements: &[Statement],
    run: Run,
    tried: Tried,
    taken: u32,
    after: Answer,
) -> bool {
    let before = run.answer;
    let newly = after.exempt & taken;
    if after.exempt != before.exempt | newly || !is_within(before.chosen, after.chosen) {
        return false;
    }
    if !is_exempt_rightly(statements, run, tried, newly) {
        return false;
    }
    if !is_valid(statements, after.chosen, after.exempt) {
        return false;
    }
    needed(statements, after.chosen, run.accepted | taken) == after.chosen
}

/// Returns whether no valid set contains the chosen set and one of the options, with these exemptions.
fn none_fits(statements: &[Statement], chosen: u32, options: u32, exempt: u32) -> bool {
    for place in 0..8u32 {
        let option = digit(place) & options;
        if option != 0 && fits(statements, chosen | option, exempt) {
            return false;
        }
    }
    true
}

/// Returns whether no valid set contains the chosen set and an option, with the exemptions of its turn.
///
/// If the package may or may not have been asked, it is taken as asked.
fn is_refused(statements: &[Statement], run: Run, tried: Tried) -> bool {
    let before = run.answer;
    if !tried.may_be_exempt || may_be_asked(statements, run) & tried.package != 0 {
        return none_fits(statements, before.chosen, tried.options, before.exempt);
    }
    none_fits(
        statements,
        before.chosen,
        tried.options,
        before.exempt | tried.options,
    )
}

/// Judges the turn of a version set, which has to take the newest version that fits.
fn judge_matching(statements: &[Statement], run: Run, tried: Tried, taken: u32) -> Turn {
    let newer = tried.options & !taken & !taken.wrapping_sub(1);
    if none_fits(statements, run.answer.chosen, newer, run.answer.exempt) {
        Turn::Matched
    } else {
        Turn::Wrong
    }
}

/// Judges a turn that refused its options.
fn judge_refused(statements: &[Statement], run: Run, tried: Tried) -> Turn {
    if !is_refused(statements, run, tried) {
        return Turn::Wrong;
    }
    if tried.may_be_exempt {
        Turn::Refused
    } else {
        Turn::Unmatched
    }
}

/// Judges a turn by the answer after it.
fn judge_turn(statements: &[Statement], run: Run, tried: Tried, after: Answer) -> Turn {
    let before = run.answer;
    let is_same = after.chosen == before.chosen && after.exempt == before.exempt;
    if tried.options & before.chosen != 0 {
        return if is_same { Turn::Skipped } else { Turn::Wrong };
    }
    let taken = tried.options & after.chosen;
    if taken == 0 {
        return if is_same {
            judge_refused(statements, run, tried)
        } else {
            Turn::Wrong
        };
    }
    if !is_accepted(statements, run, tried, taken, after) {
        return Turn::Wrong;
    }
    if !tried.may_be_exempt {
        return judge_matching(statements, run, tried, taken);
    }
    if is_within(taken, after.exempt) {
        Turn::Exempt
    } else {
        Turn::Accepted
    }
}

fn count(counts: &mut Counts, seed: u64, turn: Turn) {
    match turn {
        Turn::Wrong => counts.wrong = Some(seed),
        Turn::Skipped => counts.skipped = counts.skipped.wrapping_add(1),
        Turn::Accepted => counts.accepted = counts.accepted.wrapping_add(1),
        Turn::Exempt => counts.exempt = counts.exempt.wrapping_add(1),
        Turn::Refused => counts.refused = counts.refused.wrapping_add(1),
        Turn::Matched => counts.matched = counts.matched.wrapping_add(1),
        Turn::Unmatched => counts.unmatched = counts.unmatched.wrapping_add(1),
    }
}

/// Returns whether the answer without soft requirements is right, or there is rightly none.
fn is_first(statements: &[Statement], answer: Option<Answer>) -> bool {
    match answer {
        None => !fits(statements, 0, 0),
        Some(first) => {
            first.exempt == 0
                && is_valid(statements, first.chosen, 0)
                && needed(statements, first.chosen, 0) == first.chosen
        }
    }
}

/// Returns the options of a soft requirement of a problem.
fn tried_by(problem: &RandomProblem, soft: Soft) -> Tried {
    let options = problem.options(soft);
    match soft {
        Soft::Solvable(place) => Tried {
            options,
            package: digit(problem.package(place)),
            may_be_exempt: true,
        },
        Soft::Versions { package, .. } => Tried {
            options,
            package: digit(package),
            may_be_exempt: false,
        },
    }
}

/// Gives a problem one more soft requirement, and judges its turn.
fn take_turn(
    alloc: Global,
    problem: &mut RandomProblem,
    soft: &mut Vec<Soft>,
    run: &mut Run,
) -> Result<Turn, Fail> {
    let drawn = problem.soft_requirement();
    soft.push(drawn)?;
    let Some(after) = solve(alloc, &problem.input, soft)? else {
        return Ok(Turn::Wrong);
    };
    let tried = tried_by(problem, drawn);
    let turn = judge_turn(&problem.statements, *run, tried, after);
    if !tried.may_be_exempt && tried.options & run.answer.chosen == 0 {
        run.asked |= tried.package;
    }
    run.accepted |= tried.options & after.chosen & !run.answer.chosen;
    run.answer = after;
    run.tried |= tried.options;
    Ok(turn)
}

/// Judges up to four turns.
fn take_turns(
    alloc: Global,
    problem: &mut RandomProblem,
    first: Answer,
    seed: u64,
    counts: &mut Counts,
) -> Result<(), Fail> {
    let mut soft = Vec::new(alloc);
    let mut run = Run {
        answer: first,
        tried: 0,
        accepted: 0,
        asked: 0,
    };
    for _ in 0..4u32 {
        let turn = take_turn(alloc, problem, &mut soft, &mut run)?;
        count(counts, seed, turn);
    }
    Ok(())
}

/// Judges the answer and the turns of a problem.
fn judge_problem(
    alloc: Global,
    problem: &mut RandomProblem,
    seed: u64,
    counts: &mut Counts,
) -> Result<(), Fail> {
    let first = solve(alloc, &problem.input, &[])?;
    if !is_first(&problem.statements, first) {
        counts.wrong = Some(seed);
    }
    match first {
        None => {
            counts.unsolvable = counts.unsolvable.wrapping_add(1);
            Ok(())
        }
        Some(first) => {
            take_turns(alloc, problem, first, seed, counts)?;
            Ok(())
        }
    }
}

/// Judges the problem of a seed.
fn judge(alloc: Global, seed: u64, counts: &mut Counts) -> Result<(), Fail> {
    let mut problem = RandomProblem::new(alloc, seed)?;
    judge_problem(alloc, &mut problem, seed, counts)
}

fn judge_all(alloc: Global) -> Result<Counts, Fail> {
    let mut counts = Counts {
        wrong: None,
        unsolvable: 0,
        skipped: 0,
        accepted: 0,
        exempt: 0,
        refused: 0,
        matched: 0,
        unmatched: 0,
    };
    for seed in 0..PROBLEMS {
        judge(alloc, seed, &mut counts)?;
    }
    Ok(counts)
}

#[test]
fn refused_soft_requirements_fit_into_no_valid_set(rt: HostRuntime) -> Result<(), Fail> {
    let counts = judge_all(rt.alloc())?;
    assert_eq!(rt; counts.wrong, None);
    assert!(rt; 50 <= counts.unsolvable && counts.unsolvable <= 150);
    assert!(rt; 100 <= counts.accepted && 200 <= counts.exempt && 300 <= counts.refused);
    assert!(rt; 50 <= counts.matched);
    assert!(rt; 50 <= counts.unmatched);
    Ok(())
}
