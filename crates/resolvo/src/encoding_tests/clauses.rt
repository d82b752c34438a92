//! Clauses of small problems, worked out by hand.

mod turns;

ghost use Rattle.std.specs.Prelude.{◌≡◌, ◌≤◌, ◌^◌, [], All, Contains, IfErr, IfOk, OnOk};
ghost use Rattle.resolver_clause_store.specs.Caches.{IsTrueCache};
ghost use Rattle.resolver_clause_store.specs.Laws.{IsIdentity};
ghost use Rattle.resolver_clause_store.specs.Variables.{origins_in};
ghost use Rattle.resolver_clause_store.specs.declared.Origin.TheVariants.{Solvable as SolvableOrigin};
ghost use Rattle.resolver_encoding.specs.Encodings.{IsUnread};
ghost use Rattle.resolver_encoding.specs.Notes.{cache_in, notes_in};
ghost use Rattle.resolver_encoding.specs.SoFar.{IsReading};
ghost use Rattle.resolvo.specs.TestProvider.{test_universe};

use crate::test_provider::TestProvider;
use indexmap::IndexSet;
use resolver_clause_store::{
    Cache, ConditionId, ConditionalRequirement, DependencyProvider, Exhausted, Helper, Interner,
    Interrupted, Origin, Requirement, Variable, Variables, VersionSetId, append, clause, has,
    is_among,
};
use resolver_encoding::{Encoding, Progress};
use std::alloc::Global;
use std::cell::Cell;
use std::hash::Hash;
use std::mem::replace;
use std::test::Fail;

type Literals<'a> = &'a [(Origin<u32, u32>, bool)];

const ROOT: (Origin<u32, u32>, bool) = (Origin::Root, false);

fn always(version_set: u32) -> ConditionalRequirement {
    ConditionalRequirement {
        condition: None,
        requirement: Requirement::Single(VersionSetId(version_set)),
    }
}

fn when(condition: u32, version_set: u32) -> ConditionalRequirement {
    ConditionalRequirement {
        condition: Some(ConditionId(condition)),
        requirement: Requirement::Single(VersionSetId(version_set)),
    }
}

fn is_there(solvable: u32) -> (Origin<u32, u32>, bool) {
    (Origin::Solvable(solvable), true)
}

fn is_absent(solvable: u32) -> (Origin<u32, u32>, bool) {
    (Origin::Solvable(solvable), false)
}

fn bit(name: u32, index: u32, value: bool) -> (Origin<u32, u32>, bool) {
    (Origin::Helper(Helper::Bit { name, index }), value)
}

fn helper(version_set: u32, positive: bool) -> (Origin<u32, u32>, bool) {
    let helper = Helper::Condition(VersionSetId(version_set));
    (Origin::Helper(helper), positive)
}

/// Returns a provider whose solvables require and constrain version sets.
fn provider_of(
    alloc: Global,
    required: &[(u32, u32)],
    constrained: &[(u32, u32)],
) -> Result<TestProvider, Fail> {
    let mut requirements = Vec::new(alloc);
    for (solvable, version_set) in required {
        requirements.push((*solvable, always(*version_set)))?;
    }
    let mut constraints = Vec::new(alloc);
    for (solvable, version_set) in constrained {
        constraints.push((*solvable, VersionSetId(*version_set)))?;
    }
    Ok(TestProvider {
        alloc,
        requirements,
        constraints,
        cancelling: Cell::new(0),
        log: Cell::new(0),
    })
}

/// Makes a solvable exempt, if one is given, by a turn that begins before any package was asked.
fn spare<
    N: Copy + Eq + Hash + Drop,
    S: Copy + Eq + Hash + Drop,
    D: DependencyProvider<NameId = N, SolvableId = S>,
>(encoding: &mut Encoding<N, S>, provider: &D, exempt: Option<S>) -> Result<(), Exhausted>
    requires is_true { IsTrueCache (D.universe provider.now) (cache_in encoding.old) }
    requires nothing_read { IsUnread (notes_in encoding.old) }
    ensures is_true { IsTrueCache (D.universe provider.now) (cache_in encoding.new) }
    ensures nothing_read { OnOk result (IsUnread (notes_in encoding.new)) }
    ensures memory { IfErr result (λ e. e ≡ Exhausted.Memory) }
{
    match exempt {
        None => Ok(()),
        Some(solvable) => {
            encoding.begin_turn(provider, solvable)?;
            Ok(())
        }
    }
}

/// The state after a round of reading: its progress, the number of clauses, the number of deferred disjuncts, the
/// number of asked packages, and the provider's log of the packages whose candidates it gave.
type Round = (Progress, usize, usize, usize, u32);

/// Appends the solvable that a variable stands for, if it stands for one. Returns whether there is such a variable.
fn push_registered<N: Copy + Eq + Hash + Drop, S: Copy + Eq + Hash + Drop>(
    variables: &Variables<N, S>,
    list: &mut Vec<S>,
    number: u16,
) -> Result<bool, Exhausted>
    requires known { All (λ s. Contains (origins_in variables.now) (SolvableOrigin s)) list.old.items }
    ensures known { OnOk result (All (λ s. Contains (origins_in variables.now) (SolvableOrigin s)) list.new.items) }
    ensures memory { IfErr result (λ e. e ≡ Exhausted.Memory) }
{
    match variables.origin(Variable::new(u32::from(number))) {
        None => Ok(false),
        Some(Origin::Solvable(solvable)) => {
            list.push(solvable)?;
            Ok(true)
        }
        Some(Origin::Root | Origin::Helper(_)) => Ok(true),
    }
}

/// Returns the solvables that have variables, in the order of the variables.
fn registered<N: Copy + Eq + Hash + Drop, S: Copy + Eq + Hash + Drop>(
    alloc: Global,
    variables: &Variables<N, S>,
) -> Result<Vec<S>, Exhausted>
    ensures known { IfOk result (λ list. All (λ s. Contains (origins_in variables.now) (SolvableOrigin s)) list.items) }
    ensures memory { IfErr result (λ e. e ≡ Exhausted.Memory) }
{
    let mut list = Vec::new(alloc);
    for number in 0..u16::MAX {
        if !push_registered(variables, &mut list, number)? {
            return Ok(list);
        }
    }
    Ok(list)
}

/// Adds a solvable to the set, if it is among the known ones.
fn choose_known<N: Copy + Eq + Hash + Drop, S: Copy + Eq + Hash + Drop>(
    variables: &Variables<N, S>,
    known: &[S],
    chosen: &mut IndexSet<S>,
    solvable: S,
) -> Result<(), Exhausted>
    requires solvables { IsIdentity S.eq }
    requires all_known { All (λ s. Contains (origins_in variables.now) (SolvableOrigin s)) known.now }
    requires known { All (λ s. Contains (origins_in variables.now) (SolvableOrigin s)) chosen.old.keys }
    ensures known { OnOk result (All (λ s. Contains (origins_in variables.now) (SolvableOrigin s)) chosen.new.keys) }
    ensures memory { IfErr result (λ e. e ≡ Exhausted.Memory) }
{
    if !has(known, &solvable) {
        return Ok(());
    }
    if is_among(chosen, &solvable) {
        return Ok(());
    }
    append(chosen, solvable)?;
    Ok(())
}

/// Returns the set of those solvables that have variables.
fn chosen_of<N: Copy + Eq + Hash + Drop, S: Copy + Eq + Hash + Drop>(
    alloc: Global,
    variables: &Variables<N, S>,
    given: &[S],
) -> Result<IndexSet<S>, Exhausted>
    requires solvables { IsIdentity S.eq }
    ensures known { IfOk result (λ chosen. All (λ s. Contains (origins_in variables.now) (SolvableOrigin s)) chosen.keys) }
    ensures memory { IfErr result (λ e. e ≡ Exhausted.Memory) }
{
    let known = registered(alloc, variables)?;
    let mut chosen = IndexSet::new(alloc);
    for solvable in given {
        choose_known(variables, &known, &mut chosen, *solvable)?;
    }
    Ok(chosen)
}

/// Reads those solvables that have variables, as if they were the chosen ones.
fn read_given<
    N: Copy + Eq + Hash + Drop,
    S: Copy + Eq + Hash + Drop,
    D: DependencyProvider<NameId = N, SolvableId = S>,
>(
    alloc: Global,
    encoding: &mut Encoding<N, S>,
    provider: &D,
    given: &[S],
) -> Result<Progress, Interrupted<D::Cancel>>
    requires is_true { IsTrueCache (D.universe provider.now) (cache_in encoding.old) }
    requires reading { IsReading (D.universe provider.now) [] (notes_in encoding.old) }
    ensures is_true { IsTrueCache (D.universe provider.now) (cache_in encoding.new) }
    ensures reading { OnOk result (IsReading (D.universe provider.now) [] (notes_in encoding.new)) }
{
    let chosen = chosen_of(alloc, encoding.variables(), given)?;
    let progress = encoding.read_chosen(provider, &chosen, 0)?;
    Ok(progress)
}

/// Reads all solvables that have variables, as if they were the chosen ones.
fn read_known<
    N: Copy + Eq + Hash + Drop,
    S: Copy + Eq + Hash + Drop,
    D: DependencyProvider<NameId = N, SolvableId = S>,
>(
    alloc: Global,
    encoding: &mut Encoding<N, S>,
    provider: &D,
) -> Result<Progress, Interrupted<D::Cancel>>
    requires is_true { IsTrueCache (D.universe provider.now) (cache_in encoding.old) }
    requires reading { IsReading (D.universe provider.now) [] (notes_in encoding.old) }
    ensures is_true { IsTrueCache (D.universe provider.now) (cache_in encoding.new) }
    ensures reading { OnOk result (IsReading (D.universe provider.now) [] (notes_in encoding.new)) }
{
    let known = registered(alloc, encoding.variables())?;
    let progress = read_given(alloc, encoding, provider, &known)?;
    Ok(progress)
}

/// Reads the root, possibly with an exempt solvable, and then four times all solvables that have variables by then.
fn read<
    N: Copy + Eq + Hash + Drop,
    S: Copy + Eq + Hash + Drop,
    D: DependencyProvider<NameId = N, SolvableId = S>,
>(
    alloc: Global,
    encoding: &mut Encoding<N, S>,
    provider: &D,
    exempt: Option<S>,
    requirements: &[ConditionalRequirement],
) -> Result<(), Interrupted<D::Cancel>>
    requires is_true { IsTrueCache (D.universe provider.now) (cache_in encoding.old) }
    requires nothing_read { IsUnread (notes_in encoding.old) }
    ensures { IsTrueCache (D.universe provider.now) (cache_in encoding.new) }
{
    spare(encoding, provider, exempt)?;
    encoding.read_root(provider, requirements, &[])?;
    for _ in 0..4 {
        read_known(alloc, encoding, provider)?;
    }
    Ok(())
}

/// Returns whether the package of a solvable was asked.
///
/// If it was not, the turn of the solvable makes it exempt. That turn is ended at once, so the encoding is as before.
fn is_asked<
    N: Copy + Eq + Hash + Drop,
    S: Copy + Eq + Hash + Drop,
    D: DependencyProvider<NameId = N, SolvableId = S>,
>(encoding: &mut Encoding<N, S>, provider: &D, solvable: S) -> Result<bool, Interrupted<D::Cancel>>
    requires is_true { IsTrueCache (D.universe provider.now) (cache_in encoding.old) }
    requires reading { IsReading (D.universe provider.now) [] (notes_in encoding.old) }
    ensures is_true { IsTrueCache (D.universe provider.now) (cache_in encoding.new) }
    ensures reading { OnOk result (IsReading (D.universe provider.now) [] (notes_in encoding.new)) }
{
    let before = encoding.exempt().len();
    encoding.begin_turn(provider, solvable)?;
    let is_asked = encoding.exempt().len() == before;
    encoding.end_turn(provider, before)?;
    Ok(is_asked)
}

/// Returns the number of packages that were asked, of those that the provider has.
fn asked_count(
    encoding: &mut Encoding<u32, u32>,
    provider: &TestProvider,
) -> Result<usize, Interrupted<u8>>
    requires is_true { IsTrueCache (test_universe provider.now.requirements.items provider.now.constraints.items) (cache_in encoding.old) }
    requires reading { IsReading (test_universe provider.now.requirements.items provider.now.constraints.items) []
        (notes_in encoding.old) }
    ensures is_true { IsTrueCache (test_universe provider.now.requirements.items provider.now.constraints.items) (cache_in encoding.new) }
    ensures reading { OnOk result (IsReading (test_universe provider.now.requirements.items provider.now.constraints.items) []
        (notes_in encoding.new)) }
{
    let mut count: usize = 0;
    for name in 0..100u32 {
        let asked = is_asked(encoding, provider, 10 * name + 1)?;
        count = count.saturating_add(asked as usize);
    }
    Ok(count)
}

/// Reads the root, and then each of these sets in turn, as if it were the chosen one.
fn rounds_of(
    encoding: &mut Encoding<u32, u32>,
    provider: &TestProvider,
    requirements: &[ConditionalRequirement],
    turns: &[&[u32]],
) -> Result<Vec<Round>, Interrupted<u8>>
    requires is_true { IsTrueCache (test_universe provider.now.requirements.items provider.now.constraints.items) (cache_in encoding.old) }
    requires nothing_read { IsUnread (notes_in encoding.old) }
    ensures { IsTrueCache (test_universe provider.now.requirements.items provider.now.constraints.items) (cache_in encoding.new) }
{
    encoding.read_root(provider, requirements, &[])?;
    let mut rounds = Vec::new(provider.alloc);
    for given in turns {
        let progress = read_given(provider.alloc, encoding, provider, given)?;
        let clauses = encoding.clause_count();
        let deferred = encoding.deferred_count();
        let asked = asked_count(encoding, provider)?;
        rounds.push((progress, clauses, deferred, asked, provider.log.get()))?;
    }
    Ok(rounds)
}

/// Registers these solvables in turn.
fn register_all<
    N: Copy + Eq + Hash + Drop,
    S: Copy + Eq + Hash + Drop,
    D: DependencyProvider<NameId = N, SolvableId = S>,
>(encoding: &mut Encoding<N, S>, provider: &D, solvables: &[S]) -> Result<(), Exhausted>
    requires { IsTrueCache (D.universe provider.now) (cache_in encoding.old) }
    ensures { IsTrueCache (D.universe provider.now) (cache_in encoding.new) }
{
    for solvable in solvables {
        encoding.register(provider, *solvable)?;
    }
    Ok(())
}

/// Returns whether a clause has these literals, in order.
fn is_clause(encoding: &Encoding<u32, u32>, number: usize, wanted: Literals<'_>) -> bool {
    let clauses = encoding.literals();
    if clauses.len() <= number {
        return false;
    }
    let literals = clause(clauses, number);
    if literals.len() != wanted.len() {
        return false;
    }
    for (literal, (origin, positive)) in literals.iter().zip(wanted) {
        if encoding.variables().origin(literal.variable()) != Some(*origin) {
            return false;
        }
        if literal.is_positive() != *positive {
            return false;
        }
    }
    true
}

/// Returns whether each of these clauses has its number.
fn are_clauses(encoding: &Encoding<u32, u32>, wanted: &[(usize, Literals<'_>)]) -> bool {
    for (number, literals) in wanted {
        if !is_clause(encoding, *number, literals) {
            return false;
        }
    }
    true
}

/// The numbers of clauses and of exempt solvables when the turn of a solvable has begun, and the same after it was
/// refused.
type Turn = (usize, usize, usize, usize);

/// The steps of a test with an encoding.
#[derive(Clone, Copy)]
enum Steps<'a> {
    /// The root is read.
    Root,
    /// The root is read, and then four times all solvables that have variables by then.
    Known,
    /// The same, and ids run out at this many variables.
    Ids(usize),
    /// The root is read, and then each of these sets in turn, as if it were the chosen one, with these rounds.
    Rounds(&'a [&'a [u32]], &'a [Round]),
    /// These solvables are registered.
    Registered(&'a [u32]),
    /// The turn of a solvable begins after the root was read, these solvables are read, and it is refused, with this
    /// result.
    Refused(u32, &'a [u32], Turn),
}

/// The steps of a test, and the expected state after them.
#[derive(Clone, Copy)]
struct Case<'a> {
    /// A solvable that is exempt. It matters only to `Known` and `Ids`.
    exempt: Option<u32>,
    requirements: &'a [ConditionalRequirement],
    steps: Steps<'a>,
    /// The number of clauses, if it is checked.
    count: Option<usize>,
    /// Some of the clauses by number, if any are checked.
    clauses: Option<&'a [(usize, Literals<'a>)]>,
    /// The requirement clauses, if they are checked.
    asked: Option<&'a [(usize, bool, usize)]>,
}

/// Returns whether ids ran out.
fn is_out_of_ids(outcome: &Result<(), Interrupted<u8>>) -> bool {
    matches!(outcome, Err(Interrupted::Exhausted(Exhausted::Ids)))
}

/// Returns whether the rounds are these, in order.
fn are_rounds(outcome: &Result<Vec<Round>, Interrupted<u8>>, wanted: &[Round]) -> bool {
    match outcome {
        Ok(rounds) => rounds.as_slice() == wanted,
        Err(_) => false,
    }
}

/// Takes the steps, and returns whether they have the expected result.
fn are_done(encoding: &mut Encoding<u32, u32>, provider: &TestProvider, case: &Case<'_>) -> bool
    requires is_true { IsTrueCache (test_universe provider.now.requirements.items provider.now.constraints.items) (cache_in encoding.old) }
    requires nothing_read { IsUnread (notes_in encoding.old) }
    ensures { IsTrueCache (test_universe provider.now.requirements.items provider.now.constraints.items) (cache_in encoding.new) }
{
    match &case.steps {
        Steps::Root => encoding.read_root(provider, case.requirements, &[]).is_ok(),
        Steps::Known => read(
            provider.alloc,
            encoding,
            provider,
            case.exempt,
            case.requirements,
        )
        .is_ok(),
        Steps::Ids(variables) => {
            let outcome = read(
                provider.alloc,
                encoding,
                provider,
                case.exempt,
                case.requirements,
            );
            is_out_of_ids(&outcome) & (encoding.variables().len() == *variables)
        }
        Steps::Rounds(turns, rounds) => {
            let outcome = rounds_of(encoding, provider, case.requirements, turns);
            are_rounds(&outcome, rounds)
        }
        Steps::Registered(solvables) => register_all(encoding, provider, solvables).is_ok(),
        Steps::Refused(solvable, given, turn) => {
            let outcome = turns::refused(
                provider.alloc,
                encoding,
                provider,
                case.requirements,
                *solvable,
                given,
            );
            turns::is_turn(&outcome, *turn)
        }
    }
}

/// Returns whether the encoding has the expected state.
fn is_there_then(encoding: &Encoding<u32, u32>, case: &Case<'_>) -> bool {
    let count = match case.count {
        Some(count) => encoding.clause_count() == count,
        None => true,
    };
    let asked = match case.asked {
        Some(asked) => are_requirements(encoding, asked),
        None => true,
    };
    let clauses = match case.clauses {
        Some(clauses) => are_clauses(encoding, clauses),
        None => true,
    };
    count & asked & clauses
}

/// Returns whether a test succeeds with an encoding within these limits.
///
/// Only this function owns an encoding, because the prover takes a minute for a function that owns one.
fn holds_within(
    alloc: Global,
    limits: (usize, usize),
    provider: &TestProvider,
    cache: &mut Cache<u32, u32>,
    case: &Case<'_>,
) -> bool
    requires limits { limits.0 ≤ 2 ^ 31 }
    requires is_true { IsTrueCache (test_universe provider.now.requirements.items provider.now.constraints.items) cache.old }
    ensures { IsTrueCache (test_universe provider.now.requirements.items provider.now.constraints.items) cache.new }
{
    let taken = replace(cache, Cache::new(alloc));
    let mut encoding = Encoding::new(alloc, taken, limits.0, limits.1);
    let holds = are_done(&mut encoding, provider, case) & is_there_then(&encoding, case);
    drop(replace(cache, encoding.into_cache()));
    holds
}

/// Returns whether a test succeeds, within these limits.
fn holds(alloc: Global, limits: (usize, usize), provider: &TestProvider, case: &Case<'_>) -> bool
    requires { limits.0 ≤ 2 ^ 31 }
{
    let mut cache = Cache::new(alloc);
    holds_within(alloc, limits, provider, &mut cache, case)
}

/// Returns whether these requirements give this many clauses, possibly with an exempt solvable, and these are among
/// them.
fn states<'x>(
    alloc: Global,
    provider: TestProvider,
    exempt: Option<u32>,
    requirements: &'x [ConditionalRequirement],
    count: usize,
    wanted: &'x [(usize, Literals<'x>)],
) -> bool {
    let case = Case {
        exempt,
        requirements,
        steps: Steps::Known,
        count: Some(count),
        clauses: Some(wanted),
        asked: None,
    };
    holds(alloc, (100, 100), &provider, &case)
}

#[test]
fn a_requirement_of_a_requirement_has_its_clause(rt: HostRuntime) -> Result<(), Fail> {
    let provider = provider_of(rt.alloc(), &[(11, 24)], &[])?;
    let wanted: [(usize, Literals<'_>); 3] = [
        (0, &[(Origin::Root, true)]),
        (1, &[ROOT, is_there(11)]),
        (2, &[is_absent(11), is_there(24)]),
    ];
    assert!(rt; states(rt.alloc(), provider, None, &[always(11)], 3, &wanted));
    Ok(())
}

#[test]
fn candidates_of_a_package_are_kept_apart(rt: HostRuntime) -> Result<(), Fail> {
    let provider = provider_of(rt.alloc(), &[(14, 21), (21, 1000)], &[])?;
    let wanted: [(usize, Literals<'_>); 5] = [
        (1, &[is_absent(14), bit(1, 0, false)]),
        (2, &[is_absent(11), bit(1, 0, true)]),
        (3, &[ROOT, is_there(14), is_there(11)]),
        (4, &[is_absent(14), is_there(21)]),
        (5, &[is_absent(21)]),
    ];
    assert!(rt; states(rt.alloc(), provider, None, &[always(10)], 6, &wanted));
    Ok(())
}

/// Returns whether there are this many clauses after these solvables were registered, and these are among them.
fn has_registered<'x>(
    alloc: Global,
    solvables: &'x [u32],
    count: usize,
    wanted: &'x [(usize, Literals<'x>)],
) -> Result<bool, Fail> {
    let provider = provider_of(alloc, &[], &[])?;
    let case = Case {
        exempt: None,
        requirements: &[],
        steps: Steps::Registered(solvables),
        count: Some(count),
        clauses: Some(wanted),
        asked: None,
    };
    Ok(holds(alloc, (100, 100), &provider, &case))
}

#[test]
fn each_digit_of_a_number_has_a_clause(rt: HostRuntime) -> Result<(), Fail> {
    let solvables = [13, 11, 10, 14, 12];
    for (count, clauses) in [(1, 0), (2, 2), (3, 6), (4, 8), (5, 15)] {
        assert!(rt; has_registered(rt.alloc(), &solvables[..count], clauses, &[])?);
    }
    assert!(rt; has_registered(rt.alloc(), &[13, 21, 13, 11], 2, &[])?);
    Ok(())
}

#[test]
fn a_third_solvable_brings_a_digit(rt: HostRuntime) -> Result<(), Fail> {
    let wanted: [(usize, Literals<'_>); 4] = [
        (2, &[is_absent(13), bit(1, 1, false)]),
        (3, &[is_absent(11), bit(1, 1, false)]),
        (4, &[is_absent(10), bit(1, 0, false)]),
        (5, &[is_absent(10), bit(1, 1, true)]),
    ];
    assert!(rt; has_registered(rt.alloc(), &[13, 11, 10], 6, &wanted)?);
    Ok(())
}

/// Returns whether the requirements have these clauses, are of the root or not, and have this many ends of version sets
/// each.
fn are_requirements(encoding: &Encoding<u32, u32>, wanted: &[(usize, bool, usize)]) -> bool {
    let found = encoding.requirements();
    if found.len() != wanted.len() {
        return false;
    }
    for (clause, (number, of_root, ends)) in found.iter().zip(wanted) {
        if clause.number as usize != *number || clause.of_root != *of_root {
            return false;
        }
        let noted = encoding.union_ends().places_of(clause.number);
        if clause.is_union != (*ends != 0) || noted.len() != *ends {
            return false;
        }
    }
    true
}

/// Returns whether exactly these requirement clauses are read.
fn asks<'x>(
    alloc: Global,
    provider: TestProvider,
    requirements: &'x [ConditionalRequirement],
    wanted: &'x [(usize, bool, usize)],
) -> bool {
    let case = Case {
        exempt: None,
        requirements,
        steps: Steps::Known,
        count: None,
        clauses: None,
        asked: Some(wanted),
    };
    holds(alloc, (100, 100), &provider, &case)
}

#[test]
fn requirements_know_their_clauses(rt: HostRuntime) -> Result<(), Fail> {
    let provider = provider_of(rt.alloc(), &[(14, 21), (21, 1000)], &[])?;
    let wanted = [(3, true, 0), (4, false, 0), (5, false, 0)];
    assert!(rt; asks(rt.alloc(), provider, &[always(10)], &wanted));
    Ok(())
}

#[test]
fn a_lock_spares_the_locked_and_the_exempt(rt: HostRuntime) -> Result<(), Fail> {
    let provider = provider_of(rt.alloc(), &[], &[])?;
    let wanted: [(usize, Literals<'_>); 1] = [(1, &[ROOT, is_absent(74)])];
    assert!(rt; states(rt.alloc(), provider, None, &[always(70)], 5, &wanted));
    let provider = provider_of(rt.alloc(), &[], &[])?;
    assert!(rt; states(rt.alloc(), provider, Some(74), &[always(70)], 4, &[]));
    Ok(())
}

#[test]
fn an_exclusion_spares_the_exempt(rt: HostRuntime) -> Result<(), Fail> {
    let provider = provider_of(rt.alloc(), &[], &[])?;
    let wanted: [(usize, Literals<'_>); 1] = [(1, &[is_absent(84)])];
    assert!(rt; states(rt.alloc(), provider, None, &[always(80)], 5, &wanted));
    let provider = provider_of(rt.alloc(), &[], &[])?;
    assert!(rt; states(rt.alloc(), provider, Some(84), &[always(80)], 4, &[]));
    Ok(())
}

#[test]
fn unknown_dependencies_spare_nobody(rt: HostRuntime) -> Result<(), Fail> {
    let provider = provider_of(rt.alloc(), &[], &[])?;
    let wanted: [(usize, Literals<'_>); 1] = [(2, &[is_absent(94)])];
    assert!(rt; states(rt.alloc(), provider, Some(94), &[always(94)], 3, &wanted));
    Ok(())
}

#[test]
fn a_constraint_of_its_own_solvable_has_one_literal(rt: HostRuntime) -> Result<(), Fail> {
    let provider = provider_of(rt.alloc(), &[], &[(11, 14), (14, 21)])?;
    let wanted: [(usize, Literals<'_>); 2] = [
        (4, &[is_absent(14), is_absent(24)]),
        (5, &[is_absent(11)]),
    ];
    assert!(rt; states(rt.alloc(), provider, None, &[always(10)], 6, &wanted));
    Ok(())
}

#[test]
fn a_condition_has_helpers(rt: HostRuntime) -> Result<(), Fail> {
    let provider = provider_of(rt.alloc(), &[], &[])?;
    let root = [always(11), always(24), when(11_020, 34)];
    let wanted: [(usize, Literals<'_>); 5] = [
        (3, &[is_absent(11), helper(11, true)]),
        (4, &[ROOT, helper(11, false), is_there(34)]),
        (5, &[is_absent(21), helper(20, true)]),
        (6, &[is_absent(24), helper(20, true)]),
        (7, &[ROOT, helper(20, false), is_there(34)]),
    ];
    assert!(rt; states(rt.alloc(), provider, None, &root, 8, &wanted));
    Ok(())
}

/// Returns a provider whose solvable 11 requires version set 44 under a condition.
fn provider_when(alloc: Global, condition: u32) -> Result<TestProvider, Fail> {
    let mut provider = provider_of(alloc, &[], &[])?;
    provider.requirements.push((11, when(condition, 44)))?;
    Ok(provider)
}

/// Returns whether reading these sets in turn has these rounds, and the clauses are there at the end.
fn goes<'x>(
    alloc: Global,
    provider: TestProvider,
    requirements: &'x [ConditionalRequirement],
    turns: &'x [&'x [u32]],
    rounds: &'x [Round],
    wanted: &'x [(usize, Literals<'x>)],
) -> bool {
    let case = Case {
        exempt: None,
        requirements,
        steps: Steps::Rounds(turns, rounds),
        count: None,
        clauses: Some(wanted),
        asked: None,
    };
    holds(alloc, (100, 100), &provider, &case)
}

#[test]
fn a_condition_is_encoded_once_it_holds(rt: HostRuntime) -> Result<(), Fail> {
    let provider = provider_when(rt.alloc(), 24)?;
    let turns: [&[u32]; 3] = [&[11], &[11, 24], &[11, 24]];
    let rounds = [
        (Progress::Read, 5, 1, 2, 12),
        (Progress::Read, 7, 0, 3, 124),
        (Progress::Nothing, 7, 0, 3, 124),
    ];
    let wanted: [(usize, Literals<'_>); 2] = [
        (5, &[is_absent(24), helper(24, true)]),
        (6, &[is_absent(11), helper(24, false), is_there(44)]),
    ];
    let root = [always(11), always(20)];
    assert!(rt; goes(rt.alloc(), provider, &root, &turns, &rounds, &wanted));
    Ok(())
}

#[test]
fn a_condition_of_what_was_read_fires_once(rt: HostRuntime) -> Result<(), Fail> {
    let provider = provider_when(rt.alloc(), 24)?;
    let turns: [&[u32]; 4] = [&[24], &[11], &[11, 24], &[11, 24]];
    let rounds = [
        (Progress::Read, 5, 0, 2, 12),
        (Progress::Read, 5, 1, 2, 12),
        (Progress::Fired, 7, 0, 3, 124),
        (Progress::Nothing, 7, 0, 3, 124),
    ];
    let root = [always(11), always(20)];
    assert!(rt; goes(rt.alloc(), provider, &root, &turns, &rounds, &[]));
    Ok(())
}

#[test]
fn a_disjunct_that_does_not_hold_is_put_off(rt: HostRuntime) -> Result<(), Fail> {
    let provider = provider_when(rt.alloc(), 24_031_024)?;
    let turns: [&[u32]; 2] = [&[11, 24], &[11, 24]];
    let rounds = [
        (Progress::Read, 7, 1, 3, 1234),
        (Progress::Nothing, 7, 1, 3, 1234),
    ];
    let wanted: [(usize, Literals<'_>); 2] = [
        (5, &[is_absent(24), helper(24, true)]),
        (6, &[is_absent(11), helper(24, false), is_there(44)]),
    ];
    let root = [always(11), always(20)];
    assert!(rt; goes(rt.alloc(), provider, &root, &turns, &rounds, &wanted));
    Ok(())
}

#[test]
fn what_is_not_chosen_is_not_read(rt: HostRuntime) -> Result<(), Fail> {
    let provider = provider_of(rt.alloc(), &[(14, 24), (11, 34)], &[(11, 44)])?;
    let turns: [&[u32]; 1] = [&[14]];
    let rounds = [(Progress::Read, 5, 0, 2, 12)];
    let wanted: [(usize, Literals<'_>); 2] = [
        (3, &[ROOT, is_there(14), is_there(11)]),
        (4, &[is_absent(14), is_there(24)]),
    ];
    assert!(rt;
        goes(
            rt.alloc(),
            provider,
            &[always(10)],
            &turns,
            &rounds,
            &wanted
        )
    );
    Ok(())
}

#[test]
fn the_packages_of_a_condition_are_not_asked(rt: HostRuntime) -> Result<(), Fail> {
    let provider = provider_of(rt.alloc(), &[], &[])?;
    let turns: [&[u32]; 1] = [&[]];
    let rounds = [(Progress::Nothing, 1, 2, 0, 78)];
    assert!(rt;
        goes(
            rt.alloc(),
            provider,
            &[when(70_080, 11)],
            &turns,
            &rounds,
            &[]
        )
    );
    Ok(())
}

#[test]
fn hinted_candidates_are_read_at_once(rt: HostRuntime) -> Result<(), Fail> {
    let provider = provider_of(rt.alloc(), &[(164, 174), (174, 24)], &[])?;
    let turns: [&[u32]; 3] = [&[], &[164], &[164, 174]];
    let rounds = [
        (Progress::Nothing, 6, 0, 3, 1772),
        (Progress::Nothing, 6, 0, 3, 1772),
        (Progress::Nothing, 6, 0, 3, 1772),
    ];
    let wanted: [(usize, Literals<'_>); 2] = [
        (4, &[is_absent(164), is_there(174)]),
        (5, &[is_absent(174), is_there(24)]),
    ];
    assert!(rt;
        goes(
            rt.alloc(),
            provider,
            &[always(160)],
            &turns,
            &rounds,
            &wanted
        )
    );
    Ok(())
}

#[test]
fn others_are_read_when_they_are_chosen(rt: HostRuntime) -> Result<(), Fail> {
    let provider = provider_of(rt.alloc(), &[(64, 54), (54, 24)], &[])?;
    let turns: [&[u32]; 3] = [&[], &[64], &[64, 54]];
    let rounds = [
        (Progress::Nothing, 4, 0, 1, 6),
        (Progress::Read, 5, 0, 2, 65),
        (Progress::Read, 6, 0, 3, 652),
    ];
    assert!(rt; goes(rt.alloc(), provider, &[always(60)], &turns, &rounds, &[]));
    Ok(())
}

/// Returns a provider whose solvable 161 requires version set 174 under a condition.
fn provider_hinted_when(alloc: Global) -> Result<TestProvider, Fail> {
    let mut provider = provider_of(alloc, &[], &[])?;
    provider.requirements.push((161, when(164, 174)))?;
    Ok(provider)
}

#[test]
fn a_hint_does_not_make_a_condition_hold(rt: HostRuntime) -> Result<(), Fail> {
    let provider = provider_hinted_when(rt.alloc())?;
    let turns: [&[u32]; 2] = [&[161], &[164]];
    let rounds = [
        (Progress::Nothing, 4, 1, 1, 16),
        (Progress::Read, 6, 0, 2, 177),
    ];
    assert!(rt; goes(rt.alloc(), provider, &[always(160)], &turns, &rounds, &[]));
    Ok(())
}

/// Returns whether reading the root gives these clauses, after another encoding read these sets in turn and had as many
/// clauses.
fn is_read_again<'x>(
    alloc: Global,
    provider: TestProvider,
    requirements: &'x [ConditionalRequirement],
    turns: &'x [&'x [u32]],
    rounds: &'x [Round],
    count: usize,
    wanted: &'x [(usize, Literals<'x>)],
) -> bool {
    let first = Case {
        exempt: None,
        requirements,
        steps: Steps::Rounds(turns, rounds),
        count: Some(count),
        clauses: None,
        asked: None,
    };
    let second = Case {
        exempt: None,
        requirements,
        steps: Steps::Root,
        count: Some(count),
        clauses: Some(wanted),
        asked: None,
    };
    let mut cache = Cache::new(alloc);
    holds_within(alloc, (100, 100), &provider, &mut cache, &first)
        & holds_within(alloc, (100, 100), &provider, &mut cache, &second)
}

#[test]
fn candidates_whose_dependencies_are_cached_are_read_at_once(rt: HostRuntime) -> Result<(), Fail> {
    let provider = provider_of(rt.alloc(), &[(21, 34), (24, 34)], &[])?;
    let turns: [&[u32]; 1] = [&[24]];
    let rounds = [(Progress::Read, 5, 0, 2, 23)];
    let wanted: [(usize, Literals<'_>); 1] = [(4, &[is_absent(24), is_there(34)])];
    assert!(rt;
        is_read_again(
            rt.alloc(),
            provider,
            &[always(20)],
            &turns,
            &rounds,
            5,
            &wanted
        )
    );
    Ok(())
}

#[test]
fn what_was_read_is_not_read_again(rt: HostRuntime) -> Result<(), Fail> {
    let provider = provider_of(rt.alloc(), &[(11, 24)], &[])?;
    let turns: [&[u32]; 2] = [&[11], &[11]];
    let rounds = [
        (Progress::Read, 3, 0, 2, 12),
        (Progress::Nothing, 3, 0, 2, 12),
    ];
    assert!(rt; goes(rt.alloc(), provider, &[always(11)], &turns, &rounds, &[]));
    Ok(())
}

#[test]
fn a_disjunct_names_each_version_set_once(rt: HostRuntime) -> Result<(), Fail> {
    let provider = provider_of(rt.alloc(), &[], &[])?;
    let root = [always(34), always(14), when(34_014_034, 44)];
    let wanted: [(usize, Literals<'_>); 3] = [
        (3, &[is_absent(34), helper(34, true)]),
        (4, &[is_absent(14), helper(14, true)]),
        (
            5,
            &[ROOT, helper(34, false), helper(14, false), is_there(44)],
        ),
    ];
    assert!(rt; states(rt.alloc(), provider, None, &root, 6, &wanted));
    Ok(())
}

/// Returns whether ids run out under these limits, at this many variables and clauses.
fn ends_at<'x>(
    alloc: Global,
    provider: TestProvider,
    limits: (usize, usize),
    requirements: &'x [ConditionalRequirement],
    counts: (usize, usize),
) -> bool
    requires { limits.0 ≤ 2 ^ 31 }
{
    let case = Case {
        exempt: None,
        requirements,
        steps: Steps::Ids(counts.0),
        count: Some(counts.1),
        clauses: None,
        asked: None,
    };
    holds(alloc, limits, &provider, &case)
}

#[test]
fn limits_end_the_reading(rt: HostRuntime) -> Result<(), Fail> {
    let provider = provider_of(rt.alloc(), &[(11, 24)], &[])?;
    assert!(rt; ends_at(rt.alloc(), provider, (2, 100), &[always(11)], (2, 2)));
    let provider = provider_of(rt.alloc(), &[(11, 24)], &[])?;
    assert!(rt; ends_at(rt.alloc(), provider, (100, 2), &[always(11)], (3, 2)));
    Ok(())
}
