//! The results of searches over clauses.

ghost use Rattle.std.specs.Prelude.{◌<◌, ◌≡◌, All, IfOk, IfSome, IsTrue};
ghost use Rattle.resolver_clause_store.specs.Formula.{AreBelow, IsBelow};
ghost use Rattle.resolver_clause_store.specs.declared.RequirementClause.{RequirementClause};
ghost use Rattle.resolvo.specs.ClauseSearches.{IsConsistent, base_of};

mod random_clauses;
mod scores;

use super::*;
use crate::scanning::{decide, propagate as scan};
use crate::test_provider::TestProvider;
use resolver_clause_store::{Reason, Slot, Variable};
use std::cell::Cell;
use std::test::Fail;

/// Returns whether each variable of the clause is below the number.
fn is_below(clause: &[Literal], variables: usize) -> bool
    ensures { IsTrue result → IsBelow variables clause.now }
{
    clause
        .iter()
        .all(|literal| literal.variable().index() < variables)
}

/// Returns whether each variable of each clause is below the number.
fn are_below(table: &Clauses, variables: usize) -> bool
    ensures { IsTrue result → AreBelow variables table.now }
{
    'clauses: for number in 0..table.len() {
        if !is_below(clause(table, number), variables) {
            return false;
        }
    }
    true
}

/// Returns whether each requirement clause is one of the first `count` clauses.
fn are_inside(requirements: &[RequirementClause], count: usize) -> bool
    ensures { IsTrue result → All (λ (requirement : RequirementClause). requirement.number < count) requirements.now }
{
    requirements
        .iter()
        .all(|requirement| (requirement.number as usize) < count)
}

/// Returns the variable of a positive number, counted from 1, or the negation of that of a negative one.
fn literal(number: i32) -> Literal {
    Literal::new(
        Variable::new(number.unsigned_abs().saturating_sub(1)),
        number > 0,
    )
}

fn clause_of(alloc: Global, numbers: &[i32]) -> Result<Vec<Literal>, AllocError> {
    let mut literals = Vec::new(alloc);
    for number in numbers {
        literals.push(literal(*number))?;
    }
    Ok(literals)
}

fn table_of(alloc: Global, clauses: &[&[i32]]) -> Result<Clauses, AllocError> {
    let mut table = Clauses::new(alloc);
    for numbers in clauses {
        table.push(&clause_of(alloc, numbers)?)?;
    }
    Ok(table)
}

/// A requirement: the number of its clause, whether it is one of the root, and the places where its version sets end.
type Required<'x> = (usize, bool, &'x [usize]);

/// Requirement clauses, and where the version sets of the unions among them end.
#[derive(Drop)]
struct Requirements {
    clauses: Vec<RequirementClause>,
    union_ends: UnionEnds,
}

impl Requirements {
    fn new(alloc: Global) -> Requirements {
        Requirements {
            clauses: Vec::new(alloc),
            union_ends: UnionEnds::new(alloc),
        }
    }

    /// Appends the requirement of a clause, whose version sets end at these places.
    fn add(&mut self, number: usize, of_root: bool, places: &[usize]) -> Result<(), AllocError> {
        let number = narrow(number)?;
        let is_union = !places.is_empty();
        if is_union {
            let alloc = *self.clauses.allocator();
            self.union_ends.note(number, places.to_vec(alloc)?)?;
        }
        self.clauses.push(RequirementClause {
            number,
            of_root,
            is_union,
        })?;
        Ok(())
    }
}

fn requirements_of(alloc: Global, given: &[Required<'_>]) -> Result<Requirements, AllocError> {
    let mut requirements = Requirements::new(alloc);
    for (number, of_root, places) in given {
        requirements.add(*number, *of_root, places)?;
    }
    Ok(requirements)
}

/// Returns this many clauses as requirements of the root.
fn all_required(alloc: Global, count: usize) -> Result<Requirements, AllocError> {
    let mut requirements = Requirements::new(alloc);
    for number in 0..count {
        requirements.add(number, true, &[])?;
    }
    Ok(requirements)
}

/// A decision: the number of a clause, and the place of the candidate in it.
type Decision = Option<(usize, usize)>;

/// Returns the first decision by scanning all requirements.
fn first_by_scanning(
    alloc: Global,
    table: &Clauses,
    requirements: &Requirements,
) -> Result<Decision, AllocError> {
    let mut trail = Trail::new(alloc, 16)?;
    if !are_below(table, 16) || !are_inside(&requirements.clauses, table.len()) {
        return Ok(None);
    }
    match scan(&mut trail, table)? {
        Some(_) => Ok(None),
        None => Ok(decide(
            &trail,
            table,
            &requirements.clauses,
            &requirements.union_ends,
        )),
    }
}

/// Returns a provider that states nothing.
fn provider_of_nothing(alloc: Global) -> TestProvider {
    TestProvider {
        alloc,
        requirements: Vec::new(alloc),
        constraints: Vec::new(alloc),
        cancelling: Cell::new(0),
        log: Cell::new(0),
    }
}

/// Loads these clauses and requirements, with the packages of variables. Returns whether they could be loaded.
fn load_given(
    search: &mut ClauseSearch,
    clauses: &Clauses,
    requirements: &Requirements,
    variables: usize,
    owners: &[Owner],
) -> bool
    requires { IsConsistent search.old }
    ensures { IsTrue result → IsConsistent search.new }
{
    if !are_below(clauses, variables) {
        return false;
    }
    if !are_inside(&requirements.clauses, clauses.len()) {
        return false;
    }
    if variables < search.trail().variable_count() {
        return false;
    }
    let loaded = search.load(
        variables,
        clauses,
        &requirements.clauses,
        &requirements.union_ends,
        owners,
    );
    loaded.is_ok()
}

/// Loads these clauses, all of them as requirements. Returns whether they could be loaded.
fn load_all(
    alloc: Global,
    search: &mut ClauseSearch,
    clauses: &Clauses,
    variables: usize,
) -> Result<bool, AllocError>
    requires { IsConsistent search.old }
    ensures { IfOk result (λ loaded. IsTrue loaded → IsConsistent search.new) }
{
    let requirements = all_required(alloc, clauses.len())?;
    let loaded = load_given(search, clauses, &requirements, variables, &[]);
    Ok(loaded)
}

/// Returns whether a run finds values.
fn finishes(alloc: Global, search: &mut ClauseSearch, provider: &TestProvider) -> bool
    requires { IsConsistent search.old }
    ensures { IsTrue result → IsConsistent search.new }
{
    match search.run(alloc, provider, 100, 100) {
        Ok(Outcome::Finished) => true,
        Ok(Outcome::Contradiction(_)) => false,
        Ok(Outcome::Refused) => false,
        Err(_) => false,
    }
}

/// The end of a run.
type Ended = Result<Outcome, Interrupted<u8>>;

/// Returns whether the run found that these clauses contradict each other.
fn is_core(found: &Ended, wanted: &[usize]) -> bool {
    match found {
        Ok(Outcome::Contradiction(core)) => core.as_slice() == wanted,
        _ => false,
    }
}

/// Returns whether the run found that this many clauses contradict each other.
fn is_core_of(found: &Ended, count: usize) -> bool {
    match found {
        Ok(Outcome::Contradiction(core)) => core.len() == count,
        _ => false,
    }
}

/// Returns whether a run over clauses of 30 variables finds that all of them, which are this many, contradict each
/// other, and learns some clauses for it.
fn refutes_all(
    alloc: Global,
    search: &mut ClauseSearch,
    provider: &TestProvider,
    table: &Clauses,
    given: usize,
) -> Result<bool, AllocError>
    requires { IsConsistent search.old }
{
    if !load_all(alloc, search, table, 30)? {
        return Ok(false);
    }
    let found = search.run(alloc, provider, 100000, 100000);
    Ok(
        is_core_of(&found, given)
            & (table.len() == given)
            & (0 < search.learnt_count())
            & (search.clause_count() == given.wrapping_add(search.learnt_count())),
    )
}

/// Returns whether a run finds that these clauses contradict each other.
fn refutes(
    alloc: Global,
    search: &mut ClauseSearch,
    provider: &TestProvider,
    wanted: &[usize],
) -> bool
    requires { IsConsistent search.old }
{
    let found = search.run(alloc, provider, 100000, 100000);
    is_core(&found, wanted)
}

/// Returns whether ids ran out.
fn is_out_of_ids(ended: &Ended) -> bool {
    matches!(ended, Err(Interrupted::Exhausted(Exhausted::Ids)))
}

/// Returns whether ids run out over clauses of 30 variables under these limits for learnt clauses and for all, with
/// this many learnt by then.
fn ends_at(
    alloc: Global,
    search: &mut ClauseSearch,
    provider: &TestProvider,
    table: &Clauses,
    limits: (usize, usize),
    learnt: usize,
) -> Result<bool, AllocError>
    requires { IsConsistent search.old }
{
    if !load_all(alloc, search, table, 30)? {
        return Ok(false);
    }
    let ended = search.run(alloc, provider, limits.0, limits.1);
    Ok(is_out_of_ids(&ended) & (search.learnt_count() == learnt))
}

/// Returns whether the provider stopped the search, and `None` if memory or ids ran out.
fn was_cancelled(ended: &Ended) -> Option<bool> {
    match ended {
        Ok(_) => Some(false),
        Err(Interrupted::Cancelled(_)) => Some(true),
        Err(Interrupted::Exhausted(_)) => None,
    }
}

/// Returns whether a run over clauses of two variables is cancelled by the check with this number, and `None` if memory
/// or ids run out.
fn is_cancelled(
    alloc: Global,
    search: &mut ClauseSearch,
    provider: &TestProvider,
    table: &Clauses,
    check: u32,
) -> Result<Option<bool>, AllocError>
    requires { IsConsistent search.old }
{
    if !load_all(alloc, search, table, 2)? {
        return Ok(None);
    }
    provider.cancelling.set(check);
    let ended = search.run(alloc, provider, 10, 10);
    Ok(was_cancelled(&ended))
}

/// Returns the first `count` clauses.
fn beginning(alloc: Global, table: &Clauses, count: usize) -> Result<Clauses, AllocError> {
    let mut first = Clauses::new(alloc);
    'clauses: for number in 0..table.len().min(count) {
        first.push(clause(table, number))?;
    }
    Ok(first)
}

/// Returns whether a first run over four clauses learns this many, and a second one over all finds that the wanted ones
/// contradict each other.
fn refutes_through_learnt(
    alloc: Global,
    search: &mut ClauseSearch,
    provider: &TestProvider,
    table: &Clauses,
    learnt: usize,
    wanted: &[usize],
) -> Result<bool, AllocError>
    requires { IsConsistent search.old }
{
    if !load_all(alloc, search, &beginning(alloc, table, 4)?, 4)? {
        return Ok(false);
    }
    if !finishes(alloc, search, provider) {
        return Ok(false);
    }
    if search.learnt_count() != learnt {
        return Ok(false);
    }
    if !load_all(alloc, search, table, 5)? {
        return Ok(false);
    }
    Ok(refutes(alloc, search, provider, wanted))
}

/// Returns whether a run finds values and learns so many clauses, the last one of these literals.
fn learns(
    alloc: Global,
    search: &mut ClauseSearch,
    provider: &TestProvider,
    table: &Clauses,
    count: usize,
    wanted: &[i32],
) -> Result<bool, AllocError>
    requires { IsConsistent search.old }
{
    if !load_all(alloc, search, table, 3007)? {
        return Ok(false);
    }
    let found = search.run(alloc, provider, 100000, 100000);
    if !matches!(found, Ok(Outcome::Finished)) || search.learnt_count() != count {
        return Ok(false);
    }
    let last = search.table.len().saturating_sub(1);
    if last >= search.table.len() {
        return Ok(false);
    }
    let wanted = clause_of(alloc, wanted)?;
    Ok(clause(&search.table, last) == wanted.as_slice())
}

/// Numbers of entries of a search's trail: those that were bookmarked; of these, those that are left after more clauses
/// were loaded; all that are left then; and the bookmarked ones that are left after the next run.
type Places = (usize, usize, usize, usize);

/// Returns the places of a search that decides 1 and then 3 by the first two clauses, before the others are loaded.
fn places_through(
    alloc: Global,
    search: &mut ClauseSearch,
    provider: &TestProvider,
    table: &Clauses,
) -> Result<Option<Places>, AllocError>
    requires { IsConsistent search.old }
{
    if !load_all(alloc, search, &beginning(alloc, table, 2)?, 4)? {
        return Ok(None);
    }
    if !finishes(alloc, search, provider) {
        return Ok(None);
    }
    search.bookmark();
    let bookmarked = search.kept();
    if !load_all(alloc, search, table, 5)? {
        return Ok(None);
    }
    let kept = search.kept();
    let length = search.trail().len();
    if !finishes(alloc, search, provider) {
        return Ok(None);
    }
    Ok(Some((bookmarked, kept, length, search.kept())))
}

/// Whether a decision was made, and the numbers of entries of the trail after it and after the next run.
type Made = (bool, usize, usize);

/// Returns what the next decision of a search is, alone.
fn decides_alone(
    alloc: Global,
    search: &mut ClauseSearch,
    provider: &TestProvider,
    table: &Clauses,
) -> Result<Option<Made>, AllocError>
    requires { IsConsistent search.old }
{
    if !load_all(alloc, search, table, 5)? {
        return Ok(None);
    }
    let Ok(is_made) = search.decide(provider) else {
        return Ok(None);
    };
    let length = search.trail().len();
    if !finishes(alloc, search, provider) {
        return Ok(None);
    }
    Ok(Some((is_made, length, search.trail().len())))
}

/// Returns the place of a variable in the clause with this number.
fn place_in(table: &Clauses, number: usize, variable: Variable) -> Option<usize> {
    if table.len() <= number {
        return None;
    }
    clause(table, number)
        .iter()
        .position(|literal| literal.variable() == variable)
}

/// Returns the first decision on a trail.
fn first_on(trail: &Trail, table: &Clauses) -> Decision {
    'places: for place in 0..trail.len() {
        let variable = trail.variable_at(place);
        if let Some(slot) = trail.slot(variable) {
            if let Reason::Decided(number) = slot.reason {
                let number = number as usize;
                return place_in(table, number, variable).map(|found| (number, found));
            }
        }
    }
    None
}

/// Returns the first decision of a search without conflicts.
fn first_by_searching(
    alloc: Global,
    search: &mut ClauseSearch,
    provider: &TestProvider,
    table: &Clauses,
    requirements: &Requirements,
) -> Decision
    requires { IsConsistent search.old }
{
    if !load_given(search, table, requirements, 16, &[]) {
        return None;
    }
    if !finishes(alloc, search, provider) {
        return None;
    }
    first_on(search.trail(), table)
}

/// Bookmarks the trail and assumes a literal, if its variable is one of the trail's and has no value.
fn assumes(search: &mut ClauseSearch, wanted: Literal) -> Result<bool, AllocError>
    requires { IsConsistent search.old }
    ensures consistent { IfOk result (λ assumed. IsConsistent search.new) }
    ensures base { IfOk result (λ assumed. IsTrue assumed → 0 < base_of search.new) }
{
    if search.trail().variable_count() <= wanted.variable().index() {
        return Ok(false);
    }
    if search.trail().slot(wanted.variable()).is_some() {
        return Ok(false);
    }
    search.bookmark();
    search.assume(wanted)?;
    Ok(true)
}

/// Returns whether a run in a turn accepts the assumption.
fn is_accepted(alloc: Global, search: &mut ClauseSearch, provider: &TestProvider) -> Option<bool>
    requires { IsConsistent search.old }
    ensures consistent { IfSome result (λ accepted. IsConsistent search.new) }
    ensures base { IfSome result (λ accepted. base_of search.new ≡ base_of search.old) }
{
    match search.run(alloc, provider, 100, 100) {
        Ok(Outcome::Finished) => Some(true),
        Ok(Outcome::Refused) => Some(false),
        Ok(Outcome::Contradiction(_)) => None,
        Err(_) => None,
    }
}

/// Takes one turn, and returns whether its literal is accepted. A refused literal is assumed to be false.
fn takes(
    alloc: Global,
    search: &mut ClauseSearch,
    provider: &TestProvider,
    number: i32,
) -> Result<Option<bool>, AllocError>
    requires { IsConsistent search.old }
    ensures { IfOk result (λ accepted. IfSome accepted (λ _. IsConsistent search.new)) }
{
    let wanted = literal(number);
    if !assumes(search, wanted)? {
        return Ok(None);
    }
    match is_accepted(alloc, search, provider) {
        Some(true) => Ok(Some(true)),
        Some(false) => {
            search.retract()?;
            let refused = Literal::new(wanted.variable(), !wanted.is_positive());
            if assumes(search, refused)? {
                return Ok(Some(false));
            }
            Ok(None)
        }
        None => Ok(None),
    }
}

fn slot_of(search: &ClauseSearch, number: i32) -> Option<Slot> {
    let wanted = literal(number);
    if wanted.variable().index() < search.trail().variable_count() {
        return search.trail().slot(wanted.variable());
    }
    None
}

/// Whether the assumptions of two turns were accepted, and the slots of three variables after them.
type Turns = (bool, Option<bool>, Option<Slot>, Option<Slot>, Option<Slot>);

/// Takes two turns over clauses of 8 variables, and returns their results and the slots of three variables after them.
fn two_turns(
    alloc: Global,
    search: &mut ClauseSearch,
    provider: &TestProvider,
    table: &Clauses,
    first: i32,
    second: i32,
    watched: (i32, i32, i32),
) -> Result<Option<Turns>, AllocError>
    requires { IsConsistent search.old }
{
    if !load_all(alloc, search, table, 8)? {
        return Ok(None);
    }
    if !finishes(alloc, search, provider) {
        return Ok(None);
    }
    match takes(alloc, search, provider, first)? {
        Some(one) => {
            let two = takes(alloc, search, provider, second)?;
            Ok(Some((
                one,
                two,
                slot_of(search, watched.0),
                slot_of(search, watched.1),
                slot_of(search, watched.2),
            )))
        }
        None => Ok(None),
    }
}

/// A task for a search over a table of clauses, and its expected result.
#[derive(Clone, Copy)]
enum Task<'x> {
    /// All clauses, which are this many, contradict each other, and some clauses are learnt for that.
    Refute(usize),
    /// Ids run out under limits for learnt clauses and for all, with this many learnt by then.
    Limit((usize, usize), usize),
    /// With these requirements, this is the first decision.
    First(&'x Requirements, (usize, usize)),
    /// The first four clauses have values, for which this many clauses are learnt. These clauses of all contradict each
    /// other.
    Core(usize, &'x [usize]),
    /// So many clauses are learnt, the last one of these literals.
    Learn(usize, &'x [i32]),
    /// The first two clauses are decided before the others are loaded. Then these places are left.
    Keep(Places),
    /// The next decision alone has this result.
    Decide(Made),
    /// Whether the cancel check with this number, counted from 1, stops the search.
    Cancel(u32, bool),
    /// Two literals are assumed in turn, with these results and slots of these variables.
    Assume(i32, i32, (i32, i32, i32), Turns),
}

/// Does a task in a new search, and returns whether it has the expected result.
fn does(
    alloc: Global,
    search: &mut ClauseSearch,
    provider: &TestProvider,
    table: &Clauses,
    task: &Task<'_>,
) -> Result<bool, AllocError>
    requires { IsConsistent search.old }
{
    match task {
        Task::Refute(given) => refutes_all(alloc, search, provider, table, *given),
        Task::Limit(limits, learnt) => ends_at(alloc, search, provider, table, *limits, *learnt),
        Task::First(requirements, wanted) => {
            let first = first_by_searching(alloc, search, provider, table, requirements);
            Ok(first == Some(*wanted))
        }
        Task::Core(learnt, wanted) => {
            refutes_through_learnt(alloc, search, provider, table, *learnt, wanted)
        }
        Task::Learn(count, wanted) => learns(alloc, search, provider, table, *count, wanted),
        Task::Keep(wanted) => {
            let places = places_through(alloc, search, provider, table)?;
            Ok(places == Some(*wanted))
        }
        Task::Decide(wanted) => {
            let made = decides_alone(alloc, search, provider, table)?;
            Ok(made == Some(*wanted))
        }
        Task::Cancel(check, wanted) => {
            let cancelled = is_cancelled(alloc, search, provider, table, *check)?;
            Ok(cancelled == Some(*wanted))
        }
        Task::Assume(first, second, watched, wanted) => {
            let turns = two_turns(alloc, search, provider, table, *first, *second, *watched)?;
            Ok(turns == Some(*wanted))
        }
    }
}

/// Returns whether a task in a new search over a table has the expected result.
///
/// Only this function owns a search and a provider, because the prover takes long for each exit of a function that owns
/// one.
fn is_done(alloc: Global, table: &Clauses, task: &Task<'_>) -> Result<bool, AllocError> {
    let provider = provider_of_nothing(alloc);
    let mut search = ClauseSearch::new(alloc, Activity::standard());
    does(alloc, &mut search, &provider, table, task)
}

/// Returns whether a task in a new search over these clauses has the expected result.
fn finds(alloc: Global, clauses: &[&[i32]], task: &Task<'_>) -> Result<bool, AllocError> {
    let table = table_of(alloc, clauses)?;
    is_done(alloc, &table, task)
}

/// Returns the clauses for one pigeon more than holes: each pigeon has a hole, and no hole has two pigeons.
fn pigeons(alloc: Global, holes: u32) -> Result<Clauses, AllocError>
    requires { holes < 1000 }
{
    let mut clauses = Clauses::new(alloc);
    for pigeon in 0..holes + 1 {
        let mut literals = Vec::new(alloc);
        for hole in 0..holes {
            literals.push(seat(holes, pigeon, hole, true))?;
        }
        clauses.push(&literals)?;
    }
    for hole in 0..holes {
        for pigeon in 0..holes + 1 {
            for other in 0..pigeon {
                let both = [
                    seat(holes, pigeon, hole, false),
                    seat(holes, other, hole, false),
                ];
                clauses.push(&both)?;
            }
        }
    }
    Ok(clauses)
}

/// Returns the literal that a pigeon is in a hole, or its negation.
fn seat(holes: u32, pigeon: u32, hole: u32, positive: bool) -> Literal {
    Literal::new(
        Variable::new(pigeon.wrapping_mul(holes).wrapping_add(hole) % 1000),
        positive,
    )
}

/// Returns whether a task in a new search over six pigeons and five holes has the expected result.
fn finds_with_pigeons(alloc: Global, task: &Task<'_>) -> Result<bool, AllocError> {
    let table = pigeons(alloc, 5)?;
    is_done(alloc, &table, task)
}

#[test]
fn six_pigeons_do_not_fit_into_five_holes(rt: HostRuntime) -> Result<(), Fail> {
    assert!(rt; finds_with_pigeons(rt.alloc(), &Task::Refute(81))?);
    Ok(())
}

#[test]
fn a_learnt_clause_lacks_what_its_others_imply(rt: HostRuntime) -> Result<(), Fail> {
    // 1 forces 3, and 3 forces 4. 1 forces 7 beside 5.
    let both: [&[i32]; 6] = [
        &[1, 2],
        &[-1, 3],
        &[-3, 4],
        &[5, 6],
        &[-5, -1, 7],
        &[-5, -7, -3, -4],
    ];
    assert!(rt; finds(rt.alloc(), &both, &Task::Learn(1, &[-5, -1]))?);
    let last: [&[i32]; 6] = [
        &[1, 2],
        &[-1, 3],
        &[-3, 4],
        &[5, 6],
        &[-5, -1, 7],
        &[-5, -7, -4],
    ];
    assert!(rt; finds(rt.alloc(), &last, &Task::Learn(1, &[-5, -4, -1]))?);
    Ok(())
}

#[test]
fn the_limits_stand(rt: HostRuntime) -> Result<(), Fail> {
    assert!(rt; finds_with_pigeons(rt.alloc(), &Task::Limit((3, 100000), 3))?);
    assert!(rt; finds_with_pigeons(rt.alloc(), &Task::Limit((100000, 85), 4))?);
    Ok(())
}

/// Returns whether this is the first decision, both by scanning and by searching.
fn is_first<'x>(
    alloc: Global,
    table: &'x Clauses,
    requirements: &'x Requirements,
    wanted: (usize, usize),
) -> Result<bool, AllocError> {
    let scanned = first_by_scanning(alloc, table, requirements)?;
    let searched = is_done(alloc, table, &Task::First(requirements, wanted))?;
    Ok(scanned == Some(wanted) && searched)
}

/// Returns whether this is the first decision over these clauses, with these requirements.
fn decides(
    alloc: Global,
    clauses: &[&[i32]],
    required: &[Required<'_>],
    wanted: (usize, usize),
) -> Result<bool, AllocError> {
    let table = table_of(alloc, clauses)?;
    let requirements = requirements_of(alloc, required)?;
    is_first(alloc, &table, &requirements, wanted)
}

#[test]
fn requirements_of_the_root_come_first(rt: HostRuntime) -> Result<(), Fail> {
    let clauses: [&[i32]; 3] = [&[1], &[-1, 2, 3], &[-1, 4, 5, 6]];
    let required: [Required<'_>; 2] = [(1, false, &[3]), (2, true, &[4])];
    assert!(rt; decides(rt.alloc(), &clauses, &required, (2, 1))?);
    Ok(())
}

#[test]
fn fewer_candidates_of_the_first_version_set_come_first(rt: HostRuntime) -> Result<(), Fail> {
    let clauses: [&[i32]; 5] = [
        &[1],
        &[-1, 2, 3, 4],
        &[-1, 5, 6, 7, 8, 9],
        &[-5],
        &[-1, 10, 11],
    ];
    let required: [Required<'_>; 3] = [(1, false, &[4]), (2, false, &[2, 3, 6]), (4, false, &[3])];
    assert!(rt; decides(rt.alloc(), &clauses, &required, (2, 2))?);
    Ok(())
}

#[test]
fn the_first_one_comes_first_among_equals(rt: HostRuntime) -> Result<(), Fail> {
    let clauses: [&[i32]; 4] = [&[1], &[-2, 10, 11], &[-1, 3, 4], &[-1, 5, 6]];
    let required: [Required<'_>; 3] = [(1, true, &[3]), (2, false, &[3]), (3, false, &[3])];
    assert!(rt; decides(rt.alloc(), &clauses, &required, (2, 1))?);
    Ok(())
}

#[test]
fn a_core_names_given_clauses_whenever_they_came(rt: HostRuntime) -> Result<(), Fail> {
    let clauses: [&[i32]; 6] = [&[1], &[-1, 2, 3], &[-2, 4], &[-2, -4], &[-3, 5], &[-5]];
    let task = Task::Core(1, &[0, 1, 2, 3, 4, 5]);
    assert!(rt; finds(rt.alloc(), &clauses, &task)?);
    Ok(())
}

#[test]
fn places_are_kept_as_far_as_the_trail_stays(rt: HostRuntime) -> Result<(), Fail> {
    let gained: [&[i32]; 3] = [&[1, 2], &[3, 4], &[5]];
    assert!(rt; finds(rt.alloc(), &gained, &Task::Keep((2, 2, 2, 2)))?);
    let backtracked: [&[i32]; 4] = [&[1, 2], &[3, 4], &[-1, -3, 5], &[-1, -3, -5]];
    assert!(rt; finds(rt.alloc(), &backtracked, &Task::Keep((2, 2, 2, 1)))?);
    Ok(())
}

#[test]
fn a_clause_that_is_false_when_it_comes_takes_its_highest_level_back(
    rt: HostRuntime,
) -> Result<(), Fail> {
    let of_both: [&[i32]; 3] = [&[1, 2], &[3, 4], &[-1, -3]];
    assert!(rt; finds(rt.alloc(), &of_both, &Task::Keep((2, 1, 1, 1)))?);
    let of_the_second: [&[i32]; 3] = [&[1, 2], &[3, 4], &[-3]];
    assert!(rt; finds(rt.alloc(), &of_the_second, &Task::Keep((2, 1, 1, 1)))?);
    let of_the_first: [&[i32]; 3] = [&[1, 2], &[3, 4], &[-1]];
    assert!(rt; finds(rt.alloc(), &of_the_first, &Task::Keep((2, 0, 0, 0)))?);
    Ok(())
}

#[test]
fn a_decision_alone_leaves_its_consequences_to_the_next_run(rt: HostRuntime) -> Result<(), Fail> {
    let consequence: [&[i32]; 3] = [&[1, 2], &[-1, 3], &[-3, -2]];
    assert!(rt; finds(rt.alloc(), &consequence, &Task::Decide((true, 1, 3)))?);
    assert!(rt; finds(rt.alloc(), &[&[1], &[-1, 2]], &Task::Decide((false, 2, 2)))?);
    Ok(())
}

#[test]
fn each_propagation_may_be_cancelled(rt: HostRuntime) -> Result<(), Fail> {
    for (check, is_cancelled) in [(1, true), (2, true), (3, false)] {
        assert!(rt;
            finds(rt.alloc(), &[&[1, 2]], &Task::Cancel(check, is_cancelled))?,
            "check {check}"
        );
    }
    Ok(())
}

fn assumed(value: bool, level: u32, place: u32) -> Option<Slot> {
    Some(Slot {
        value,
        level,
        place,
        reason: Reason::Assumed,
    })
}

fn forced(value: bool, level: u32, place: u32, number: u32) -> Option<Slot> {
    Some(Slot {
        value,
        level,
        place,
        reason: Reason::Forced(number),
    })
}

#[test]
fn a_refused_assumption_is_taken_back_and_assumed_false(rt: HostRuntime) -> Result<(), Fail> {
    let wanted = (
        false,
        Some(true),
        assumed(false, 1, 0),
        None,
        assumed(true, 2, 1),
    );
    let task = Task::Assume(1, 3, (1, 2, 3), wanted);
    assert!(rt; finds(rt.alloc(), &[&[-1, 2], &[-1, -2]], &task)?);
    Ok(())
}

#[test]
fn an_accepted_assumption_stays_where_the_next_one_is_refused(rt: HostRuntime) -> Result<(), Fail> {
    let wanted = (
        true,
        Some(false),
        assumed(true, 1, 0),
        assumed(false, 2, 1),
        None,
    );
    let task = Task::Assume(1, 2, (1, 2, 3), wanted);
    assert!(rt; finds(rt.alloc(), &[&[-1, -2, 3], &[-1, -2, -3]], &task)?);
    Ok(())
}

#[test]
fn a_jump_stops_where_the_turn_began(rt: HostRuntime) -> Result<(), Fail> {
    let clauses: [&[i32]; 3] = [&[-2, 3, 4], &[-3, 5], &[-3, -5]];
    let wanted = (
        true,
        Some(true),
        assumed(true, 1, 0),
        assumed(true, 2, 1),
        forced(false, 2, 2, 3),
    );
    assert!(rt; finds(rt.alloc(), &clauses, &Task::Assume(1, 2, (1, 2, 3), wanted))?);
    Ok(())
}

#[test]
fn what_an_accepted_assumption_needs_stays_where_the_next_turn_has_a_conflict(
    rt: HostRuntime,
) -> Result<(), Fail> {
    let clauses: [&[i32]; 4] = [&[-1, 6, 7], &[-2, 3, 4], &[-3, 5], &[-3, -5]];
    let needed = Slot {
        value: true,
        level: 2,
        place: 1,
        reason: Reason::Decided(0),
    };
    let wanted = (
        true,
        Some(true),
        assumed(true, 1, 0),
        Some(needed),
        forced(false, 3, 3, 4),
    );
    assert!(rt; finds(rt.alloc(), &clauses, &Task::Assume(1, 2, (1, 6, 3), wanted))?);
    Ok(())
}
