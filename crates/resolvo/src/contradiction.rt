//! Unsatisfiable cores among given clauses.

ghost use Rattle.std.specs.Prelude.{◌≡◌, ℕ, ◌<◌, length, IfOk, OnOk, All, Vec, List, false, []};
ghost use Rattle.std.specs.declared.alloc.Global.{Global};
ghost use Rattle.resolver_clause_store.specs.Literals.{Literal};
ghost use Rattle.resolver_clause_store.specs.Formula.{FollowsFrom};
ghost use Rattle.resolver_clause_store.specs.Outcomes.{IsCore};
ghost use Rattle.resolvo.specs.Derivations.{AddsMarked, AreGiven, IsDerived, ListsMarked, MarksNumbers, Replaces, Stands, causes_at, given_at};
ghost use Rattle.resolvo.specs.Resolvents.{is_marked};

use crate::sources::Sources;
use resolver_clause_store::Clauses;
use std::alloc::{AllocError, Global};

/// Returns `count` marks, none of them set.
pub fn unmarked(alloc: Global, count: usize) -> Result<Vec<bool>, AllocError>
    ensures size { IfOk result (λ marks. length marks.items ≡ count) }
    ensures none { IfOk result (λ marks. (number : ℕ) → is_marked marks.items number ≡ false) }
{
    vec![in alloc; false; count]
}

/// Marks these numbers.
pub fn mark_numbers(marks: &mut Vec<bool>, numbers: &[usize])
    requires { All (λ number. number < length marks.old.items) numbers.now }
    ensures { MarksNumbers marks.old.items marks.new.items numbers.now }
{
    'numbers: for number in numbers {
        marks[*number] = true;
    }
}

/// Replaces a learnt clause by its causes: unmarks it and marks them.
pub fn replace(sources: &Sources, marks: &mut Vec<bool>, place: usize)
    requires inside { place < length sources.now }
    requires size { length marks.old.items ≡ length sources.now }
    requires earlier { All (λ cause. cause < place) (causes_at sources.now place) }
    ensures { Replaces marks.old.items marks.new.items sources.now place }
{
    match sources.number_at(place) {
        Some(_) => (),
        None => {
            marks[place] = false;
            mark_numbers(marks, sources.causes_at(place));
        }
    }
}

/// Appends the number of the given clause at a place, if the place is marked and has one.
pub fn add_marked(
    numbers: &mut Vec<usize>,
    sources: &Sources,
    marks: &[bool],
    place: usize,
) -> Result<(), AllocError>
    requires inside { place < length sources.now }
    requires size { length marks.now ≡ length sources.now }
    ensures { OnOk result (AddsMarked numbers.old.items numbers.new.items sources.now marks.now place) }
{
    if !marks[place] {
        return Ok(());
    }
    match sources.number_at(place) {
        Some(number) => {
            numbers.push(number)?;
            Ok(())
        }
        None => Ok(()),
    }
}

/// Returns the numbers of the given clauses at marked places.
pub fn marked(alloc: Global, sources: &Sources, marks: &[bool]) -> Result<Vec<usize>, AllocError>
    requires { length marks.now ≡ length sources.now }
    ensures stand { IfOk result (λ numbers. All (Stands sources.now) numbers.items) }
    ensures each { IfOk result (λ numbers. ListsMarked sources.now marks.now numbers.items (length sources.now)) }
{
    let mut numbers = Vec::new(alloc);
    'places: for place in 0..sources.len() {
        add_marked(&mut numbers, sources, marks, place)?;
    }
    Ok(numbers)
}

/// Returns the given clauses from which the contradiction follows: an unsatisfiable core.
pub fn core(
    alloc: Global,
    table: &Clauses,
    sources: &Sources,
    start: &[usize],
) -> Result<Vec<usize>, AllocError>
    requires derived { IsDerived table.now sources.now }
    requires within { All (λ number. number < length table.now) start.now }
    requires refuted { FollowsFrom table.now start.now [] }
    ensures { IfOk result (λ core. (given : List (List Literal)) → AreGiven given table.now sources.now → IsCore given core.items) }
{
    let mut marks = unmarked(alloc, table.len())?;
    mark_numbers(&mut marks, start);
    let mut place = table.len();
    'places: while place > 0 {
        place -= 1;
        if marks[place] {
            replace(sources, &mut marks, place);
        }
    }
    let numbers = marked(alloc, sources, marks.as_slice())?;
    Ok(numbers)
}
