//! Resolution: the variables whose values contradict the causes of a conflict, down to a single one of the highest level.

ghost use Rattle.std.specs.Prelude.{◌≡◌, ◌≢◌, ◌⊎◌, ◌+◌, ◌<◌, ◌≤◌, length, All, Any, IfOk, MatchBool, OnOk, false, slice_set, true};
ghost use Rattle.resolver_clause_store.specs.Formula.{AreBelow, IsBelow, clause_at};
ghost use Rattle.resolver_clause_store.specs.TrailView.{length_of, place_of, variable_count};
ghost use Rattle.resolvo.specs.Propagation.{IsConflict, IsJustified};
ghost use Rattle.resolver_clause_store.specs.declared.Slot.{Slot};
ghost use Rattle.resolver_clause_store.specs.Literals.{Literal};
ghost use Rattle.resolvo.specs.Resolvents.{AllBefore, IsLevelled, IsReason, IsReplaced, IsResolvent, IsSingle, IsUnmarked, ListsMarks, MarksAlso, IsNotBefore, IsResolved};
ghost use Rattle.resolvo.specs.Resolvents.{StandsAt, level_in, is_marked};

use resolver_clause_store::{Clauses, Literal, Reason, Trail, Variable, clause};
use std::alloc::{AllocError, Global};
use std::mem::replace;

/// Marked variables whose values on the trail contradict the causes. Their negated values are the resolvent of the
/// causes.
#[derive(Drop)]
pub struct Resolvent {
    pub marks: Vec<bool>,
    /// The variables that were marked, including those whose mark was removed.
    pub marked: Vec<Variable>,
    pub causes: Vec<usize>,
    /// The highest decision level of a marked variable.
    pub level: usize,
    /// The first place of a marked variable of that level.
    pub lowest: usize,
}

/// A mark for each variable, none of them set.
///
/// An analysis takes the marks and returns them cleared, so that they are allocated once.
#[derive(Drop)]
pub struct BlankMarks {
    marks: Vec<bool>,
    ghost none: { IsUnmarked marks.items },
}

impl BlankMarks {
    /// Returns no marks.
    pub fn new(alloc: Global) -> Self {
        BlankMarks {
            marks: Vec::new(alloc),
        }
    }

    /// Takes the marks out, one for each of `variables` variables.
    pub fn take(&mut self, alloc: Global, variables: usize) -> Result<Vec<bool>, AllocError>
        ensures { IfOk result (λ marks. (length marks.items ≡ variables) × IsUnmarked marks.items) }
    {
        let mut marks = replace(&mut self.marks, Vec::new(alloc));
        marks.resize(variables, false)?;
        Ok(marks)
    }

    /// Puts the marks back.
    pub fn put(&mut self, marks: Vec<bool>)
        requires { IsUnmarked marks.items }
    {
        self.marks = marks;
    }
}

/// Marks a variable, and lists it if it was not marked before.
pub fn mark(
    marks: &mut Vec<bool>,
    marked: &mut Vec<Variable>,
    variable: Variable,
) -> Result<(), AllocError>
    requires { variable < length marks.old.items }
    ensures marks { OnOk result (marks.new.items ≡ slice_set marks.old.items variable true) }
    ensures listed { OnOk result (ListsMarks marks.old.items marked.old.items → ListsMarks marks.new.items marked.new.items) }
{
    let fresh = !marks[variable.index()];
    marks[variable.index()] = true;
    if fresh {
        marked.push(variable)?;
        return Ok(());
    }
    Ok(())
}

/// Marks the variables of a clause, and lists those that were not marked before.
pub fn mark_all(
    marks: &mut Vec<bool>,
    marked: &mut Vec<Variable>,
    clause: &[Literal],
) -> Result<(), AllocError>
    requires { IsBelow (length marks.old.items) clause.now }
    ensures marks { OnOk result (MarksAlso marks.old.items marks.new.items clause.now) }
    ensures listed { OnOk result (ListsMarks marks.old.items marked.old.items → ListsMarks marks.new.items marked.new.items) }
{
    'literals: for literal in clause {
        mark(marks, marked, literal.variable())?;
    }
    Ok(())
}

/// Clears the marks of the listed variables.
pub fn unmark_all(marks: &mut Vec<bool>, marked: &[Variable])
    requires { ListsMarks marks.old.items marked.now }
    ensures size { length marks.new.items ≡ length marks.old.items }
    ensures none { IsUnmarked marks.new.items }
{
    'variables: for variable in marked {
        marks[variable.index()] = false;
    }
}

/// Returns the level of a variable, or 0 if it has no value.
pub fn level_at(trail: &Trail, variable: Variable) -> usize
    requires { variable < variable_count trail.now }
    ensures { result ≡ level_in trail.now variable }
{
    match trail.slot(variable) {
        Some(slot) => slot.level as usize,
        None => 0,
    }
}

/// Returns the highest level among the literals of the clause.
pub fn highest_level(trail: &Trail, clause: &[Literal]) -> usize
    requires { IsBelow (variable_count trail.now) clause.now }
    ensures top { All (λ (literal : Literal). level_in trail.now literal.variable ≤ result) clause.now }
    ensures reached { (result ≡ 0) ⊎ Any (λ (literal : Literal). level_in trail.now literal.variable ≡ result) clause.now }
{
    let mut level = 0;
    'literals: for literal in clause {
        level = level_at(trail, literal.variable()).max(level);
    }
    level
}

/// Returns the lower of `lowest` and the place of the variable, if the variable is of this level.
pub fn lower_place(trail: &Trail, variable: Variable, level: usize, lowest: usize) -> usize
    requires { variable < variable_count trail.now }
    ensures low { result ≤ lowest }
    ensures least { IsNotBefore trail.now level result variable }
    ensures reached { (result ≡ lowest) ⊎ StandsAt trail.now level result variable }
{
    match trail.slot(variable) {
        Some(slot) => {
            let place = slot.place as usize;
            if slot.level as usize == level && place < lowest {
                return place;
            }
            lowest
        }
        None => lowest,
    }
}

/// Returns the lowest of `start` and the places of the clause's variables of this level.
pub fn lowest_place(trail: &Trail, clause: &[Literal], level: usize, start: usize) -> usize
    requires { IsBelow (variable_count trail.now) clause.now }
    ensures low { result ≤ start }
    ensures least { All (λ (literal : Literal). IsNotBefore trail.now level result literal.variable) clause.now }
    ensures reached { (result ≡ start) ⊎ Any (λ (literal : Literal). StandsAt trail.now level result literal.variable) clause.now }
{
    let mut lowest = start;
    'literals: for literal in clause {
        lowest = lower_place(trail, literal.variable(), level, lowest);
    }
    lowest
}

/// Starts an analysis: marks the variables of a false clause. At first no variable is marked.
pub fn begin(
    alloc: Global,
    blank: Vec<bool>,
    table: &Clauses,
    trail: &Trail,
    number: usize,
) -> Result<Resolvent, AllocError>
    requires below { AreBelow (variable_count trail.now) table.now }
    requires justified { IsJustified table.now trail.now }
    requires conflict { IsConflict trail.now table.now number }
    requires size { length blank.items ≡ variable_count trail.now }
    requires blank { IsUnmarked blank.items }
    ensures resolvent { IfOk result (IsResolvent table.now trail.now) }
    ensures levelled { IfOk result (λ resolvent. IsLevelled trail.now resolvent (length_of trail.now)) }
{
    let literals = clause(table, number);
    let mut marks = blank;
    let mut marked = Vec::new(alloc);
    mark_all(&mut marks, &mut marked, literals)?;
    let causes = vec![in alloc; number]?;
    let level = highest_level(trail, literals);
    let lowest = lowest_place(trail, literals, level, trail.len());
    Ok(Resolvent {
        marks,
        marked,
        causes,
        level,
        lowest,
    })
}

/// Resolves with a reason: marks its other variables in place of the one that it forced.
pub fn resolve(
    table: &Clauses,
    trail: &Trail,
    resolvent: &mut Resolvent,
    variable: Variable,
    number: usize,
) -> Result<(), AllocError>
    requires reason { IsReason trail.now variable number }
    requires resolvent { IsResolvent table.now trail.now resolvent.old }
    ensures resolvent { OnOk result (IsResolvent table.now trail.now resolvent.new) }
    ensures marks { OnOk result (IsReplaced resolvent.old.marks.items resolvent.new.marks.items variable (clause_at table.now number)) }
    ensures level { OnOk result (resolvent.new.level ≡ resolvent.old.level) }
    ensures lowest { OnOk result (resolvent.new.lowest ≡ resolvent.old.lowest) }
{
    resolvent.causes.push(number)?;
    let reason = clause(table, number);
    mark_all(&mut resolvent.marks, &mut resolvent.marked, reason)?;
    resolvent.marks[variable.index()] = false;
    Ok(())
}

/// Resolves the last marked variable away, which is not the only one of its level.
pub fn resolve_last(
    table: &Clauses,
    trail: &Trail,
    resolvent: &mut Resolvent,
    variable: Variable,
    number: usize,
) -> Result<(), AllocError>
    requires reason { IsReason trail.now variable number }
    requires resolvent { IsResolvent table.now trail.now resolvent.old }
    requires levelled { IsLevelled trail.now resolvent.old (place_of trail.now variable + 1) }
    requires marked { is_marked resolvent.old.marks.items variable ≡ true }
    requires other { 0 < resolvent.old.level → resolvent.old.lowest < place_of trail.now variable }
    ensures resolvent { OnOk result (IsResolvent table.now trail.now resolvent.new) }
    ensures levelled { OnOk result (IsLevelled trail.now resolvent.new (place_of trail.now variable)) }
{
    resolve(table, trail, resolvent, variable, number)?;
    let reason = clause(table, number);
    resolvent.lowest = lowest_place(trail, reason, resolvent.level, resolvent.lowest);
    Ok(())
}

/// Returns whether the last marked variable, at this place, is the only marked one of the highest level.
pub fn is_single(resolvent: &Resolvent, place: usize) -> bool
    ensures { MatchBool result ((0 < resolvent.now.level) × (place ≡ resolvent.now.lowest)) (0 < resolvent.now.level → place ≢ resolvent.now.lowest) }
{
    if resolvent.level == 0 {
        return false;
    }
    place == resolvent.lowest
}

/// Resolves the marked variables, last one first, down to the first unique implication point: a single variable of the
/// highest level. At level 0 none is left.
pub fn resolve_level(
    table: &Clauses,
    trail: &Trail,
    resolvent: &mut Resolvent,
) -> Result<(), AllocError>
    requires resolvent { IsResolvent table.now trail.now resolvent.old }
    requires levelled { IsLevelled trail.now resolvent.old (length_of trail.now) }
    ensures { OnOk result (IsResolved table.now trail.now resolvent.new) }
{
    let mut place = trail.len();
    'places: while place > 0 {
        place -= 1;
        let variable = trail.variable_at(place);
        if resolvent.marks[variable.index()] {
            if is_single(resolvent, place) {
                return Ok(());
            }
            match trail.slot(variable) {
                Some(slot) => match slot.reason {
                    Reason::Forced(number) => {
                        resolve_last(table, trail, resolvent, variable, number as usize)?
                    }
                    Reason::Decided(_) => return Ok(()),
                    Reason::Assumed => return Ok(()),
                },
                None => return Ok(()),
            }
        }
    }
    Ok(())
}
