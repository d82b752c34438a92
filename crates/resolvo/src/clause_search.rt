//! A search over clauses: it decides and propagates, learns from conflicts, and backtracks.

ghost use Rattle.std.specs.Prelude.{◌<◌, ◌≡◌, ◌≤◌, ◌+◌, ◌⊎◌, ◌-◌, [], All, IfErr, IfNone, IfOk, IfSome, None, OnErr, OnOk, Vec, length};
ghost use Rattle.std.specs.Prelude.{false, max, true, if◌then◌else◌};
ghost use Rattle.std.specs.declared.alloc.Global.{Global};
ghost use Rattle.resolver_clause_store.specs.Formula.{AreBelow, IsBelow, clause_at};
ghost use Rattle.resolver_clause_store.specs.Interruptions.{IsInterruption};
ghost use Rattle.resolver_clause_store.specs.Outcomes.{IsFalsified, IsMet};
ghost use Rattle.resolver_clause_store.specs.TrailView.{Gains, IsCut, IsTop, IsUndone, KeepsPlaces, length_of, level_of, open_count, slot_of, variable_at};
ghost use Rattle.resolver_clause_store.specs.TrailView.{variable_count};
ghost use Rattle.resolver_clause_store.specs.UnionEnds.{ends_in};
ghost use Rattle.resolver_clause_store.specs.declared.Exhausted.TheVariants.{Ids, Memory};
ghost use Rattle.resolver_clause_store.specs.Literals.{Literal};
ghost use Rattle.resolver_clause_store.specs.declared.Reason.TheVariants.{Assumed};
ghost use Rattle.resolver_clause_store.specs.declared.RequirementClause.{RequirementClause};
ghost use Rattle.resolver_clause_store.specs.declared.StoredRequirement.{StoredRequirement};
ghost use Rattle.resolver_encoding.specs.Refusals.{IsStop};
ghost use Rattle.resolver_clause_store.specs.Decisions.{IsChoice, IsFirstUnassigned};
ghost use Rattle.resolvo.specs.Propagation.{AreChosen, AssumesNone, ExtendsTrail, IsConflict, IsJustified};
ghost use Rattle.resolver_clause_store.specs.Settled.{AllSettled};
ghost use Rattle.resolver_clause_store.specs.WatchesView.{pairs_of};
ghost use Rattle.resolvo.specs.Propagators.{IsPropagator};
ghost use Rattle.resolvo.specs.Returning.{IsBelowHighest, TakesBack};
ghost use Rattle.resolvo.specs.Steps.{AreDone, StepIs, TakesChoice};
ghost use Rattle.resolvo.specs.declared.propagator.Propagator.{Propagator};
ghost use Rattle.resolvo.specs.WatchedClauses.{AreInLists, AreOwned};
ghost use Rattle.resolver_clause_store.specs.Queues.{IsQueued};
ghost use Rattle.resolvo.specs.Resolvents.{IsLearnt, level_in};

use crate::clause_state::{State, examine};
use crate::contradiction::core;
use crate::learn::{Analysis, BlankMarks, Learnt, analyze, asserted_level, highest_level};
use crate::places::Places;
use crate::propagator::{Propagator, apply_all_pending, begins_level, propagate};
use crate::restarts::{is_due, kept_level};
use crate::sources::Sources;
use resolver_clause_store::{
    Activity, Choice, Clauses, DecideQueue, DependencyProvider, Exhausted, Interrupted, Literal,
    Owner, RequirementClause, StoredRequirement, Trail, UnionEnds, check_cancel, clause, narrow,
};
use std::alloc::{AllocError, Global};

/// The result of a search.
#[derive(Drop)]
pub enum Outcome {
    /// The search's trail has values that leave nothing to do: each has a reason, no clause is false or forces a
    /// literal, and each requirement has a true candidate or depends on a literal that is not true.
    Finished,
    /// The numbers of given clauses that no values make true.
    Contradiction(Vec<usize>),
    /// A clause is false by the present assumption and the values held before it alone.
    Refused,
}

/// A search over clauses, which are loaded as they are read.
///
/// Given and learnt clauses share one table, in the order in which they were added. Requirement clauses are known by
/// their places in it. Each clause with two different literals watches two of them, and is in the lists of just these
/// two, once in each.
#[derive(Drop)]
pub struct ClauseSearch {
    trail: Trail,
    propagator: Propagator,
    table: Clauses,
    sources: Sources,
    requirements: Vec<StoredRequirement>,
    places: Places,
    /// The number of first entries of the trail that have not changed since the trail was last bookmarked.
    kept: usize,
    /// The level of the present assumption, or 0 if there is none.
    base: usize,
    /// The number of first entries of the trail that are not undone in the present turn.
    held: usize,
    /// Marks of the variables, for the analysis of a conflict.
    marks: BlankMarks,
    /// The requirements that may be left to decide.
    queue: DecideQueue,
    ghost in_lists: { ∥ AreInLists table propagator.watches ∥₁ },
}

/// What comes next in a search.
#[derive(Drop)]
pub enum Step {
    /// A candidate that is decided next.
    Decide(Choice),
    /// The clause with this number is false.
    Conflict(usize),
    /// No requirement is left to decide.
    Finished,
}

/// Returns the level to go back to when a clause is added: if it is false, the one below the highest level of its
/// literals, but no level below the base.
fn level_for(trail: &Trail, literals: &[Literal], base: usize) -> usize
    requires { IsBelow (variable_count trail.now) literals.now }
    ensures falsified { IsFalsified trail.now literals.now → IsBelowHighest trail.now literals.now base result }
    ensures otherwise { (IsFalsified trail.now literals.now → ⊥) → IsTop trail.now result }
    ensures low { base ≤ result }
{
    let level = match examine(trail, literals) {
        State::Falsified => highest_level(trail, literals).saturating_sub(1),
        State::Satisfied | State::Unit(_) | State::Open => trail.level(),
    };
    level.max(base)
}

/// Returns the places in a requirement's clause after the candidates of each version set, none if it is no union.
pub fn ends_of<'x>(requirement: &RequirementClause, union_ends: &'x UnionEnds) -> &'x [usize]
    ensures { result.now ≡ (if requirement.now.is_union then ends_in union_ends.now requirement.now.number else []) }
{
    if requirement.is_union {
        return union_ends.places_of(requirement.number);
    }
    &[]
}

impl ClauseSearch {
    ghost use Rattle.resolvo.specs.ClauseSearches.{IsConsistent, IsBacktrack, IsLoaded, IsRootTurn};
    ghost use Rattle.resolvo.specs.ClauseSearches.{IsSameProblem, IsSameSearch, SetsNone, StaysBookmarked, KeepsLoaded};
    ghost use Rattle.resolvo.specs.ClauseSearches.{HasOutcome, LoadsAll, LoadsClause, LoadsClauses, LoadsRequirement, LoadsRequirements};
    ghost use Rattle.resolvo.specs.ClauseSearches.{KeepsBookmark, KeepsTurn, base_of, clause_count_of, held_of, kept_of, learnt_count_of};
    ghost use Rattle.resolvo.specs.ClauseSearches.{HasDecided, IsStalled, numbers_of, trail_of};

    /// Returns a search without variables and clauses. The activity has the parameters of its scores.
    pub fn new(alloc: Global, activity: Activity) -> Self
        ensures consistent { IsConsistent result }
        ensures loaded { IsLoaded [] [] result }
        ensures variables { variable_count (trail_of result) ≡ 0 }
        ensures learnt { learnt_count_of result ≡ 0 }
        ensures turn { IsRootTurn result }
    {
        ClauseSearch {
            trail: Trail::empty(alloc),
            propagator: Propagator::empty(alloc),
            table: Clauses::new(alloc),
            sources: Sources::new(alloc),
            requirements: Vec::new(alloc),
            places: Places::new(alloc),
            kept: 0,
            base: 0,
            held: 0,
            marks: BlankMarks::new(alloc),
            queue: DecideQueue::new(alloc, activity),
        }
    }

    /// Returns the trail, which has the values that were found, with their levels and reasons.
    pub fn trail(&self) -> &Trail
        ensures { result.now ≡ trail_of self.now }
    {
        &self.trail
    }

    /// Returns the number of learnt clauses.
    pub fn learnt_count(&self) -> usize
        ensures { result ≡ learnt_count_of self.now }
    {
        self.table.len().saturating_sub(self.places.len())
    }

    /// Returns the number of clauses, given and learnt.
    pub fn clause_count(&self) -> usize
        ensures { result ≡ clause_count_of self.now }
    {
        self.table.len()
    }

    /// Returns the number of first entries of the trail that have not changed since the trail was last bookmarked.
    pub fn kept(&self) -> usize
        ensures value { result ≡ kept_of self.now }
        ensures inside { IsConsistent self.now → result ≤ length_of (trail_of self.now) }
    {
        self.kept
    }

    /// Bookmarks the trail as it is.
    pub fn bookmark(&mut self)
        ensures consistent { IsConsistent self.old → IsConsistent self.new }
        ensures loaded { KeepsLoaded self.old self.new }
        ensures trail { trail_of self.new ≡ trail_of self.old }
        ensures clauses { clause_count_of self.new ≡ clause_count_of self.old }
        ensures learnt { learnt_count_of self.new ≡ learnt_count_of self.old }
        ensures count { kept_of self.new ≡ length_of (trail_of self.new) }
        ensures kept { KeepsPlaces (trail_of self.new) (trail_of self.new) (kept_of self.new) }
        ensures turn { KeepsTurn self.old self.new }
    {
        self.kept = self.trail.len();
    }

    /// Begins a turn: holds the whole trail, and assumes a literal at a level of its own. The search does not backtrack
    /// below that level.
    pub fn assume(&mut self, literal: Literal) -> Result<(), AllocError>
        requires consistent { IsConsistent self.old }
        requires inside { literal.variable < variable_count (trail_of self.old) }
        requires free { slot_of (trail_of self.old) literal.variable ≡ None }
        requires bookmarked { kept_of self.old ≡ length_of (trail_of self.old) }
        ensures consistent { OnOk result (IsConsistent self.new) }
        ensures loaded { OnOk result (KeepsLoaded self.old self.new) }
        ensures gains { OnOk result (Gains (trail_of self.old) (trail_of self.new) literal (level_of (trail_of self.old) + 1) Assumed) }
        ensures base { OnOk result (base_of self.new ≡ level_of (trail_of self.old) + 1) }
        ensures held { OnOk result (held_of self.new ≡ length_of (trail_of self.new)) }
        ensures clauses { OnOk result (clause_count_of self.new ≡ clause_count_of self.old) }
        ensures learnt { OnOk result (learnt_count_of self.new ≡ learnt_count_of self.old) }
        ensures count { OnOk result (kept_of self.new ≡ kept_of self.old) }
        ensures kept { OnOk result (KeepsBookmark self.old self.new) }
    {
        self.trail.assume(literal)?;
        self.base = self.trail.level();
        self.held = self.trail.len();
        Ok(())
    }

    /// Takes the turn back: cuts the trail to its end before the present assumption, and holds it.
    pub fn retract(&mut self) -> Result<(), AllocError>
        requires consistent { IsConsistent self.old }
        requires turn { 0 < base_of self.old }
        ensures consistent { OnOk result (IsConsistent self.new) }
        ensures loaded { OnOk result (KeepsLoaded self.old self.new) }
        ensures cut { OnOk result (IsCut (trail_of self.old) (trail_of self.new) (held_of self.old - 1)) }
        ensures free { OnOk result (slot_of (trail_of self.new) (variable_at (trail_of self.old) (held_of self.old - 1)) ≡ None) }
        ensures base { OnOk result (base_of self.new ≡ level_of (trail_of self.new)) }
        ensures held { OnOk result (held_of self.new ≡ length_of (trail_of self.new)) }
        ensures clauses { OnOk result (clause_count_of self.new ≡ clause_count_of self.old) }
        ensures learnt { OnOk result (learnt_count_of self.new ≡ learnt_count_of self.old) }
        ensures count { OnOk result (kept_of self.new ≡ length_of (trail_of self.new)) }
        ensures kept { OnOk result (KeepsBookmark self.old self.new) }
    {
        let count = self.held - 1;
        let began = begins_level(&self.trail, count);
        self.trail.cut(count);
        self.propagator.return_to(&self.trail, began)?;
        self.queue.cut(count);
        self.kept = self.kept.min(count);
        self.base = self.trail.level();
        self.held = count;
        Ok(())
    }

    /// Holds the whole trail: none of it is undone from now on.
    pub fn hold(&mut self)
        requires consistent { IsConsistent self.old }
        requires bookmarked { kept_of self.old ≡ length_of (trail_of self.old) }
        ensures consistent { IsConsistent self.new }
        ensures loaded { KeepsLoaded self.old self.new }
        ensures trail { trail_of self.new ≡ trail_of self.old }
        ensures base { base_of self.new ≡ level_of (trail_of self.new) }
        ensures held { held_of self.new ≡ length_of (trail_of self.new) }
        ensures clauses { clause_count_of self.new ≡ clause_count_of self.old }
        ensures learnt { learnt_count_of self.new ≡ learnt_count_of self.old }
        ensures count { kept_of self.new ≡ kept_of self.old }
        ensures kept { KeepsBookmark self.old self.new }
    {
        self.base = self.trail.level();
        self.held = self.trail.len();
    }

    /// Appends a given clause.
    ///
    /// If the clause is false, the highest level of its literals is undone, unless it is the base or a lower one. The levels below
    /// stay. If the clause is still false then, the next run finds that.
    fn load_clause(&mut self, literals: &[Literal]) -> Result<(), AllocError>
        requires consistent { IsConsistent self.old }
        requires below { IsBelow (variable_count (trail_of self.old)) literals.now }
        ensures consistent { OnOk result (IsConsistent self.new) }
        ensures loaded { OnOk result (LoadsClause self.old self.new literals.now) }
        ensures same { OnOk result (IsSameSearch self.old self.new) }
        ensures count { OnOk result (length self.new.places ≡ length self.old.places + 1) }
        ensures undone { OnOk result (IsFalsified self.old.trail literals.now → TakesBack self.old.trail self.new.trail literals.now self.old.base) }
        ensures stays { OnOk result ((IsFalsified (trail_of self.old) literals.now → ⊥) → ExtendsTrail (trail_of self.old) (trail_of self.new)) }
    {
        let number = self.places.len();
        let place = self.table.len();
        let level = level_for(&self.trail, literals, self.base);
        self.propagator.attach(&self.trail, literals)?;
        self.table.push(literals)?;
        self.sources.push_given(number)?;
        self.places.push(place)?;
        self.trail.undo_until(level);
        self.propagator.cut(&self.trail)?;
        let left = self.trail.len();
        self.queue.cut(left);
        self.kept = self.kept.min(left);
        Ok(())
    }

    /// Loads the clauses after those that are loaded.
    fn load_clauses(&mut self, clauses: &Clauses) -> Result<(), AllocError>
        requires consistent { IsConsistent self.old }
        requires below { AreBelow (variable_count (trail_of self.old)) clauses.now }
        ensures consistent { OnOk result (IsConsistent self.new) }
        ensures loaded { OnOk result (LoadsClauses self.old self.new clauses.now) }
        ensures same { OnOk result (IsSameSearch self.old self.new) }
        ensures count { OnOk result (length clauses.now ≤ length self.new.places) }
    {
        'clauses: for number in self.places.len()..clauses.len() {
            self.load_clause(clause(clauses, number))?;
        }
        Ok(())
    }

    /// Appends a requirement.
    fn load_requirement(
        &mut self,
        requirement: &RequirementClause,
        union_ends: &UnionEnds,
    ) -> Result<(), AllocError>
        requires consistent { IsConsistent self.old }
        requires inside { requirement.now.number < length self.old.places }
        ensures consistent { OnOk result (IsConsistent self.new) }
        ensures loaded { OnOk result (LoadsRequirement self.old self.new requirement.now.number) }
        ensures same { OnOk result (IsSameSearch self.old self.new) }
        ensures places { OnOk result (self.new.places ≡ self.old.places) }
        ensures count { OnOk result (length self.new.requirements.items ≡ length self.old.requirements.items + 1) }
    {
        let place = narrow(self.places.at(requirement.number as usize))?;
        self.queue.add(
            self.requirements.len(),
            clause(&self.table, place as usize),
            ends_of(requirement, union_ends),
        )?;
        self.requirements.push(StoredRequirement {
            number: place,
            of_root: requirement.of_root,
        })?;
        Ok(())
    }

    /// Loads the requirements after those that are loaded.
    #[inline(always)]
    fn load_requirements(
        &mut self,
        requirements: &[RequirementClause],
        union_ends: &UnionEnds,
    ) -> Result<(), AllocError>
        requires consistent { IsConsistent self.old }
        requires inside { All (λ (requirement : RequirementClause). requirement.number < length self.old.places) requirements.now }
        ensures consistent { OnOk result (IsConsistent self.new) }
        ensures loaded { OnOk result (LoadsRequirements self.old self.new (numbers_of requirements.now)) }
        ensures same { OnOk result (IsSameSearch self.old self.new) }
    {
        'requirements: for index in self.requirements.len()..requirements.len() {
            self.load_requirement(&requirements[index], union_ends)?;
        }
        Ok(())
    }

    /// Loads the new part of these lists, which only grow.
    ///
    /// The requirement clauses are among the given ones. `union_ends` has the places where the candidates of each version
    /// set end, for the unions among them, by the numbers of the clauses. `owners` is not such a list: it has the owners of
    /// the variables that are new since the last call, or is empty in each call. The owner of a variable is its package's
    /// number, if the variable stands for a solvable.
    pub fn load(
        &mut self,
        variables: usize,
        clauses: &Clauses,
        requirements: &[RequirementClause],
        union_ends: &UnionEnds,
        owners: &[Owner],
    ) -> Result<(), Exhausted>
        requires consistent { IsConsistent self.old }
        requires below { AreBelow variables clauses.now }
        requires inside { All (λ (requirement : RequirementClause). requirement.number < length clauses.now) requirements.now }
        requires room { variable_count (trail_of self.old) ≤ variables }
        ensures consistent { OnOk result (IsConsistent self.new) }
        ensures loaded { OnOk result (LoadsAll self.old self.new clauses.now (numbers_of requirements.now)) }
        ensures variables { OnOk result (variable_count (trail_of self.new) ≡ variables) }
        ensures learnt { OnOk result (learnt_count_of self.new ≡ learnt_count_of self.old) }
        ensures kept { OnOk result (KeepsBookmark self.old self.new) }
        ensures turn { OnOk result (KeepsTurn self.old self.new) }
        ensures set { OnOk result (SetsNone (trail_of self.old) (trail_of self.new)) }
        ensures bookmarked { OnOk result (StaysBookmarked self.old self.new) }
        ensures memory { IfErr result (λ e. e ≡ Memory) }
    {
        self.trail.grow(variables)?;
        self.propagator.grow(variables)?;
        self.queue.learn_owners(owners)?;
        self.load_clauses(clauses)?;
        self.load_requirements(requirements, union_ends)?;
        Ok(())
    }

    /// Appends a learnt clause, backtracks, and makes its asserting literal true.
    ///
    /// The search goes back to the backtrack level, but not below the base.
    fn backtrack(&mut self, learnt: Learnt) -> Result<(), AllocError>
        requires consistent { IsConsistent self.old }
        requires learnt { IsLearnt self.old.table self.old.trail learnt }
        requires above { self.old.base < level_in self.old.trail learnt.literal.variable }
        ensures consistent { OnOk result (IsConsistent self.new) }
        ensures same { OnOk result (IsSameProblem self.old self.new) }
        ensures level { OnOk result
            (IsBacktrack self.old.trail self.new.trail learnt.literal (max learnt.backtrack_level self.old.base) (length self.old.table)) }
        ensures stored { OnOk result (clause_at self.new.table (length self.old.table) ≡ learnt.literals.items) }
        ensures count { OnOk result (learnt_count_of self.new ≡ learnt_count_of self.old + 1) }
    {
        let Learnt {
            literals,
            causes,
            literal,
            backtrack_level,
        } = learnt;
        let number = self.table.len();
        self.queue.learn(&literals)?;
        self.propagator.attach(&self.trail, &literals)?;
        self.table.push(&literals)?;
        self.sources.push_learnt(causes)?;
        let back = backtrack_level.max(self.base);
        self.trail.undo_until(back);
        self.propagator.cut(&self.trail)?;
        let left = self.trail.len();
        self.queue.cut(left);
        self.kept = self.kept.min(left);
        self.trail.force(literal, number)?;
        Ok(())
    }

    /// Adds a learnt clause and backtracks, unless the clause is false at the base.
    fn add_learnt(
        &mut self,
        learnt: Learnt,
        learnt_limit: usize,
        clause_limit: usize,
    ) -> Result<Option<Outcome>, Exhausted>
        requires consistent { IsConsistent self.old }
        requires learnt { IsLearnt self.old.table self.old.trail learnt }
        ensures outcome { IfOk result (λ answer. IfSome answer (HasOutcome self.old self.new)) }
        ensures consistent { OnOk result (IsConsistent self.new) }
        ensures same { OnOk result (IsSameProblem self.old self.new) }
        ensures more { IfOk result (λ answer. IfNone answer (learnt_count_of self.new ≡ learnt_count_of self.old + 1)) }
        ensures below { IfOk result (λ answer. IfNone answer (learnt_count_of self.old < learnt_limit)) }
        ensures ids { IfErr result (λ e. e ≡ Ids → (learnt_limit ≤ learnt_count_of self.new) ⊎ (clause_limit ≤ clause_count_of self.new)) }
    {
        if asserted_level(&self.trail, &learnt) <= self.base {
            return Ok(Some(Outcome::Refused));
        }
        if learnt_limit <= self.learnt_count() || clause_limit <= self.table.len() {
            return Err(Exhausted::Ids);
        }
        self.backtrack(learnt)?;
        Ok(None)
    }

    /// Learns from a false clause, unless it ends the search: given clauses contradict each other, or no level above
    /// the base is involved.
    fn learn(
        &mut self,
        alloc: Global,
        number: usize,
        learnt_limit: usize,
        clause_limit: usize,
    ) -> Result<Option<Outcome>, Exhausted>
        requires consistent { IsConsistent self.old }
        requires conflict { IsConflict self.old.trail self.old.table number }
        ensures outcome { IfOk result (λ answer. IfSome answer (HasOutcome self.old self.new)) }
        ensures consistent { OnOk result (IsConsistent self.new) }
        ensures same { OnOk result (IsSameProblem self.old self.new) }
        ensures more { IfOk result (λ answer. IfNone answer (learnt_count_of self.new ≡ learnt_count_of self.old + 1)) }
        ensures below { IfOk result (λ answer. IfNone answer (learnt_count_of self.old < learnt_limit)) }
        ensures ids { IfErr result (λ e. e ≡ Ids → (learnt_limit ≤ learnt_count_of self.new) ⊎ (clause_limit ≤ clause_count_of self.new)) }
    {
        match analyze(alloc, &mut self.marks, &self.table, &self.trail, number)? {
            Analysis::Contradiction(causes) => {
                let numbers = core(alloc, &self.table, &self.sources, causes.as_slice())?;
                Ok(Some(Outcome::Contradiction(numbers)))
            }
            Analysis::Clause(learnt) => {
                let answer = self.add_learnt(learnt, learnt_limit, clause_limit)?;
                Ok(answer)
            }
        }
    }

    /// Undoes the levels above this one, but no level up to the base.
    fn return_to(&mut self, level: usize) -> Result<(), AllocError>
        requires consistent { IsConsistent self.old }
        ensures consistent { OnOk result (IsConsistent self.new) }
        ensures same { OnOk result (IsSameProblem self.old self.new) }
        ensures learnt { OnOk result (learnt_count_of self.new ≡ learnt_count_of self.old) }
        ensures undone { OnOk result (IsUndone (trail_of self.old) (trail_of self.new) (max level (base_of self.old))) }
    {
        self.trail.undo_until(level.max(self.base));
        self.propagator.cut(&self.trail)?;
        let left = self.trail.len();
        self.queue.cut(left);
        self.kept = self.kept.min(left);
        Ok(())
    }

    /// Propagates, and returns what comes next.
    ///
    /// The provider may stop the search before the propagation.
    #[inline(always)]
    fn next_step<D: DependencyProvider>(
        &mut self,
        provider: &D,
    ) -> Result<Step, Interrupted<D::Cancel>>
        requires consistent { IsConsistent self.old }
        ensures consistent { OnOk result (IsConsistent self.new) }
        ensures same { OnOk result (IsSameProblem self.old self.new) }
        ensures learnt { OnOk result (learnt_count_of self.new ≡ learnt_count_of self.old) }
        ensures step { IfOk result (StepIs self.new.trail self.new.table self.new.requirements.items) }
        ensures fewer { OnOk result (open_count self.new.trail ≤ open_count self.old.trail) }
        ensures refusal { IfErr result (IsInterruption (D.may_cancel provider.now)) }
    {
        check_cancel(provider)?;
        if let Some(number) = apply_all_pending(
            &mut self.trail,
            &self.table,
            &mut self.propagator,
        )? {
            return Ok(Step::Conflict(number));
        }
        if let Some(number) = propagate(&mut self.trail, &self.table, &mut self.propagator)? {
            return Ok(Step::Conflict(number));
        }
        let requirements = self.requirements.as_slice();
        match self.queue.next(&self.trail, &self.table, requirements)? {
            Some(choice) => Ok(Step::Decide(choice)),
            None => Ok(Step::Finished),
        }
    }

    /// Takes a choice: begins a level with its candidate.
    fn take(&mut self, choice: Choice) -> Result<(), AllocError>
        requires consistent { IsConsistent self.old }
        requires choice { IsChoice self.old.trail self.old.table self.old.requirements.items choice }
        ensures consistent { OnOk result (IsConsistent self.new) }
        ensures same { OnOk result (IsSameProblem self.old self.new) }
        ensures learnt { OnOk result (learnt_count_of self.new ≡ learnt_count_of self.old) }
        ensures taken { OnOk result (TakesChoice self.old.trail self.new.trail self.new.table choice) }
        ensures given { OnOk result (self.new.table ≡ self.old.table) }
        ensures requirements { OnOk result (self.new.requirements ≡ self.old.requirements) }
        ensures fewer { OnOk result (open_count self.new.trail < open_count self.old.trail) }
    {
        let literal = clause(&self.table, choice.number)[choice.place];
        self.trail.decide(literal, choice.number)?;
        Ok(())
    }

    /// Propagates and decides until no requirement is left to decide or a clause is false. Returns the number of that
    /// clause.
    ///
    /// The provider may stop the search before each propagation.
    fn descend<D: DependencyProvider>(
        &mut self,
        provider: &D,
    ) -> Result<Option<usize>, Interrupted<D::Cancel>>
        requires consistent { IsConsistent self.old }
        ensures consistent { OnOk result (IsConsistent self.new) }
        ensures same { OnOk result (IsSameProblem self.old self.new) }
        ensures learnt { OnOk result (learnt_count_of self.new ≡ learnt_count_of self.old) }
        ensures conflict { IfOk result (λ answer. IfSome answer (IsConflict self.new.trail self.new.table)) }
        ensures done { IfOk result (λ answer. IfNone answer (AreDone self.new.trail self.new.table self.new.requirements.items)) }
        ensures refusal { IfErr result (IsInterruption (D.may_cancel provider.now)) }
    {
        'steps: loop {
            match self.next_step(provider)? {
                Step::Decide(choice) => self.take(choice)?,
                Step::Conflict(number) => return Ok(Some(number)),
                Step::Finished => return Ok(None),
            }
        }
    }

    /// Restarts the search, if that is due. It keeps the levels below the first decision that would now come after the
    /// next one.
    fn restart<D: DependencyProvider>(&mut self, provider: &D) -> Result<(), Interrupted<D::Cancel>>
        requires consistent { IsConsistent self.old }
        ensures consistent { OnOk result (IsConsistent self.new) }
        ensures same { OnOk result (IsSameProblem self.old self.new) }
        ensures learnt { OnOk result (learnt_count_of self.new ≡ learnt_count_of self.old) }
        ensures refusal { IfErr result (IsInterruption (D.may_cancel provider.now)) }
    {
        if !is_due(
            self.learnt_count(),
            self.trail.level().saturating_sub(self.base),
        ) {
            return Ok(());
        }
        match self.next_step(provider)? {
            Step::Decide(choice) => {
                let level = kept_level(
                    &self.trail,
                    &self.table,
                    self.requirements.as_slice(),
                    &self.queue,
                    self.held,
                    choice,
                );
                self.return_to(level)?;
                Ok(())
            }
            Step::Conflict(_) => Ok(()),
            Step::Finished => Ok(()),
        }
    }

    /// Propagates, and makes the next decision, whose consequences are left to the next run. Returns whether there was one.
    ///
    /// The provider may stop the search before the propagation.
    pub fn decide<D: DependencyProvider>(
        &mut self,
        provider: &D,
    ) -> Result<bool, Interrupted<D::Cancel>>
        requires consistent { IsConsistent self.old }
        ensures consistent { OnOk result (IsConsistent self.new) }
        ensures same { OnOk result (IsSameProblem self.old self.new) }
        ensures learnt { OnOk result (learnt_count_of self.new ≡ learnt_count_of self.old) }
        ensures made { IfOk result (λ is_made. is_made ≡ true → HasDecided self.new) }
        ensures none { IfOk result (λ is_made. is_made ≡ false → IsStalled self.new) }
        ensures fewer { IfOk result (λ is_made. is_made ≡ true → open_count (trail_of self.new) < open_count (trail_of self.old)) }
        ensures refusal { IfErr result (IsInterruption (D.may_cancel provider.now)) }
    {
        match self.next_step(provider)? {
            Step::Decide(choice) => {
                self.take(choice)?;
                Ok(true)
            }
            Step::Conflict(_) => Ok(false),
            Step::Finished => Ok(false),
        }
    }

    /// Searches for values, or for given clauses that no values make true together.
    ///
    /// During a turn the held entries of the trail stay, and the search is refused if a clause is false by them and the
    /// assumption alone. The error is `Ids` if the next learnt clause would exceed the limit of learnt clauses or the
    /// limit of all clauses.
    pub fn run<D: DependencyProvider>(
        &mut self,
        alloc: Global,
        provider: &D,
        learnt_limit: usize,
        clause_limit: usize,
    ) -> Result<Outcome, Interrupted<D::Cancel>>
        requires consistent { IsConsistent self.old }
        ensures outcome { IfOk result (HasOutcome self.old self.new) }
        ensures consistent { OnOk result (IsConsistent self.new) }
        ensures loaded { OnOk result (KeepsLoaded self.old self.new) }
        ensures variables { OnOk result (variable_count (trail_of self.new) ≡ variable_count (trail_of self.old)) }
        ensures kept { OnOk result (KeepsBookmark self.old self.new) }
        ensures turn { OnOk result (KeepsTurn self.old self.new) }
        ensures refusal { IfErr result
            (IsStop (D.may_cancel provider.now) ((learnt_limit ≤ learnt_count_of self.new) ⊎ (clause_limit ≤ clause_count_of self.new))) }
    {
        'conflicts: loop {
            match self.descend(provider)? {
                None => return Ok(Outcome::Finished),
                Some(number) => {
                    match self.learn(alloc, number, learnt_limit, clause_limit)? {
                        Some(outcome) => return Ok(outcome),
                        None => self.restart(provider)?,
                    }
                }
            }
        }
    }
}

#[cfg(test)]
mod tests;
