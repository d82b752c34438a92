//! Rounds of searching and reading, until the chosen solvables are an answer.

mod soft_turns;

ghost use Rattle.std.specs.Iterator.{IsFinite};
ghost use Rattle.std.specs.Prelude.{◌≡◌, ◌+◌, ◌-◌, ◌≤◌, ◌<◌, ◌⊎◌, ◌^◌, [], Contains, IfErr, IfNone, IfOk, IfSome, None, OnOk, Some, false, length};
ghost use Rattle.std.specs.Prelude.{min, slice_get, true};
ghost use Rattle.resolver_clause_store.specs.TrailView.{length_of, slot_of};
ghost use Rattle.resolver_clause_store.specs.declared.Origin.TheVariants.{Solvable as SolvableOrigin};
ghost use Rattle.resolvo.specs.Problems.{AreItems, list_in, root_demands};
ghost use Rattle.resolver_clause_store.specs.Caches.{IsTrueCache};
ghost use Rattle.resolver_clause_store.specs.Laws.{IsIdentity};
ghost use Rattle.resolver_clause_store.specs.Universe.{Universe};
ghost use Rattle.resolver_clause_store.specs.Variables.{AreDistinct};
ghost use Rattle.resolver_encoding.specs.Refusals.{IsStop};
ghost use Rattle.resolver_encoding.specs.SoFar.{IsProgress, IsReadSoFar};
ghost use Rattle.resolver_encoding.specs.Reach.{AreNear};
ghost use Rattle.resolver_encoding.specs.Values.{requirement_numbers};
ghost use Rattle.resolver_encoding.specs.declared.progress.Progress.TheVariants.{Read as ReadProgress};
ghost use Rattle.resolvo.specs.ClauseSearches.{HasDecided, IsConsistent, IsRootTurn, IsStalled, KeepsTurn, OutcomeIs, learnt_count_of, trail_of};

use crate::clause_search::{ClauseSearch, Outcome};
use crate::owners::Owners;
use crate::problem::Problem;
use resolver_clause_store::{
    Activity, Cache, DependencyProvider, Exhausted, Interner, Interrupted, Literal, Variable,
};
use resolver_encoding::{Chosen, Encoding, Progress};
use std::alloc::Global;
use std::hash::Hash;

/// The result of the rounds.
#[derive(Drop)]
pub enum Found {
    /// The chosen solvables are an answer.
    Answer,
    /// The numbers of the clauses in an unsatisfiable core.
    Contradiction(Vec<usize>),
    /// The last assumption fails.
    Refused,
}

/// The result of a round.
#[derive(Drop)]
pub enum Round {
    /// There is nothing left to search or to read.
    Last(Found),
    /// Deferred disjuncts were met: their requirements got clauses. No solvable was read.
    Fired,
    /// Solvables were read.
    Read,
}

/// The encoding of what was read so far, a search over its clauses, and the solvables that it chose.
#[derive(Drop)]
pub struct Rounds<N: Copy + Eq + Hash + Drop, S: Copy + Eq + Hash + Drop> {
    alloc: Global,
    pub(crate) encoding: Encoding<N, S>,
    search: ClauseSearch,
    owners: Owners<N>,
    pub(crate) chosen: Chosen<S>,
    clause_limit: usize,
    learnt_limit: usize,
}

impl<N: Copy + Eq + Hash + Drop, S: Copy + Eq + Hash + Drop> Rounds<N, S> {
    ghost use Rattle.resolvo.specs.RoundStates.{AreAtRest, AreRounds, GoesOn, HasFollowed, HasBookmark, HasAssumed, IsAnswering, IsDoneBy};
    ghost use Rattle.resolvo.specs.RoundStates.{IsFollowingFrom, IsRefusing, IsFound, IsFresh, IsStill, IsRound, IsSearchOf, IsStuck, IsUnanswered, IsUpToDate};
    ghost use Rattle.resolvo.specs.RoundStates.{KeepsEncoding, KeepsRoundLimits, TakesTurn};
    ghost use Rattle.resolvo.specs.RoundStates.{cache_of, chosen_of, clause_limit_of, learnt_limit_of, notes_of, search_of};

    /// Returns rounds that have read nothing.
    ///
    /// The limits bound the variables, clauses and learnt clauses; the activity has the parameters of the scores.
    pub fn new(
        alloc: Global,
        cache: Cache<N, S>,
        variable_limit: usize,
        clause_limit: usize,
        learnt_limit: usize,
        activity: Activity,
    ) -> Self
        requires { variable_limit ≤ 2 ^ 31 }
        ensures fresh { IsFresh result }
        ensures variables { (notes_of result).variable_limit ≡ variable_limit }
        ensures clauses { (notes_of result).clause_limit ≡ clause_limit }
        ensures all_clauses { clause_limit_of result ≡ clause_limit }
        ensures learnt { learnt_limit_of result ≡ learnt_limit }
        ensures cache { cache_of result ≡ cache }
        ensures none_learnt { learnt_count_of (search_of result) ≡ 0 }
    {
        Rounds {
            alloc,
            encoding: Encoding::new(alloc, cache, variable_limit, clause_limit),
            search: ClauseSearch::new(alloc, activity),
            owners: Owners::new(alloc),
            chosen: Chosen::new::<N>(alloc),
            clause_limit,
            learnt_limit,
        }
    }

    /// Returns the number of clauses, read and learnt, or the highest number if there are more.
    pub fn clause_count(&self) -> usize
        ensures { result ≡ min (length (notes_of self.now).kinds + learnt_count_of (search_of self.now)) (2 ^ 64 - 1) }
    {
        self.encoding
            .clause_count()
            .saturating_add(self.search.learnt_count())
    }

    /// Reads the root.
    fn begin<D: DependencyProvider<NameId = N, SolvableId = S>, I: Drop>(
        &mut self,
        provider: &D,
        problem: &Problem<S, I>,
    ) -> Result<(), Interrupted<D::Cancel>>
        requires fresh { IsFresh self.old }
        requires is_true { IsTrueCache (D.universe provider.now) (cache_of self.old) }
        ensures rounds { OnOk result (AreRounds (D.universe provider.now) self.new) }
        ensures read { OnOk result (IsReadSoFar (D.universe provider.now) (root_demands problem.now) (chosen_of self.new) (notes_of self.new)) }
        ensures near { OnOk result (AreNear (D.universe provider.now) (root_demands problem.now) [] [] (notes_of self.new)) }
        ensures exempt { OnOk result ((notes_of self.new).exempt ≡ []) }
        ensures turn { OnOk result (IsRootTurn (search_of self.new)) }
        ensures limits { KeepsRoundLimits (D.universe provider.now) self.old self.new }
        ensures refusal { IfErr result (IsStop (D.may_cancel provider.now) (IsStuck self.new)) }
    {
        let requirements = problem.root_requirements();
        self.encoding
            .read_root(provider, requirements, problem.root_constraints())?;
        Ok(())
    }

    /// Loads the clauses that are new since the last call.
    fn load<D: DependencyProvider<NameId = N, SolvableId = S>>(
        &mut self,
        provider: &D,
    ) -> Result<(), Exhausted>
        requires rounds { AreRounds (D.universe provider.now) self.old }
        ensures rounds { OnOk result (AreRounds (D.universe provider.now) self.new) }
        ensures loaded { OnOk result (IsUpToDate self.new) }
        ensures same { IsSearchOf self.old self.new }
        ensures turn { OnOk result (KeepsTurn (search_of self.old) (search_of self.new)) }
        ensures still { OnOk result (IsStill self.old → IsStill self.new) }
        ensures limits { KeepsRoundLimits (D.universe provider.now) self.old self.new }
        ensures memory { IfErr result (λ e. e ≡ Exhausted.Memory) }
    {
        let known = self.encoding.variables();
        let loaded = self.search.trail().variable_count();
        self.owners.follow(provider, known, loaded)?;
        self.search.load(
            known.len(),
            self.encoding.literals(),
            self.encoding.requirements(),
            self.encoding.union_ends(),
            self.owners.as_slice(),
        )?;
        Ok(())
    }

    /// Searches over the clauses of what was read.
    fn search<D: DependencyProvider<NameId = N, SolvableId = S>>(
        &mut self,
        provider: &D,
    ) -> Result<Outcome, Interrupted<D::Cancel>>
        requires rounds { AreRounds (D.universe provider.now) self.old }
        ensures rounds { OnOk result (AreRounds (D.universe provider.now) self.new) }
        ensures loaded { OnOk result (IsUpToDate self.new) }
        ensures same { IsSearchOf self.old self.new }
        ensures turn { OnOk result (KeepsTurn (search_of self.old) (search_of self.new)) }
        ensures outcome { IfOk result (OutcomeIs (notes_of self.new).table (requirement_numbers (notes_of self.new).kinds) (search_of self.new)) }
        ensures limits { KeepsRoundLimits (D.universe provider.now) self.old self.new }
        ensures refusal { IfErr result (IsStop (D.may_cancel provider.now) (IsStuck self.new)) }
    {
        self.load(provider)?;
        let outcome = self
            .search
            .run(self.alloc, provider, self.learnt_limit, self.clause_limit)?;
        Ok(outcome)
    }

    /// Follows the trail from the place where it differs from the last round. Returns how many of the chosen solvables
    /// were chosen then as well.
    fn follow(&mut self) -> Result<usize, Exhausted>
        requires identity { IsIdentity S.eq }
        requires distinct { AreDistinct (notes_of self.old).origins }
        requires consistent { IsConsistent (search_of self.old) }
        requires loaded { IsUpToDate self.old }
        requires bookmark { HasBookmark self.old }
        ensures following { IfOk result (IsFollowingFrom self.old self.new) }
        ensures followed { OnOk result (HasFollowed self.old self.new) }
        ensures same { KeepsEncoding self.old self.new }
        ensures limits { (u : Universe N S) → KeepsRoundLimits u self.old self.new }
        ensures memory { IfErr result (λ e. e ≡ Exhausted.Memory) }
    {
        self.chosen.cut::<N>(self.search.kept());
        let from = self.chosen.len();
        self.chosen
            .follow(self.encoding.variables(), self.search.trail())?;
        self.search.bookmark();
        Ok(from)
    }

    /// Reads the chosen solvables.
    fn read<D: DependencyProvider<NameId = N, SolvableId = S>>(
        &mut self,
        provider: &D,
    ) -> Result<Progress, Interrupted<D::Cancel>>
        requires rounds { AreRounds (D.universe provider.now) self.old }
        requires loaded { IsUpToDate self.old }
        ensures rounds { OnOk result (AreRounds (D.universe provider.now) self.new) }
        ensures keeps { OnOk result (GoesOn (D.universe provider.now) self.old self.new) }
        ensures followed { OnOk result (HasFollowed self.old self.new) }
        ensures progress { IfOk result (IsProgress (notes_of self.old) (notes_of self.new)) }
        ensures fit { OnOk result (length (notes_of self.new).read ≤ (notes_of self.new).variable_limit) }
        ensures limits { KeepsRoundLimits (D.universe provider.now) self.old self.new }
        ensures refusal { IfErr result (IsStop (D.may_cancel provider.now) (IsStuck self.new)) }
    {
        let from = self.follow()?;
        let progress = self
            .encoding
            .read_chosen(provider, self.chosen.solvables(), from)?;
        Ok(progress)
    }

    /// Makes the next decision, if clauses that are loaded first take entries of the trail back. Returns whether it made one.
    fn decide_after_failure<D: DependencyProvider<NameId = N, SolvableId = S>>(
        &mut self,
        provider: &D,
    ) -> Result<bool, Interrupted<D::Cancel>>
        requires rounds { AreRounds (D.universe provider.now) self.old }
        ensures rounds { OnOk result (AreRounds (D.universe provider.now) self.new) }
        ensures loaded { OnOk result (IsUpToDate self.new) }
        ensures same { IsSearchOf self.old self.new }
        ensures turn { OnOk result (KeepsTurn (search_of self.old) (search_of self.new)) }
        ensures made { IfOk result (λ made. made ≡ true → HasDecided (search_of self.new)) }
        ensures none { IfOk result (λ made. made ≡ false →
            (length_of (trail_of self.old.search) ≤ length_of (trail_of self.new.search)) ⊎ IsStalled self.new.search) }
        ensures limits { KeepsRoundLimits (D.universe provider.now) self.old self.new }
        ensures refusal { IfErr result (IsStop (D.may_cancel provider.now) (IsStuck self.new)) }
    {
        let before = self.search.trail().len();
        self.load(provider)?;
        if before <= self.search.trail().len() {
            return Ok(false);
        }
        let is_made = self.search.decide(provider)?;
        Ok(is_made)
    }

    /// Reads the chosen solvables after the next decision, if clauses that are loaded first take entries of the trail back.
    ///
    /// Versions that fail one after another are found so without the consequences of each, and without further decisions.
    fn read_after_failure<D: DependencyProvider<NameId = N, SolvableId = S>>(
        &mut self,
        provider: &D,
    ) -> Result<Progress, Interrupted<D::Cancel>>
        requires rounds { AreRounds (D.universe provider.now) self.old }
        ensures rounds { OnOk result (AreRounds (D.universe provider.now) self.new) }
        ensures keeps { OnOk result (GoesOn (D.universe provider.now) self.old self.new) }
        ensures progress { IfOk result (IsProgress (notes_of self.old) (notes_of self.new)) }
        ensures fit { IfOk result (λ progress. progress ≡ ReadProgress → length (notes_of self.new).read ≤ (notes_of self.new).variable_limit) }
        ensures limits { KeepsRoundLimits (D.universe provider.now) self.old self.new }
        ensures refusal { IfErr result (IsStop (D.may_cancel provider.now) (IsStuck self.new)) }
    {
        if self.decide_after_failure(provider)? {
            let progress = self.read(provider)?;
            return Ok(progress);
        }
        Ok(Progress::Nothing)
    }

    /// Searches, and reads the chosen solvables.
    fn search_and_read<D: DependencyProvider<NameId = N, SolvableId = S>>(
        &mut self,
        provider: &D,
    ) -> Result<Round, Interrupted<D::Cancel>>
        requires rounds { AreRounds (D.universe provider.now) self.old }
        ensures rounds { OnOk result (AreRounds (D.universe provider.now) self.new) }
        ensures keeps { OnOk result (GoesOn (D.universe provider.now) self.old self.new) }
        ensures round { IfOk result (IsRound (D.universe provider.now) self.old self.new) }
        ensures limits { KeepsRoundLimits (D.universe provider.now) self.old self.new }
        ensures refusal { IfErr result (IsStop (D.may_cancel provider.now) (IsStuck self.new)) }
    {
        match self.search(provider)? {
            Outcome::Contradiction(core) => Ok(Round::Last(Found::Contradiction(core))),
            Outcome::Refused => Ok(Round::Last(Found::Refused)),
            Outcome::Finished => match self.read(provider)? {
                Progress::Nothing => Ok(Round::Last(Found::Answer)),
                Progress::Fired => Ok(Round::Fired),
                Progress::Read => Ok(Round::Read),
            },
        }
    }

    /// Reads what is chosen after a failure, if there is something, and searches and reads otherwise.
    fn round<D: DependencyProvider<NameId = N, SolvableId = S>>(
        &mut self,
        provider: &D,
    ) -> Result<Round, Interrupted<D::Cancel>>
        requires rounds { AreRounds (D.universe provider.now) self.old }
        ensures rounds { OnOk result (AreRounds (D.universe provider.now) self.new) }
        ensures keeps { OnOk result (GoesOn (D.universe provider.now) self.old self.new) }
        ensures round { IfOk result (IsRound (D.universe provider.now) self.old self.new) }
        ensures limits { KeepsRoundLimits (D.universe provider.now) self.old self.new }
        ensures refusal { IfErr result (IsStop (D.may_cancel provider.now) (IsStuck self.new)) }
    {
        match self.read_after_failure(provider)? {
            Progress::Nothing => {
                let round = self.search_and_read(provider)?;
                Ok(round)
            }
            Progress::Fired => Ok(Round::Fired),
            Progress::Read => Ok(Round::Read),
        }
    }

    /// Runs rounds up to the last one, or until one reads solvables.
    fn rounds_until_read<D: DependencyProvider<NameId = N, SolvableId = S>>(
        &mut self,
        provider: &D,
    ) -> Result<Option<Found>, Interrupted<D::Cancel>>
        requires rounds { AreRounds (D.universe provider.now) self.old }
        ensures rounds { OnOk result (AreRounds (D.universe provider.now) self.new) }
        ensures keeps { OnOk result (GoesOn (D.universe provider.now) self.old self.new) }
        ensures found { IfOk result (λ answer. IfSome answer (IsFound (D.universe provider.now) self.new)) }
        ensures read { IfOk result (λ answer. IfNone answer (length (notes_of self.old).read < length (notes_of self.new).read)) }
        ensures fit { IfOk result (λ answer. IfNone answer (length (notes_of self.new).read ≤ (notes_of self.new).variable_limit)) }
        ensures limits { KeepsRoundLimits (D.universe provider.now) self.old self.new }
        ensures refusal { IfErr result (IsStop (D.may_cancel provider.now) (IsStuck self.new)) }
    {
        'rounds: loop {
            match self.round(provider)? {
                Round::Last(found) => return Ok(Some(found)),
                Round::Read => return Ok(None),
                Round::Fired => (),
            }
        }
    }

    /// Runs rounds up to the last one.
    fn all_rounds<D: DependencyProvider<NameId = N, SolvableId = S>>(
        &mut self,
        provider: &D,
    ) -> Result<Found, Interrupted<D::Cancel>>
        requires rounds { AreRounds (D.universe provider.now) self.old }
        ensures rounds { OnOk result (AreRounds (D.universe provider.now) self.new) }
        ensures keeps { OnOk result (GoesOn (D.universe provider.now) self.old self.new) }
        ensures found { IfOk result (IsFound (D.universe provider.now) self.new) }
        ensures limits { KeepsRoundLimits (D.universe provider.now) self.old self.new }
        ensures refusal { IfErr result (IsStop (D.may_cancel provider.now) (IsStuck self.new)) }
    {
        'rounds: loop {
            match self.rounds_until_read(provider)? {
                Some(found) => return Ok(found),
                None => (),
            }
        }
    }

    /// Ends a turn whose soft requirement is refused: undoes everything since the turn began, and makes its variable
    /// false for good. `exempt` is how many solvables were exempt before.
    fn refuse<D: DependencyProvider<NameId = N, SolvableId = S>>(
        &mut self,
        provider: &D,
        variable: Variable,
        exempt: usize,
    ) -> Result<(), Interrupted<D::Cancel>>
        requires rounds { AreRounds (D.universe provider.now) self.old }
        requires assumed { HasAssumed (search_of self.old) variable }
        requires one_turn { length (notes_of self.old).exempt ≤ exempt + 1 }
        ensures rest { OnOk result (AreAtRest (D.universe provider.now) self.new) }
        ensures refused { OnOk result (IsRefusing (D.universe provider.now) variable exempt self.old self.new) }
        ensures limits { KeepsRoundLimits (D.universe provider.now) self.old self.new }
        ensures refusal { IfErr result (IsStop (D.may_cancel provider.now) (IsStuck self.new)) }
    {
        self.encoding.end_turn(provider, exempt)?;
        self.load(provider)?;
        self.search.retract()?;
        self.search.assume(Literal::new(variable, false))?;
        self.follow()?;
        Ok(())
    }

    /// Runs rounds up to the last one. Returns whether the chosen solvables are an answer then.
    fn is_answered<D: DependencyProvider<NameId = N, SolvableId = S>>(
        &mut self,
        provider: &D,
    ) -> Result<bool, Interrupted<D::Cancel>>
        requires rounds { AreRounds (D.universe provider.now) self.old }
        ensures rounds { OnOk result (AreRounds (D.universe provider.now) self.new) }
        ensures keeps { OnOk result (GoesOn (D.universe provider.now) self.old self.new) }
        ensures answer { IfOk result (λ answered. answered ≡ true → IsAnswering (D.universe provider.now) self.new) }
        ensures unanswered { IfOk result (λ answered. answered ≡ false → IsUnanswered self.new) }
        ensures limits { KeepsRoundLimits (D.universe provider.now) self.old self.new }
        ensures refusal { IfErr result (IsStop (D.may_cancel provider.now) (IsStuck self.new)) }
    {
        match self.all_rounds(provider)? {
            Found::Answer => Ok(true),
            Found::Contradiction(_) => Ok(false),
            Found::Refused => Ok(false),
        }
    }

    /// Tries a solvable without a value: assumes it, and keeps it if the chosen solvables are an answer then. Returns
    /// whether it is kept.
    fn attempt<D: DependencyProvider<NameId = N, SolvableId = S>>(
        &mut self,
        provider: &D,
        solvable: S,
        variable: Variable,
    ) -> Result<bool, Interrupted<D::Cancel>>
        requires rest { AreAtRest (D.universe provider.now) self.old }
        requires loaded { IsUpToDate self.old }
        requires stands { slice_get (notes_of self.old).origins variable ≡ Some (SolvableOrigin solvable) }
        requires free { slot_of (trail_of (search_of self.old)) variable ≡ None }
        ensures rest { OnOk result (AreAtRest (D.universe provider.now) self.new) }
        ensures turned { IfOk result (λ chosen.
            Contains (notes_of self.old).seen solvable → TakesTurn (D.universe provider.now) solvable self.old self.new chosen) }
        ensures limits { KeepsRoundLimits (D.universe provider.now) self.old self.new }
        ensures refusal { IfErr result (IsStop (D.may_cancel provider.now) (IsStuck self.new)) }
    {
        let exempt = self.encoding.exempt().len();
        self.encoding.begin_turn(provider, solvable)?;
        self.search.assume(Literal::new(variable, true))?;
        let answered = self.is_answered(provider)?;
        if answered {
            self.search.hold();
            return Ok(true);
        }
        self.refuse(provider, variable, exempt)?;
        Ok(false)
    }

    /// Takes the turn of one solvable, unless it has a value. Returns whether it is chosen now.
    fn turn<D: DependencyProvider<NameId = N, SolvableId = S>>(
        &mut self,
        provider: &D,
        solvable: S,
    ) -> Result<bool, Interrupted<D::Cancel>>
        requires rest { AreAtRest (D.universe provider.now) self.old }
        ensures rest { OnOk result (AreAtRest (D.universe provider.now) self.new) }
        ensures turned { IfOk result (TakesTurn (D.universe provider.now) solvable self.old self.new) }
        ensures limits { KeepsRoundLimits (D.universe provider.now) self.old self.new }
        ensures refusal { IfErr result (IsStop (D.may_cancel provider.now) (IsStuck self.new)) }
    {
        let variable = self.encoding.register(provider, solvable)?;
        self.load(provider)?;
        match self.search.trail().slot(variable) {
            Some(slot) => Ok(slot.value),
            None => {
                let is_chosen = self.attempt(provider, solvable, variable)?;
                Ok(is_chosen)
            }
        }
    }

    /// Reads and searches until the chosen solvables are an answer or there is none. After an answer, the soft
    /// requirements have their turns: those of the iterator, then those of the problem's list.
    pub fn find<D: DependencyProvider<NameId = N, SolvableId = S>, I: Iterator<Item = S> + Drop>(
        &mut self,
        provider: &D,
        problem: &Problem<S, I>,
        soft: Option<I>,
    ) -> Result<Found, Interrupted<D::Cancel>>
        requires can_next { IfSome soft (λ it. I.can_next it) }
        requires ends { IfSome soft (λ it. IsFinite (I.remaining it)) }
        requires fresh { IsFresh self.old }
        requires is_true { IsTrueCache (D.universe provider.now) (cache_of self.old) }
        ensures done { IfOk result
            (IsDoneBy (D.universe provider.now) (root_demands problem.now) (AreItems I.next_gives soft) (list_in problem.now) self.new) }
        ensures table { OnOk result (length (notes_of self.new).table ≡ length (notes_of self.new).kinds) }
        ensures limits { KeepsRoundLimits (D.universe provider.now) self.old self.new }
        ensures refusal { IfErr result (IsStop (D.may_cancel provider.now) (IsStuck self.new)) }
    {
        self.begin(provider, problem)?;
        match self.all_rounds(provider)? {
            Found::Answer => {
                self.search.hold();
                self.soft_turns(provider, soft, problem.listed_soft_requirements())?;
                Ok(Found::Answer)
            }
            Found::Contradiction(core) => Ok(Found::Contradiction(core)),
            Found::Refused => Ok(Found::Refused),
        }
    }
}
