//! The solver.

ghost use Rattle.std.specs.Prelude.{[], All, IfErr, IfOk, IfSome, Ok, OnErr, OnOk, length, ◌<◌, ◌^◌, ◌≡◌};
ghost use Rattle.resolver_clause_store.specs.Caches.{IsTrueCache};
ghost use Rattle.resolver_clause_store.specs.Interruptions.{IsInterruption};
ghost use Rattle.resolver_encoding.specs.Notes.{KeepsTrue, cache_in, notes_in};
ghost use Rattle.resolver_encoding.specs.Refusals.{IsStop};
ghost use Rattle.resolvo.specs.Answers.{AnswersFound, IsAnswerTo};
ghost use Rattle.resolvo.specs.Conflicts.{rules_in};
ghost use Rattle.resolvo.specs.Explanations.{ExplainsCore};
ghost use Rattle.resolvo.specs.declared.rounds.Found.TheVariants.{Answer as FoundAnswer};
ghost use Rattle.resolvo.specs.Problems.{root_demands, soft_in};
ghost use Rattle.std.specs.Iterator.{IsFinite};
ghost use Rattle.resolvo.specs.declared.solver.UnsolvableOrCancelled.TheVariants.{Exhausted as ExhaustedError};
ghost use Rattle.resolver_clause_store.specs.declared.Exhausted.TheVariants.{Memory};
ghost use Rattle.resolvo.specs.Refusals.{IsRefusal, RefusesCore, RefusesFound};
ghost use Rattle.resolvo.specs.RoundStates.{IsSomeDone, IsStuck, chosen_of, notes_of};
ghost use Rattle.resolvo.specs.Solvers.{HasActivity, HasLimits, IsAtLimit, IsSameSolver, IsSound, KeepsActivity, KeepsSolverLimits};
ghost use Rattle.resolvo.specs.Solvers.{clause_count_in, deferred_count_in, exempt_in, provider_in, rounds_in};

use crate::conflict::Conflict;
use crate::problem::Problem;
use crate::rounds::{Found, Rounds};
use resolver_clause_store::{
    Activity, Cache, DependencyProvider, Exhausted, Interner, Interrupted,
};
use resolver_encoding::Encoding;
use resolver_report::keep_reached;
use std::alloc::Global;
use std::mem::replace;

/// Why there is no answer.
#[derive(Drop)]
pub enum UnsolvableOrCancelled<D: DependencyProvider> {
    /// There is no answer, because no set of solvables obeys these rules.
    Unsolvable(Conflict<D::NameId, D::SolvableId>),
    /// The provider stopped the search with this value.
    Cancelled(D::Cancel),
    /// Memory or ids ran out.
    Exhausted(Exhausted),
}

/// Returns the conflict of an unsatisfiable core: its rules that are about what they reach, trimmed.
fn explain<D: DependencyProvider>(
    alloc: Global,
    provider: &D,
    encoding: &mut Encoding<D::NameId, D::SolvableId>,
    core: &[usize],
) -> Result<Conflict<D::NameId, D::SolvableId>, Interrupted<D::Cancel>>
    requires is_true { IsTrueCache (D.universe provider.now) (cache_in encoding.old) }
    requires within { All (λ n. n < length (notes_in encoding.old).kinds) core.now }
    ensures limits { KeepsTrue (D.universe provider.now) encoding.old encoding.new }
    ensures same { notes_in encoding.new ≡ notes_in encoding.old }
    ensures explained { IfOk result
        (λ conflict. ExplainsCore (D.universe provider.now) (notes_in encoding.old).kinds core.now (rules_in conflict)) }
    ensures refusal { IfErr result (IsInterruption (D.may_cancel provider.now)) }
{
    let stated = encoding.stated_rules(provider, core)?;
    let rules = keep_reached(alloc, stated)?;
    let whole = Conflict { rules };
    let conflict = whole.trimmed()?;
    Ok(conflict)
}

/// Solves problems over one provider.
///
/// However a call of `solve` ends, the next one starts afresh. It keeps only the limits, the parameters of the scores,
/// and the provider's answers, which are true. The state in which a search ended stays until the next one.
#[derive(Drop)]
pub struct Solver<D: DependencyProvider> {
    alloc: Global,
    provider: D,
    rounds: Rounds<D::NameId, D::SolvableId>,
    exempt: Vec<D::SolvableId>,
    variable_limit: usize,
    clause_limit: usize,
    learnt_limit: usize,
    activity: Activity,
}

impl<D: DependencyProvider> Solver<D> {
    /// Returns a solver that has not asked its provider anything, with room for 2,147,483,648 variables, as many
    /// clauses and as many learnt clauses.
    pub fn new(alloc: Global, provider: D) -> Self
        ensures provider { provider_in result ≡ provider }
        ensures no_clauses { clause_count_in result ≡ 0 }
        ensures none_deferred { deferred_count_in result ≡ 0 }
        ensures none_exempt { exempt_in result ≡ [] }
        ensures limits { HasLimits (2 ^ 31) result }
        ensures activity { HasActivity 1000000 950000 result }
        ensures sound { IsSound (D.universe (provider_in result)) result }
    {
        Solver {
            alloc,
            provider,
            rounds: Rounds::new(
                alloc,
                Cache::new(alloc),
                1 << 31,
                1 << 31,
                1 << 31,
                Activity::standard(),
            ),
            exempt: Vec::new(alloc),
            variable_limit: 1 << 31,
            clause_limit: 1 << 31,
            learnt_limit: 1 << 31,
            activity: Activity::standard(),
        }
    }

    /// Sets the parameters of the scores: `add` is added to a package's score for each of its solvables in a learnt
    /// clause, and `decay` is the number of millionths of each score that are left after that clause. The defaults are
    /// 1,000,000 and 950,000.
    ///
    /// Requirements of packages with high scores are decided early. Scores start at 0 in each call of `solve`.
    pub fn with_activity_params(mut self, add: u64, decay: u64) -> Self
        ensures activity { HasActivity add decay result }
        ensures provider { provider_in result ≡ provider_in self }
        ensures sound { IsSound (D.universe (provider_in self)) self → IsSound (D.universe (provider_in result)) result }
        ensures limits { KeepsSolverLimits self result }
        ensures rounds { rounds_in result ≡ rounds_in self }
        ensures exempt { exempt_in result ≡ exempt_in self }
    {
        self.activity = Activity { add, decay };
        self
    }

    /// Returns the provider that the solver was made with.
    pub fn provider(&self) -> &D
        ensures { result.now ≡ provider_in self.now }
    {
        &self.provider
    }

    /// Returns the exempt solvables of the last answer, in the order in which they were accepted. Before the first call
    /// of `solve`, and after a call without an answer, there are none.
    pub fn exempt_solvables(&self) -> &[D::SolvableId]
        ensures { result.now ≡ exempt_in self.now }
    {
        &self.exempt
    }

    /// Returns the number of clauses when the last call of `solve` ended: those of the root and of the solvables that
    /// were read, and the learnt ones. It is 0 before the first call.
    pub fn clause_count(&self) -> usize
        ensures { result ≡ clause_count_in self.now }
    {
        self.rounds.clause_count()
    }

    /// Returns the number of disjuncts that were still deferred when the last call of `solve` ended: no clause was made
    /// for what they require. It is 0 before the first call.
    pub fn deferred_requirements_count(&self) -> usize
        ensures { result ≡ deferred_count_in self.now }
    {
        self.rounds.encoding.deferred_count()
    }

    /// Turns an unsatisfiable core into a conflict.
    fn refuse(&mut self, core: &[usize]) -> UnsolvableOrCancelled<D>
        requires sound { IsSound (D.universe (provider_in self.old)) self.old }
        requires within { All (λ n. n < length (notes_of (rounds_in self.old)).kinds) core.now }
        ensures sound { IsSound (D.universe (provider_in self.new)) self.new }
        ensures keeps { IsSameSolver self.old self.new }
        ensures exempt { exempt_in self.new ≡ exempt_in self.old }
        ensures refusal { RefusesCore
            (D.universe (provider_in self.old)) (D.may_cancel (provider_in self.old)) (notes_of (rounds_in self.old)) core.now result }
    {
        let encoding = &mut self.rounds.encoding;
        match explain(self.alloc, &self.provider, encoding, core) {
            Err(Interrupted::Cancelled(value)) => UnsolvableOrCancelled::Cancelled(value),
            Err(Interrupted::Exhausted(e)) => UnsolvableOrCancelled::Exhausted(e),
            Ok(conflict) => UnsolvableOrCancelled::Unsolvable(conflict),
        }
    }

    /// Returns the chosen solvables as the answer, and keeps the exempt ones.
    fn accept(&mut self) -> Result<Vec<D::SolvableId>, UnsolvableOrCancelled<D>>
        requires sound { IsSound (D.universe (provider_in self.old)) self.old }
        requires none { exempt_in self.old ≡ [] }
        ensures sound { IsSound (D.universe (provider_in self.new)) self.new }
        ensures keeps { IsSameSolver self.old self.new }
        ensures chosen { IfOk result (λ chosen. chosen.items ≡ chosen_of (rounds_in self.old)) }
        ensures exempt { OnOk result (exempt_in self.new ≡ (notes_of (rounds_in self.old)).exempt) }
        ensures none { OnErr result (exempt_in self.new ≡ []) }
        ensures memory { IfErr result (λ e. e ≡ ExhaustedError Memory) }
    {
        match self.rounds.chosen.to_vec(self.alloc) {
            Err(e) => Err(UnsolvableOrCancelled::Exhausted(e)),
            Ok(chosen) => match Vec::from_slice(self.alloc, self.rounds.encoding.exempt()) {
                Err(_) => Err(UnsolvableOrCancelled::Exhausted(Exhausted::Memory)),
                Ok(exempt) => {
                    self.exempt = exempt;
                    Ok(chosen)
                }
            },
        }
    }

    /// Turns the result of the rounds into the result of `solve`.
    fn outcome(
        &mut self,
        found: Result<Found, Interrupted<D::Cancel>>,
    ) -> Result<Vec<D::SolvableId>, UnsolvableOrCancelled<D>>
        requires sound { IsSound (D.universe (provider_in self.old)) self.old }
        requires none { exempt_in self.old ≡ [] }
        requires done { IfOk found (IsSomeDone (D.universe (provider_in self.old)) (rounds_in self.old)) }
        requires table { OnOk found (length (notes_of (rounds_in self.old)).table ≡ length (notes_of (rounds_in self.old)).kinds) }
        requires stop { IfErr found (IsStop (D.may_cancel (provider_in self.old)) (IsStuck (rounds_in self.old))) }
        ensures sound { IsSound (D.universe (provider_in self.new)) self.new }
        ensures keeps { IsSameSolver self.old self.new }
        ensures none { OnErr result (exempt_in self.new ≡ []) }
        ensures found { OnOk result (found ≡ Ok FoundAnswer) }
        ensures answer { IfOk result (λ chosen.
            AnswersFound (D.universe (provider_in self.old)) (rounds_in self.old) found chosen.items (exempt_in self.new)) }
        ensures refusal { IfErr result
            (RefusesFound (D.universe (provider_in self.old)) (D.may_cancel (provider_in self.old)) (rounds_in self.old) found) }
    {
        match found {
            Err(Interrupted::Cancelled(value)) => Err(UnsolvableOrCancelled::Cancelled(value)),
            Err(Interrupted::Exhausted(e)) => Err(UnsolvableOrCancelled::Exhausted(e)),
            Ok(Found::Answer) => self.accept(),
            Ok(Found::Contradiction(core)) => Err(self.refuse(&core)),
            Ok(Found::Refused) => Err(self.refuse(&[])),
        }
    }

    /// Finds an answer to the problem, or says why there is none. The chosen solvables are in the order in which they
    /// were chosen.
    ///
    /// A solvable is read once a search has chosen it, and a conditional requirement once its condition holds. The soft
    /// requirements have their turns in order, those of the list last, and each builds on what was chosen before it. A
    /// solvable whose package has not been asked by its turn is exempt from the lock and the exclusions of that
    /// package; a candidate of a version set never is. A soft requirement is refused only if it fits into no answer
    /// that keeps what was chosen before it.
    pub fn solve<S: Iterator<Item = D::SolvableId> + Drop>(
        &mut self,
        mut problem: Problem<D::SolvableId, S>,
    ) -> Result<Vec<D::SolvableId>, UnsolvableOrCancelled<D>>
        requires sound { IsSound (D.universe (provider_in self.old)) self.old }
        requires can_next { IfSome (soft_in problem) (λ it. S.can_next it) }
        requires ends { IfSome (soft_in problem) (λ it. IsFinite (S.remaining it)) }
        ensures sound { IsSound (D.universe (provider_in self.new)) self.new }
        ensures provider { provider_in self.new ≡ provider_in self.old }
        ensures limits { KeepsSolverLimits self.old self.new }
        ensures activity { KeepsActivity self.old self.new }
        ensures answer { IfOk result (λ chosen.
            IsAnswerTo (D.universe (provider_in self.old)) S.next_gives problem chosen.items (exempt_in self.new)) }
        ensures none { OnErr result (exempt_in self.new ≡ []) }
        ensures refusal { IfErr result
            (IsRefusal (D.universe (provider_in self.old)) (D.may_cancel (provider_in self.old)) (root_demands problem) (IsAtLimit self.new)) }
    {
        self.exempt = Vec::new(self.alloc);
        let empty = Cache::new(self.alloc);
        let unread = Encoding::new(self.alloc, empty, self.variable_limit, self.clause_limit);
        let rounds = Rounds::new(
            self.alloc,
            replace(&mut self.rounds.encoding, unread).into_cache(),
            self.variable_limit,
            self.clause_limit,
            self.learnt_limit,
            self.activity,
        );
        drop(replace(&mut self.rounds, rounds));
        let soft = problem.soft_requirements.take();
        let found = self.rounds.find(&self.provider, &problem, soft);
        let answer = self.outcome(found);
        answer
    }
}

#[cfg(test)]
mod tests;
