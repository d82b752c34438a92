//! The turns of soft requirements, after there is an answer without them.

ghost use Rattle.std.specs.Iterator.{Drains, IsFinite};
ghost use Rattle.std.specs.Prelude.{◌++◌, ◌∷◌, [], All, Contains, IfErr, IfOk, IfSome, MatchBool, OnOk, map};
ghost use Rattle.resolver_clause_store.specs.Laws.{IsIdentity};
ghost use Rattle.resolver_clause_store.specs.Lists.{Meets};
ghost use Rattle.resolver_clause_store.specs.declared.SoftRequirement.TheVariants.{Matching, Solvable};
ghost use Rattle.resolver_encoding.specs.Refusals.{IsStop};
ghost use Rattle.resolvo.specs.Problems.{AreItems};

use super::Rounds;
use indexmap::IndexSet;
use resolver_clause_store::{
    DependencyProvider, Interner, Interrupted, Requirement, SoftRequirement, VersionSetId,
    is_among, requirement_candidates,
};
use std::hash::Hash;

/// Returns whether an element of the list is in the set.
fn has_any<T: Eq + Hash>(set: &IndexSet<T>, list: &[T]) -> bool
    requires { IsIdentity T.eq }
    ensures { MatchBool result (Meets list.now set.now.keys) (Meets list.now set.now.keys → ⊥) }
{
    for member in list {
        if is_among(set, member) {
            return true;
        }
    }
    false
}

impl<N: Copy + Eq + Hash + Drop, S: Copy + Eq + Hash + Drop> Rounds<N, S> {
    ghost use Rattle.resolvo.specs.RoundStates.{AreAtRest, AreRounds, HasAsked, IsStuck, KeepsRoundLimits, TakesAll, TakesFirst, TakesTurns};
    ghost use Rattle.resolvo.specs.RoundStates.{chosen_of, notes_of};

    /// Gives candidates of asked packages their turns until one is accepted. Returns whether one is.
    fn take_first<D: DependencyProvider<NameId = N, SolvableId = S>>(
        &mut self,
        provider: &D,
        candidates: &[S],
    ) -> Result<bool, Interrupted<D::Cancel>>
        requires rest { AreAtRest (D.universe provider.now) self.old }
        requires asked { All (λ s. Contains (notes_of self.old).asked ((D.universe provider.now).name s)) candidates.now }
        requires none { Meets candidates.now (chosen_of self.old) → ⊥ }
        ensures rest { OnOk result (AreAtRest (D.universe provider.now) self.new) }
        ensures turned { IfOk result (TakesFirst (D.universe provider.now) candidates.now self.old self.new) }
        ensures limits { KeepsRoundLimits (D.universe provider.now) self.old self.new }
        ensures refusal { IfErr result (IsStop (D.may_cancel provider.now) (IsStuck self.new)) }
    {
        for candidate in candidates {
            if self.turn(provider, *candidate)? {
                return Ok(true);
            }
        }
        Ok(false)
    }

    /// Asks the package of a version set, and loads the clauses of its lock and its exclusions.
    fn ask<D: DependencyProvider<NameId = N, SolvableId = S>>(
        &mut self,
        provider: &D,
        version_set: VersionSetId,
    ) -> Result<(), Interrupted<D::Cancel>>
        requires rest { AreAtRest (D.universe provider.now) self.old }
        ensures rest { OnOk result (AreAtRest (D.universe provider.now) self.new) }
        ensures asked { OnOk result (HasAsked (D.universe provider.now) version_set self.old self.new) }
        ensures limits { KeepsRoundLimits (D.universe provider.now) self.old self.new }
        ensures refusal { IfErr result (IsStop (D.may_cancel provider.now) (IsStuck self.new)) }
    {
        let name = provider.version_set_name(version_set);
        self.encoding.ask(provider, name)?;
        self.load(provider)?;
        Ok(())
    }

    /// Takes the turn of a version set: accepts the first of its candidates that fits, unless a candidate is chosen
    /// already.
    fn version_set_turn<D: DependencyProvider<NameId = N, SolvableId = S>>(
        &mut self,
        provider: &D,
        version_set: VersionSetId,
    ) -> Result<(), Interrupted<D::Cancel>>
        requires rest { AreAtRest (D.universe provider.now) self.old }
        ensures rest { OnOk result (AreAtRest (D.universe provider.now) self.new) }
        ensures between { OnOk result (TakesTurns (D.universe provider.now) (Matching version_set ∷ []) self.old self.new) }
        ensures limits { KeepsRoundLimits (D.universe provider.now) self.old self.new }
        ensures refusal { IfErr result (IsStop (D.may_cancel provider.now) (IsStuck self.new)) }
    {
        let candidates = requirement_candidates(
            &mut self.encoding.cache,
            provider,
            Requirement::Single(version_set),
        )?;
        if has_any(self.chosen.solvables(), &candidates) {
            return Ok(());
        }
        self.ask(provider, version_set)?;
        self.take_first(provider, &candidates)?;
        Ok(())
    }

    /// Takes the turn of one soft requirement.
    fn soft_turn<D: DependencyProvider<NameId = N, SolvableId = S>>(
        &mut self,
        provider: &D,
        requirement: SoftRequirement<S>,
    ) -> Result<(), Interrupted<D::Cancel>>
        requires rest { AreAtRest (D.universe provider.now) self.old }
        ensures rest { OnOk result (AreAtRest (D.universe provider.now) self.new) }
        ensures between { OnOk result (TakesTurns (D.universe provider.now) (requirement ∷ []) self.old self.new) }
        ensures limits { KeepsRoundLimits (D.universe provider.now) self.old self.new }
        ensures refusal { IfErr result (IsStop (D.may_cancel provider.now) (IsStuck self.new)) }
    {
        match requirement {
            SoftRequirement::Solvable(solvable) => {
                self.turn(provider, solvable)?;
                Ok(())
            }
            SoftRequirement::Matching(version_set) => {
                self.version_set_turn(provider, version_set)?;
                Ok(())
            }
        }
    }

    /// Takes the turns of the soft requirements that are solvables, in order.
    fn solvable_turns<
        D: DependencyProvider<NameId = N, SolvableId = S>,
        I: Iterator<Item = S> + Drop,
    >(&mut self, provider: &D, soft: I) -> Result<(), Interrupted<D::Cancel>>
        requires can_next { I.can_next soft }
        requires ends { IsFinite (I.remaining soft) }
        requires rest { AreAtRest (D.universe provider.now) self.old }
        ensures rest { OnOk result (AreAtRest (D.universe provider.now) self.new) }
        ensures between { OnOk result (TakesAll (D.universe provider.now) (Drains I.next_gives soft) (map Solvable) self.old self.new) }
        ensures limits { KeepsRoundLimits (D.universe provider.now) self.old self.new }
        ensures refusal { IfErr result (IsStop (D.may_cancel provider.now) (IsStuck self.new)) }
    {
        for solvable in soft {
            self.soft_turn(provider, SoftRequirement::Solvable(solvable))?;
        }
        Ok(())
    }

    /// Takes the turns of the soft requirements in a list, in order.
    fn list_turns<D: DependencyProvider<NameId = N, SolvableId = S>>(
        &mut self,
        provider: &D,
        list: &[SoftRequirement<S>],
    ) -> Result<(), Interrupted<D::Cancel>>
        requires rest { AreAtRest (D.universe provider.now) self.old }
        ensures rounds { OnOk result (AreRounds (D.universe provider.now) self.new) }
        ensures between { OnOk result (TakesTurns (D.universe provider.now) list.now self.old self.new) }
        ensures limits { KeepsRoundLimits (D.universe provider.now) self.old self.new }
        ensures refusal { IfErr result (IsStop (D.may_cancel provider.now) (IsStuck self.new)) }
    {
        for requirement in list {
            self.soft_turn(provider, *requirement)?;
        }
        Ok(())
    }

    /// Takes the turns of the soft requirements that are solvables, if there are any.
    fn given_turns<D: DependencyProvider<NameId = N, SolvableId = S>, I: Iterator<Item = S> + Drop>(
        &mut self,
        provider: &D,
        soft: Option<I>,
    ) -> Result<(), Interrupted<D::Cancel>>
        requires can_next { IfSome soft (λ it. I.can_next it) }
        requires ends { IfSome soft (λ it. IsFinite (I.remaining it)) }
        requires rest { AreAtRest (D.universe provider.now) self.old }
        ensures rest { OnOk result (AreAtRest (D.universe provider.now) self.new) }
        ensures between { OnOk result (TakesAll (D.universe provider.now) (AreItems I.next_gives soft) (map Solvable) self.old self.new) }
        ensures limits { KeepsRoundLimits (D.universe provider.now) self.old self.new }
        ensures refusal { IfErr result (IsStop (D.may_cancel provider.now) (IsStuck self.new)) }
    {
        match soft {
            Some(soft) => {
                self.solvable_turns(provider, soft)?;
                Ok(())
            }
            None => Ok(()),
        }
    }

    /// Takes the turns of all soft requirements: first the given solvables, then the list.
    pub(super) fn soft_turns<
        D: DependencyProvider<NameId = N, SolvableId = S>,
        I: Iterator<Item = S> + Drop,
    >(
        &mut self,
        provider: &D,
        soft: Option<I>,
        list: &[SoftRequirement<S>],
    ) -> Result<(), Interrupted<D::Cancel>>
        requires can_next { IfSome soft (λ it. I.can_next it) }
        requires ends { IfSome soft (λ it. IsFinite (I.remaining it)) }
        requires rest { AreAtRest (D.universe provider.now) self.old }
        ensures rounds { OnOk result (AreRounds (D.universe provider.now) self.new) }
        ensures between { OnOk result
            (TakesAll (D.universe provider.now) (AreItems I.next_gives soft) (λ items. map Solvable items ++ list.now) self.old self.new) }
        ensures limits { KeepsRoundLimits (D.universe provider.now) self.old self.new }
        ensures refusal { IfErr result (IsStop (D.may_cancel provider.now) (IsStuck self.new)) }
    {
        self.given_turns(provider, soft)?;
        self.list_turns(provider, list)?;
        Ok(())
    }
}
