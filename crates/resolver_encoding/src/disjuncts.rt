//! The disjuncts of a condition: which there are, whether they are met, and the entry of a deferred one.

ghost use Rattle.std.specs.Prelude.{◌≡◌, ◌⊎◌, Contains, IfErr, IfOk, OnOk, map, MatchBool};
ghost use Rattle.resolver_clause_store.specs.Lists.{HaveSameMembers, IsWithin, Meets};
ghost use Rattle.resolver_clause_store.specs.Variables.{AreDistinct};
ghost use Rattle.resolver_clause_store.specs.declared.VersionSetId.{VersionSetId as Id};
ghost use Rattle.resolver_encoding.specs.Encodings.{AreDisjuncts};
ghost use Rattle.resolver_clause_store.specs.Caches.{IsTrueCache};
ghost use Rattle.resolver_clause_store.specs.Candidates.{matching};
ghost use Rattle.resolver_clause_store.specs.Interruptions.{IsInterruption};
ghost use Rattle.resolver_clause_store.specs.Laws.{IsIdentity};
ghost use Rattle.resolver_clause_store.specs.Statements.{AllMeet};
ghost use Rattle.resolver_encoding.specs.Steps.{Tells};

use indexmap::IndexSet;
use resolver_clause_store::{
    By, Cache, ConditionId, DependencyProvider, Exhausted, Interner, Interrupted, Requirement,
    VersionSetId, append, convert_conditions_to_dnf, is_among,
};
use std::alloc::Global;
use std::hash::Hash;

/// A disjunct of a requirement's condition that was not met when the requirement was read.
#[derive(Drop)]
pub(crate) struct Entry<S: Copy + Drop> {
    /// The requirer.
    pub(crate) by: By<S>,
    /// The version sets that all have to be met, without repeats.
    pub(crate) disjunct: Vec<VersionSetId>,
    pub(crate) requirement: Requirement,
}

/// Returns the disjuncts of a condition, of which one has to be met.
///
/// Without a condition there is one empty disjunct, which is always met.
pub(crate) fn disjuncts_of<I: Interner>(
    alloc: Global,
    interner: &I,
    condition: Option<ConditionId>,
) -> Result<Vec<Vec<VersionSetId>>, Exhausted>
    ensures are { IfOk result (λ lists. AreDisjuncts (I.universe interner.now) condition (map (λ list. list.items) lists.items)) }
    ensures memory { IfErr result (λ e. e ≡ Exhausted.Memory) }
{
    match condition {
        None => {
            let mut one = Vec::new(alloc);
            one.push(Vec::new(alloc))?;
            Ok(one)
        }
        Some(condition) => convert_conditions_to_dnf(alloc, interner, condition),
    }
}

/// Appends a version set, unless it is listed.
fn keep(kept: &mut IndexSet<VersionSetId>, version_set: VersionSetId) -> Result<(), Exhausted>
    ensures earlier { OnOk result (IsWithin kept.old.keys kept.new.keys) }
    ensures here { OnOk result (Contains kept.new.keys version_set) }
    ensures only { OnOk result ((v : Id) → Contains kept.new.keys v → Contains kept.old.keys v ⊎ (version_set ≡ v)) }
    ensures once { OnOk result (AreDistinct kept.old.keys → AreDistinct kept.new.keys) }
    ensures memory { IfErr result (λ e. e ≡ Exhausted.Memory) }
{
    if is_among(kept, &version_set) {
        return Ok(());
    }
    append(kept, version_set)?;
    Ok(())
}

/// Returns the version sets of a list without repeats.
pub(crate) fn without_repeats(
    alloc: Global,
    list: &[VersionSetId],
) -> Result<Vec<VersionSetId>, Exhausted>
    ensures same { IfOk result (λ kept. HaveSameMembers kept.items list.now) }
    ensures once { IfOk result (λ kept. AreDistinct kept.items) }
    ensures memory { IfErr result (λ e. e ≡ Exhausted.Memory) }
{
    let mut kept = IndexSet::new(alloc);
    for version_set in list {
        keep(&mut kept, *version_set)?;
    }
    Ok(Vec::from_slice(alloc, kept.as_slice())?)
}

/// Returns whether one of the candidates is chosen.
fn is_any_chosen<S: Copy + Eq + Hash + Drop>(chosen: &IndexSet<S>, candidates: &[S]) -> bool
    requires { IsIdentity S.eq }
    ensures { MatchBool result (Meets candidates.now chosen.now.keys) (Meets candidates.now chosen.now.keys → ⊥) }
{
    for candidate in candidates {
        if is_among(chosen, candidate) {
            return true;
        }
    }
    false
}

/// Returns whether a chosen solvable matches the version set.
fn is_matched<D: DependencyProvider>(
    provider: &D,
    cache: &mut Cache<D::NameId, D::SolvableId>,
    chosen: &IndexSet<D::SolvableId>,
    version_set: VersionSetId,
) -> Result<bool, Interrupted<D::Cancel>>
    requires is_true { IsTrueCache (D.universe provider.now) cache.old }
    ensures is_true { IsTrueCache (D.universe provider.now) cache.new }
    ensures matched { IfOk result (Tells (Meets (matching (D.universe provider.now) version_set) chosen.now.keys)) }
    ensures refusal { IfErr result (IsInterruption (D.may_cancel provider.now)) }
{
    cache.fetch_matching(provider, version_set)?;
    Ok(is_any_chosen(chosen, cache.matching(version_set)))
}

/// Fetches the candidates that match each version set.
fn read_candidates<D: DependencyProvider>(
    provider: &D,
    cache: &mut Cache<D::NameId, D::SolvableId>,
    disjunct: &[VersionSetId],
) -> Result<(), Interrupted<D::Cancel>>
    requires is_true { IsTrueCache (D.universe provider.now) cache.old }
    ensures is_true { IsTrueCache (D.universe provider.now) cache.new }
    ensures refusal { IfErr result (IsInterruption (D.may_cancel provider.now)) }
{
    for version_set in disjunct {
        cache.fetch_matching(provider, *version_set)?;
    }
    Ok(())
}

/// Returns whether each version set of a disjunct is met in the chosen set.
///
/// The candidates of all its version sets are fetched, even if the first one is not met.
pub(crate) fn is_met<D: DependencyProvider>(
    provider: &D,
    cache: &mut Cache<D::NameId, D::SolvableId>,
    chosen: &IndexSet<D::SolvableId>,
    disjunct: &[VersionSetId],
) -> Result<bool, Interrupted<D::Cancel>>
    requires is_true { IsTrueCache (D.universe provider.now) cache.old }
    ensures is_true { IsTrueCache (D.universe provider.now) cache.new }
    ensures met { IfOk result (Tells (AllMeet chosen.now.keys (map (matching (D.universe provider.now)) disjunct.now))) }
    ensures refusal { IfErr result (IsInterruption (D.may_cancel provider.now)) }
{
    read_candidates(provider, cache, disjunct)?;
    for version_set in disjunct {
        if !is_matched(provider, cache, chosen, *version_set)? {
            return Ok(false);
        }
    }
    Ok(true)
}
