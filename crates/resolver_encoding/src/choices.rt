//! The candidates of a requirement, and the number of candidates up to the end of each version set.

ghost use Rattle.std.specs.Prelude.{◌≡◌, ◌<◌, ◌^◌, [], All, IfErr, IfOk, OnOk};
ghost use Rattle.resolver_clause_store.specs.Caches.{IsTrueCache};
ghost use Rattle.resolver_clause_store.specs.Candidates.{requirement_candidates as candidates_of};
ghost use Rattle.resolver_clause_store.specs.Interruptions.{IsInterruption};

use indexmap::IndexSet;
use resolver_clause_store::{
    Cache, DependencyProvider, Exhausted, Interner, Interrupted, Requirement, VersionSetId,
    requirement_candidates,
};
use std::alloc::Global;
use std::hash::Hash;

/// The candidates of a requirement.
///
/// For each version set of a union, `counts` has the number of candidates up to its end. For a single version set it is
/// empty.
#[derive(Drop)]
pub(crate) struct Choices<S: Drop> {
    pub(crate) candidates: Vec<S>,
    pub(crate) counts: Vec<usize>,
}

impl<S: Drop> Choices<S> {
    /// Returns an empty list of candidates.
    pub(crate) fn none(alloc: Global) -> Self
        ensures none { result.candidates.items ≡ [] }
        ensures small { All (λ n. n < 2 ^ 63) result.counts.items }
    {
        Choices {
            candidates: Vec::new(alloc),
            counts: Vec::new(alloc),
        }
    }
}

/// Appends the candidates that are not listed yet.
fn list_all<S: Copy + Eq + Hash + Drop>(
    listed: &mut IndexSet<S>,
    more: &[S],
) -> Result<(), Exhausted>
    ensures memory { IfErr result (λ e. e ≡ Exhausted.Memory) }
{
    for candidate in more {
        listed.insert(*candidate)?;
    }
    Ok(())
}

/// Lists the candidates of one more version set, and counts all candidates up to their end.
fn count_next<D: DependencyProvider>(
    provider: &D,
    cache: &mut Cache<D::NameId, D::SolvableId>,
    version_set: VersionSetId,
    listed: &mut IndexSet<D::SolvableId>,
    counts: &mut Vec<usize>,
) -> Result<(), Interrupted<D::Cancel>>
    requires is_true { IsTrueCache (D.universe provider.now) cache.old }
    requires small { All (λ n. n < 2 ^ 63) counts.old.items }
    ensures is_true { IsTrueCache (D.universe provider.now) cache.new }
    ensures small { OnOk result (All (λ n. n < 2 ^ 63) counts.new.items) }
    ensures refusal { IfErr result (IsInterruption (D.may_cancel provider.now)) }
{
    cache.fetch_sorted(provider, version_set)?;
    list_all(listed, cache.sorted(version_set))?;
    counts.push(listed.len())?;
    Ok(())
}

/// Lists the candidates of each version set, and returns the number of all candidates up to the end of each.
///
/// Candidates that are listed already are counted, too.
fn counts_behind<D: DependencyProvider>(
    provider: &D,
    cache: &mut Cache<D::NameId, D::SolvableId>,
    version_sets: &[VersionSetId],
    listed: &mut IndexSet<D::SolvableId>,
    alloc: Global,
) -> Result<Vec<usize>, Interrupted<D::Cancel>>
    requires is_true { IsTrueCache (D.universe provider.now) cache.old }
    ensures is_true { IsTrueCache (D.universe provider.now) cache.new }
    ensures small { IfOk result (λ counts. All (λ n. n < 2 ^ 63) counts.items) }
    ensures refusal { IfErr result (IsInterruption (D.may_cancel provider.now)) }
{
    let mut counts = Vec::new(alloc);
    for version_set in version_sets {
        count_next(provider, cache, *version_set, listed, &mut counts)?;
    }
    Ok(counts)
}

/// Returns, for each version set, the number of candidates up to its end, without repeats.
fn counts_of<D: DependencyProvider>(
    alloc: Global,
    provider: &D,
    cache: &mut Cache<D::NameId, D::SolvableId>,
    version_sets: &[VersionSetId],
) -> Result<Vec<usize>, Interrupted<D::Cancel>>
    requires is_true { IsTrueCache (D.universe provider.now) cache.old }
    ensures is_true { IsTrueCache (D.universe provider.now) cache.new }
    ensures small { IfOk result (λ counts. All (λ n. n < 2 ^ 63) counts.items) }
    ensures refusal { IfErr result (IsInterruption (D.may_cancel provider.now)) }
{
    let mut listed = IndexSet::new(alloc);
    let counts = counts_behind(provider, cache, version_sets, &mut listed, alloc);
    drop(listed);
    counts
}

/// Returns the candidates of a requirement.
pub(crate) fn choices_of<D: DependencyProvider>(
    alloc: Global,
    provider: &D,
    cache: &mut Cache<D::NameId, D::SolvableId>,
    requirement: Requirement,
) -> Result<Choices<D::SolvableId>, Interrupted<D::Cancel>>
    requires is_true { IsTrueCache (D.universe provider.now) cache.old }
    ensures is_true { IsTrueCache (D.universe provider.now) cache.new }
    ensures candidates { IfOk result (λ choices. choices.candidates.items ≡ candidates_of (D.universe provider.now) requirement) }
    ensures small { IfOk result (λ choices. All (λ n. n < 2 ^ 63) choices.counts.items) }
    ensures refusal { IfErr result (IsInterruption (D.may_cancel provider.now)) }
{
    let candidates = requirement_candidates(cache, provider, requirement)?;
    match requirement {
        Requirement::Single(_) => Ok(Choices {
            candidates,
            counts: Vec::new(alloc),
        }),
        Requirement::Union(union) => {
            let counts = counts_of(
                alloc,
                provider,
                cache,
                provider.version_sets_in_union(union),
            )?;
            Ok(Choices { candidates, counts })
        }
    }
}

/// Returns the places in a clause that come after `start` literals and each of these counts of candidates.
pub(crate) fn places_behind(
    alloc: Global,
    start: usize,
    counts: &[usize],
) -> Result<Vec<usize>, Exhausted>
    requires start { start < 2 ^ 63 }
    requires small { All (λ n. n < 2 ^ 63) counts.now }
    ensures memory { IfErr result (λ e. e ≡ Exhausted.Memory) }
{
    let mut places = Vec::new(alloc);
    for count in counts {
        places.push(start + *count)?;
    }
    Ok(places)
}
