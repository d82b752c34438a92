//! Calls to a provider.

ghost use Rattle.std.specs.Prelude.{◌≡◌, IfErr, IfOk, Some};
ghost use Rattle.resolver_clause_store.specs.Candidates.{sorted_among};
ghost use Rattle.resolver_clause_store.specs.Interruptions.{IsInterruption};
ghost use Rattle.resolver_clause_store.specs.Lists.{moved_to_front};
ghost use Rattle.resolver_clause_store.specs.Universe.{needs_of, package_of};

use crate::data::{Candidates, Dependencies, Exhausted, HintDependenciesAvailable, Interrupted};
use crate::ids::VersionSetId;
use crate::provider::{DependencyProvider, Interner};
use std::alloc::Global;

/// Lets the provider stop the search.
pub fn check_cancel<D: DependencyProvider>(provider: &D) -> Result<(), Interrupted<D::Cancel>>
    ensures { IfErr result (IsInterruption (D.may_cancel provider.now)) }
{
    match provider.should_cancel_with_value() {
        Some(value) => Err(Interrupted::Cancelled(value)),
        None => Ok(()),
    }
}

/// Returns the data of an unknown package, which has no candidates.
fn unknown_package<S>(alloc: Global) -> Candidates<S>
    ensures { package_of (Some result) ≡ package_of None }
{
    Candidates {
        candidates: Vec::new(alloc),
        favored: None,
        locked: None,
        hint_dependencies_available: HintDependenciesAvailable::None,
        excluded: Vec::new(alloc),
    }
}

/// Gets the candidates of a package from the provider.
pub(crate) fn fetch_candidates<D: DependencyProvider>(
    alloc: Global,
    provider: &D,
    name: D::NameId,
) -> Result<Candidates<D::SolvableId>, Interrupted<D::Cancel>>
    ensures value { IfOk result (λ answer. package_of (Some answer) ≡ (D.universe provider.now).package_named name) }
    ensures refusal { IfErr result (IsInterruption (D.may_cancel provider.now)) }
{
    check_cancel(provider)?;
    match provider.get_candidates(name)? {
        Some(package) => Ok(package),
        None => Ok(unknown_package(alloc)),
    }
}

/// Gets the dependencies of a solvable from the provider.
pub(crate) fn fetch_dependencies<D: DependencyProvider>(
    provider: &D,
    solvable: D::SolvableId,
) -> Result<Dependencies, Interrupted<D::Cancel>>
    ensures value { IfOk result (λ answer. needs_of answer ≡ (D.universe provider.now).needs solvable) }
    ensures refusal { IfErr result (IsInterruption (D.may_cancel provider.now)) }
{
    check_cancel(provider)?;
    let answer = provider.get_dependencies(solvable)?;
    Ok(answer)
}

/// Returns the list with `first` in front, if the list has it.
fn with_first<S: Copy + Eq + Drop>(
    alloc: Global,
    list: Vec<S>,
    first: S,
) -> Result<Vec<S>, Exhausted>
    ensures value { IfOk result (λ moved. moved.items ≡ moved_to_front S.eq first list.items) }
    ensures memory { IfErr result (λ e. e ≡ Exhausted.Memory) }
{
    if !list.contains(&first) {
        return Ok(list);
    }
    let mut moved = Vec::new(alloc);
    moved.push(first)?;
    for x in &list {
        if *x != first {
            moved.push(*x)?;
        }
    }
    Ok(moved)
}

/// Returns the listed candidates in a version set, sorted by the provider, with the favored one in front if it is among
/// them.
pub(crate) fn sorted_favored_first<D: DependencyProvider>(
    alloc: Global,
    provider: &D,
    listing: &Candidates<D::SolvableId>,
    version_set: VersionSetId,
) -> Result<Vec<D::SolvableId>, Exhausted>
    ensures value { IfOk result (λ sorted.
        sorted.items ≡ sorted_among (D.universe provider.now) listing.now.candidates.items listing.now.favored version_set) }
    ensures memory { IfErr result (λ e. e ≡ Exhausted.Memory) }
{
    let mut sorted = provider.filter_candidates(&listing.candidates, version_set, false)?;
    provider.sort_candidates(&mut sorted)?;
    sorted.shrink_to_fit();
    match listing.favored {
        None => Ok(sorted),
        Some(first) => with_first(alloc, sorted, first),
    }
}
