//! The calls of a cache to the provider, and its answers.

ghost use Rattle.resolver_clause_store.specs.Caches.{IsTrueCache};
ghost use Rattle.resolve.specs.NotingProvider.{test_universe};

use crate::store_tests::noting_provider::NotingProvider;
use resolver_clause_store::{
    Cache, Dependencies, Interrupted, Requirement, VersionSetId, VersionSetUnionId,
    requirement_candidates,
};
use std::alloc::Global;
use std::cell::Cell;
use std::test::Fail;

fn provider(alloc: Global) -> Result<NotingProvider, Fail> {
    Ok(NotingProvider {
        alloc,
        members: Vec::from_array(
            alloc,
            [VersionSetId(72), VersionSetId(73), VersionSetId(71)],
        )?,
        cancels: Cell::new(false),
        log: Cell::new(0),
    })
}

fn empty_cache(alloc: Global, provider: &NotingProvider) -> Cache<u32, u32>
    ensures { IsTrueCache (test_universe provider.now.members.items) result }
{
    Cache::new(alloc)
}

#[test]
fn candidates_are_asked_for_once(rt: HostRuntime) -> Result<(), Fail> {
    let provider = provider(rt.alloc())?;
    let mut cache = empty_cache(rt.alloc(), &provider);
    cache.fetch_candidates(&provider, 7)?;
    cache.fetch_candidates(&provider, 7)?;
    assert_eq!(rt;
        cache.candidates(7).candidates.as_slice(),
        [71, 72, 73].as_slice()
    );
    assert_eq!(rt; provider.log.get(), 12);
    cache.fetch_candidates(&provider, 700)?;
    assert!(rt; cache.candidates(700).candidates.is_empty());
    assert_eq!(rt; provider.log.get(), 1212);
    Ok(())
}

#[test]
fn dependencies_are_asked_for_once(rt: HostRuntime) -> Result<(), Fail> {
    let provider = provider(rt.alloc())?;
    let mut cache = empty_cache(rt.alloc(), &provider);
    cache.fetch_dependencies(&provider, 73)?;
    cache.fetch_dependencies(&provider, 73)?;
    assert!(rt; matches!(cache.dependencies(73), Dependencies::Unknown(_)));
    assert_eq!(rt; provider.log.get(), 13);
    cache.fetch_dependencies(&provider, 71)?;
    assert!(rt; matches!(cache.dependencies(71), Dependencies::Known(_)));
    assert_eq!(rt; provider.log.get(), 1313);
    Ok(())
}

#[test]
fn version_sets_are_filtered_once(rt: HostRuntime) -> Result<(), Fail> {
    let provider = provider(rt.alloc())?;
    let mut cache = empty_cache(rt.alloc(), &provider);
    let at_most_two = VersionSetId(72);
    cache.fetch_matching(&provider, at_most_two)?;
    cache.fetch_non_matching(&provider, at_most_two)?;
    cache.fetch_matching(&provider, at_most_two)?;
    cache.fetch_non_matching(&provider, at_most_two)?;
    assert_eq!(rt; cache.matching(at_most_two), [71, 72].as_slice());
    assert_eq!(rt; cache.non_matching(at_most_two), [73].as_slice());
    assert_eq!(rt; provider.log.get(), 1244);
    Ok(())
}

#[test]
fn the_favored_one_comes_first(rt: HostRuntime) -> Result<(), Fail> {
    let provider = provider(rt.alloc())?;
    let mut cache = empty_cache(rt.alloc(), &provider);
    cache.fetch_sorted(&provider, VersionSetId(73))?;
    cache.fetch_sorted(&provider, VersionSetId(73))?;
    assert_eq!(rt; cache.sorted(VersionSetId(73)), [71, 73, 72].as_slice());
    assert_eq!(rt; provider.log.get(), 1245);
    Ok(())
}

#[test]
fn a_cancelled_question_can_be_asked_again(rt: HostRuntime) -> Result<(), Fail> {
    let provider = provider(rt.alloc())?;
    let mut cache = empty_cache(rt.alloc(), &provider);
    provider.cancels.set(true);
    let refused = cache.fetch_sorted(&provider, VersionSetId(72));
    assert!(rt; matches!(refused, Err(Interrupted::Cancelled(42))));
    assert_eq!(rt; provider.log.get(), 1);
    cache.fetch_sorted(&provider, VersionSetId(72))?;
    assert_eq!(rt; cache.sorted(VersionSetId(72)), [71, 72].as_slice());
    assert_eq!(rt; provider.log.get(), 11245);
    provider.cancels.set(true);
    let refused = cache.fetch_dependencies(&provider, 71);
    assert!(rt; matches!(refused, Err(Interrupted::Cancelled(42))));
    assert!(rt; !cache.are_dependencies_available_for(&provider, 71));
    assert_eq!(rt; provider.log.get(), 112451);
    Ok(())
}

#[test]
fn a_hint_covers_what_it_names(rt: HostRuntime) -> Result<(), Fail> {
    let provider = provider(rt.alloc())?;
    let mut cache = empty_cache(rt.alloc(), &provider);
    assert!(rt; !cache.are_dependencies_available_for(&provider, 72));
    cache.fetch_candidates(&provider, 7)?;
    assert!(rt; cache.are_dependencies_available_for(&provider, 72));
    assert!(rt; !cache.are_dependencies_available_for(&provider, 71));
    cache.fetch_dependencies(&provider, 71)?;
    assert!(rt; cache.are_dependencies_available_for(&provider, 71));
    Ok(())
}

#[test]
fn a_union_drops_repeats(rt: HostRuntime) -> Result<(), Fail> {
    let provider = provider(rt.alloc())?;
    let mut cache = empty_cache(rt.alloc(), &provider);
    let single = Requirement::Single(VersionSetId(73));
    let candidates = requirement_candidates(&mut cache, &provider, single)?;
    assert_eq!(rt; candidates.as_slice(), [71, 73, 72].as_slice());
    let union = Requirement::Union(VersionSetUnionId(0));
    let candidates = requirement_candidates(&mut cache, &provider, union)?;
    assert_eq!(rt; candidates.as_slice(), [71, 72, 73].as_slice());
    assert_eq!(rt; provider.log.get(), 12454545);
    Ok(())
}
