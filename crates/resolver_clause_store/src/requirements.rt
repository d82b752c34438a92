//! The candidates of a requirement.

ghost use Rattle.std.specs.Prelude.{◌≡◌, IfErr, IfOk, OnOk};
ghost use Rattle.indexmap.specs.IndexSet.{insert_all};
ghost use Rattle.resolver_clause_store.specs.Caches.{IsTrueCache, KeepsAnswers};
ghost use Rattle.resolver_clause_store.specs.Candidates.{requirement_candidates as candidates_of};
ghost use Rattle.resolver_clause_store.specs.Interruptions.{IsInterruption};
ghost use Rattle.resolver_clause_store.specs.declared.data.Requirement.TheVariants.{Union};

use crate::cache::Cache;
use crate::data::{Exhausted, Interrupted, Requirement};
use crate::ids::VersionSetUnionId;
use crate::provider::{DependencyProvider, Interner};
use indexmap::IndexSet;
use std::hash::Hash;

/// Returns the candidates of a requirement, in the order in which they are to be tried.
///
/// A candidate of several version sets of a union keeps its first place.
pub fn requirement_candidates<D: DependencyProvider>(
    cache: &mut Cache<D::NameId, D::SolvableId>,
    provider: &D,
    requirement: Requirement,
) -> Result<Vec<D::SolvableId>, Interrupted<D::Cancel>>
    requires { IsTrueCache (D.universe provider.now) cache.old }
    ensures is_true { IsTrueCache (D.universe provider.now) cache.new }
    ensures keeps { KeepsAnswers cache.old cache.new }
    ensures value { IfOk result (λ candidates. candidates.items ≡ candidates_of (D.universe provider.now) requirement) }
    ensures refusal { IfErr result (IsInterruption (D.may_cancel provider.now)) }
{
    match requirement {
        Requirement::Single(version_set) => {
            cache.fetch_sorted(provider, version_set)?;
            Ok(Vec::from_slice(cache.allocator(), cache.sorted(version_set))?)
        }
        Requirement::Union(version_set_union) => {
            let candidates = union_candidates(cache, provider, version_set_union)?;
            Ok(candidates)
        }
    }
}

/// Returns the candidates of the version sets of a union, in order and without repeats.
fn union_candidates<D: DependencyProvider>(
    cache: &mut Cache<D::NameId, D::SolvableId>,
    provider: &D,
    version_set_union: VersionSetUnionId,
) -> Result<Vec<D::SolvableId>, Interrupted<D::Cancel>>
    requires { IsTrueCache (D.universe provider.now) cache.old }
    ensures is_true { IsTrueCache (D.universe provider.now) cache.new }
    ensures keeps { KeepsAnswers cache.old cache.new }
    ensures value { IfOk result (λ candidates. candidates.items ≡ candidates_of (D.universe provider.now) (Union version_set_union)) }
    ensures refusal { IfErr result (IsInterruption (D.may_cancel provider.now)) }
{
    let mut candidates = IndexSet::new(cache.allocator());
    for version_set in provider.version_sets_in_union(version_set_union) {
        cache.fetch_sorted(provider, *version_set)?;
        add_all(&mut candidates, cache.sorted(*version_set))?;
    }
    Ok(Vec::from_slice(cache.allocator(), candidates.as_slice())?)
}

/// Appends the candidates that are not there yet.
fn add_all<S: Copy + Eq + Hash + Drop>(
    candidates: &mut IndexSet<S>,
    more: &[S],
) -> Result<(), Exhausted>
    ensures added { OnOk result (candidates.new.keys ≡ insert_all S.eq candidates.old.keys more.now) }
    ensures memory { IfErr result (λ e. e ≡ Exhausted.Memory) }
{
    for candidate in more {
        candidates.insert(*candidate)?;
    }
    Ok(())
}
