//! The rules that clauses state.

ghost use Rattle.std.specs.Prelude.{All, IfErr, IfOk, OnOk, [], length, map, ◌<◌, ◌≡◌};
ghost use Rattle.resolver_clause_store.specs.Caches.{IsTrueCache};
ghost use Rattle.resolver_clause_store.specs.Candidates.{matching};
ghost use Rattle.resolver_clause_store.specs.Interruptions.{IsInterruption};
ghost use Rattle.resolver_clause_store.specs.Laws.{IsIdentity};
ghost use Rattle.resolver_clause_store.specs.Universe.{Universe};
ghost use Rattle.resolver_clause_store.specs.declared.By.TheVariants.{Solvable as BySolvable};
ghost use Rattle.resolver_clause_store.specs.declared.ClauseKind.TheVariants.{Constrains as ConstrainsKind};
ghost use Rattle.resolver_encoding.specs.Core.{ListsOnlyRulesOf, ListsRulesOf};
ghost use Rattle.resolver_encoding.specs.Listing.{AddsRequirement, AddsRules, HasInstances, ListsBit, SomeOf, States};
ghost use Rattle.resolver_clause_store.specs.Statements.{constrains, requires};
ghost use Rattle.resolver_encoding.specs.Values.{kinds_at};

use crate::groups::Groups;
use crate::listing::Listing;
use crate::sources::sources_of;
use resolver_clause_store::{
    By, Cache, ClauseKind, DependencyProvider, Exhausted, Helper, Interrupted, Requirement, Rule,
    VersionSetId, requirement_candidates,
};
use std::alloc::Global;
use std::hash::Hash;

/// Returns the solvables that match each of the version sets.
fn matching_lists<D: DependencyProvider>(
    alloc: Global,
    provider: &D,
    cache: &mut Cache<D::NameId, D::SolvableId>,
    version_sets: &[VersionSetId],
) -> Result<Vec<Vec<D::SolvableId>>, Interrupted<D::Cancel>>
    requires is_true { IsTrueCache (D.universe provider.now) cache.old }
    ensures is_true { IsTrueCache (D.universe provider.now) cache.new }
    ensures are { IfOk result (λ lists. map (λ list. list.items) lists.items ≡ map (matching (D.universe provider.now)) version_sets.now) }
    ensures refusal { IfErr result (IsInterruption (D.may_cancel provider.now)) }
{
    let mut lists = Vec::new(alloc);
    for version_set in version_sets {
        cache.fetch_matching(provider, *version_set)?;
        lists.push(Vec::from_slice(alloc, cache.matching(*version_set))?)?;
    }
    Ok(lists)
}

/// Adds a requirement for each of its requirers.
fn require_each<N: Copy + Eq + Hash + Drop, S: Copy + Eq + Hash + Drop>(
    listing: &mut Listing<N, S>,
    requirers: &[S],
    requirement: Requirement,
    candidates: &[S],
) -> Result<(), Exhausted>
    requires { HasInstances listing.old }
    ensures added { OnOk result (AddsRules
        (SomeOf requirers.now (λ s st. st ≡ requires (BySolvable s) requirement candidates.now [])) listing.old listing.new) }
    ensures memory { IfErr result (λ e. e ≡ Exhausted.Memory) }
{
    let alloc = listing.allocator();
    for requirer in requirers {
        let list = Vec::from_slice(alloc, candidates)?;
        listing.require(By::Solvable(*requirer), requirement, list, Vec::new(alloc))?;
    }
    Ok(())
}

/// Adds the requirement that a clause states, with the lists of its condition; that of a gate, for each solvable that
/// implies the gate.
fn add_requirement<N: Copy + Eq + Hash + Drop, S: Copy + Eq + Hash + Drop>(
    sources: &Groups<Helper<N>, S>,
    listing: &mut Listing<N, S>,
    parent: Option<By<S>>,
    requirement: Requirement,
    candidates: Vec<S>,
    when: Vec<Vec<S>>,
) -> Result<(), Exhausted>
    requires names { IsIdentity N.eq }
    requires instances { HasInstances listing.old }
    ensures added { OnOk result (AddsRequirement sources.now parent requirement candidates.items (map (λ list. list.items) when.items)
        listing.old listing.new) }
    ensures memory { IfErr result (λ e. e ≡ Exhausted.Memory) }
{
    match parent {
        Some(by) => {
            listing.require(by, requirement, candidates, when)?;
            Ok(())
        }
        None => {
            let requirers = sources.named(Helper::Gate(requirement));
            require_each(listing, requirers, requirement, &candidates)?;
            Ok(())
        }
    }
}

/// Adds a constraint for each of the candidates that it excludes.
fn constrain_each<N: Copy + Eq + Hash + Drop, S: Copy + Eq + Hash + Drop>(
    listing: &mut Listing<N, S>,
    by: By<S>,
    version_set: VersionSetId,
    candidates: &[S],
) -> Result<(), Exhausted>
    requires { HasInstances listing.old }
    ensures added { OnOk result (AddsRules (SomeOf candidates.now (λ s st. st ≡ constrains by version_set s)) listing.old listing.new) }
    ensures memory { IfErr result (λ e. e ≡ Exhausted.Memory) }
{
    for candidate in candidates {
        listing.constrain(by, version_set, *candidate)?;
    }
    Ok(())
}

/// Adds the constraint that a clause states; that of a helper, for each candidate that implies the helper.
fn add_constraint<N: Copy + Eq + Hash + Drop, S: Copy + Eq + Hash + Drop>(
    sources: &Groups<Helper<N>, S>,
    listing: &mut Listing<N, S>,
    by: By<S>,
    version_set: VersionSetId,
    candidate: Option<S>,
) -> Result<(), Exhausted>
    requires names { IsIdentity N.eq }
    requires instances { HasInstances listing.old }
    ensures added { OnOk result ((u : Universe N S) → AddsRules (States u sources.now (ConstrainsKind by version_set candidate)) listing.old listing.new) }
    ensures memory { IfErr result (λ e. e ≡ Exhausted.Memory) }
{
    match candidate {
        Some(candidate) => {
            listing.constrain(by, version_set, candidate)?;
            Ok(())
        }
        None => {
            let excluded = sources.named(Helper::Constraint(version_set));
            constrain_each(listing, by, version_set, excluded)?;
            Ok(())
        }
    }
}

/// Adds the instance of a package that implies a helper, if that is a bit of the package's codes.
fn list_bit<N: Copy + Eq + Hash + Drop, S: Copy + Eq + Hash + Drop>(
    listing: &mut Listing<N, S>,
    helper: &Helper<N>,
    candidate: S,
) -> Result<(), Exhausted>
    requires names { IsIdentity N.eq }
    requires solvables { IsIdentity S.eq }
    requires instances { HasInstances listing.old }
    ensures added { OnOk result (AddsRules (ListsBit helper.now candidate) listing.old listing.new) }
    ensures memory { IfErr result (λ e. e ≡ Exhausted.Memory) }
{
    match helper {
        Helper::Bit { name, .. } => {
            listing.list_instance(*name, candidate)?;
            Ok(())
        }
        _ => Ok(()),
    }
}

/// Adds the rules that a clause states.
fn add_stated<D: DependencyProvider>(
    provider: &D,
    cache: &mut Cache<D::NameId, D::SolvableId>,
    sources: &Groups<Helper<D::NameId>, D::SolvableId>,
    listing: &mut Listing<D::NameId, D::SolvableId>,
    kind: &ClauseKind<D::NameId, D::SolvableId>,
) -> Result<(), Interrupted<D::Cancel>>
    requires is_true { IsTrueCache (D.universe provider.now) cache.old }
    requires instances { HasInstances listing.old }
    ensures is_true { IsTrueCache (D.universe provider.now) cache.new }
    ensures added { OnOk result (AddsRules (States (D.universe provider.now) sources.now kind.now) listing.old listing.new) }
    ensures refusal { IfErr result (IsInterruption (D.may_cancel provider.now)) }
{
    match kind {
        ClauseKind::InstallRoot => Ok(()),
        ClauseKind::Requires {
            parent,
            disjunct,
            requirement,
        } => {
            let candidates = requirement_candidates(cache, provider, *requirement)?;
            let when = matching_lists(listing.allocator(), provider, cache, disjunct)?;
            add_requirement(sources, listing, *parent, *requirement, candidates, when)?;
            Ok(())
        }
        ClauseKind::Implies {
            candidate,
            helper,
            ..
        } => {
            list_bit(listing, helper, *candidate)?;
            Ok(())
        }
        ClauseKind::Constrains {
            parent,
            version_set,
            candidate,
        } => {
            add_constraint(sources, listing, *parent, *version_set, *candidate)?;
            Ok(())
        }
        ClauseKind::Lock { locked, forbidden } => {
            listing.lock(*locked, *forbidden)?;
            Ok(())
        }
        ClauseKind::Excluded { solvable, reason } => {
            listing.exclude(*solvable, *reason)?;
            Ok(())
        }
    }
}

/// Returns the rules that the clauses with these numbers state, in the order of the numbers.
///
/// No rule names a helper: the rule of a gate or of a constraint helper is stated for each solvable that implies it by
/// these clauses. An instance is listed once for its package.
pub fn rules_of_clauses<D: DependencyProvider>(
    alloc: Global,
    provider: &D,
    cache: &mut Cache<D::NameId, D::SolvableId>,
    kinds: &[ClauseKind<D::NameId, D::SolvableId>],
    numbers: &[usize],
) -> Result<Vec<Rule<D::NameId, D::SolvableId>>, Interrupted<D::Cancel>>
    requires is_true { IsTrueCache (D.universe provider.now) cache.old }
    requires within { All (λ n. n < length kinds.now) numbers.now }
    ensures is_true { IsTrueCache (D.universe provider.now) cache.new }
    ensures listed { IfOk result
        (λ rules. ListsRulesOf (D.universe provider.now) D.NameId.eq (kinds_at kinds.now numbers.now) rules.items) }
    ensures stated { IfOk result
        (λ rules. ListsOnlyRulesOf (D.universe provider.now) D.NameId.eq (kinds_at kinds.now numbers.now) rules.items) }
    ensures refusal { IfErr result (IsInterruption (D.may_cancel provider.now)) }
{
    let sources = sources_of(alloc, kinds, numbers)?;
    let mut listing = Listing::new(alloc);
    for number in numbers {
        add_stated(provider, cache, &sources, &mut listing, &kinds[*number])?;
    }
    Ok(listing.into_rules())
}
