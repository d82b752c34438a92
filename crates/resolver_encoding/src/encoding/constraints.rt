//! Clauses of constraints.

ghost use Rattle.std.specs.Prelude.{◌≡◌, All, Contains, IfErr, IfNone, IfSome, MatchBool, OnOk, Some, ⊤};
ghost use Rattle.resolver_clause_store.specs.Caches.{IsTrueCache};
ghost use Rattle.resolver_clause_store.specs.Candidates.{others};
ghost use Rattle.resolver_clause_store.specs.Laws.{IsIdentity};
ghost use Rattle.resolver_clause_store.specs.declared.By.TheVariants.{Solvable as BySolvable};
ghost use Rattle.resolver_clause_store.specs.declared.ClauseKind.TheVariants.{Constrains as ConstrainsKind};
ghost use Rattle.resolver_encoding.specs.Encodings.{HasConstraint, IsConstraintRead, IsEncodingOf, IsFull, IsStep};
ghost use Rattle.resolver_encoding.specs.Refusals.{IsShortage, IsStop};
ghost use Rattle.resolver_encoding.specs.Steps.{IsConstraintStep};

use super::Encoding;
use resolver_clause_store::{
    By, ClauseKind, DependencyProvider, Exhausted, Helper, Interner, Interrupted, VersionSetId,
    append, is_among,
};
use std::hash::Hash;

/// A constraint that forbids at least this many solvables gets a helper.
const CONSTRAINT_HELPER_THRESHOLD: usize = 4;

/// Returns whether a solvable is in a list.
fn is_listed<S: Copy + Eq>(list: &[S], solvable: S) -> bool
    requires { IsIdentity S.eq }
    ensures { MatchBool result (Contains list.now solvable) (Contains list.now solvable → ⊥) }
{
    list.contains(&solvable)
}

/// Returns the solvable that has a constraint, if it is of the package that the constraint is on.
fn own_parent<D: DependencyProvider>(
    provider: &D,
    by: By<D::SolvableId>,
    version_set: VersionSetId,
) -> Option<D::SolvableId>
    ensures is { IfSome result (λ s. by ≡ BySolvable s) }
    ensures none { let u = D.universe provider.now in
        IfNone result ((s : D.SolvableId) → by ≡ BySolvable s → u.name s ≡ u.version_set_name version_set → ⊥) }
{
    match by {
        By::Root => None,
        By::Solvable(parent) => {
            if provider.solvable_name(parent) == provider.version_set_name(version_set) {
                return Some(parent);
            }
            None
        }
    }
}

impl<N: Copy + Eq + Hash + Drop, S: Copy + Eq + Hash + Drop> Encoding<N, S> {
    ghost use Rattle.resolver_encoding.specs.Notes.{KeepsRoom, KeepsTrue, cache_in, notes_in};

    /// Forbids a candidate, or else the constraint helper, together with the requirer of the constraint. If a candidate
    /// is the requirer, it is forbidden alone.
    fn constrain<D: DependencyProvider<NameId = N, SolvableId = S>>(
        &mut self,
        provider: &D,
        by: By<S>,
        version_set: VersionSetId,
        candidate: Option<S>,
    ) -> Result<(), Exhausted>
        requires other { IfSome candidate (Contains (others (D.universe provider.now) version_set)) }
        ensures room { KeepsRoom self.old self.new }
        ensures step { OnOk result (IsStep (D.universe provider.now) (HasConstraint (D.universe provider.now) by version_set) (notes_in self.old)
            (notes_in self.new)) }
        ensures forbidden { OnOk result (Contains (notes_in self.new).kinds (ConstrainsKind by version_set candidate)) }
        ensures refusal { IfErr result (IsShortage (IsFull (notes_in self.new))) }
    {
        self.add(ClauseKind::Constrains {
            parent: by,
            version_set,
            candidate,
        })?;
        Ok(())
    }

    /// Forbids each of these candidates together with the requirer of the constraint.
    fn constrain_each<D: DependencyProvider<NameId = N, SolvableId = S>>(
        &mut self,
        provider: &D,
        by: By<S>,
        version_set: VersionSetId,
        forbidden: &[S],
    ) -> Result<(), Exhausted>
        requires forbidden { forbidden.now ≡ others (D.universe provider.now) version_set }
        ensures room { KeepsRoom self.old self.new }
        ensures step { OnOk result (IsStep (D.universe provider.now) (HasConstraint (D.universe provider.now) by version_set) (notes_in self.old)
            (notes_in self.new)) }
        ensures read { OnOk result (IsConstraintRead (D.universe provider.now) (notes_in self.new).kinds by version_set) }
        ensures refusal { IfErr result (IsShortage (IsFull (notes_in self.new))) }
    {
        for candidate in forbidden {
            self.constrain(provider, by, version_set, Some(*candidate))?;
        }
        Ok(())
    }

    /// Makes the constraint helper of a version set, if it has none yet.
    fn make_helper<D: DependencyProvider<NameId = N, SolvableId = S>>(
        &mut self,
        provider: &D,
        version_set: VersionSetId,
        forbidden: &[S],
    ) -> Result<(), Exhausted>
        requires forbidden { forbidden.now ≡ others (D.universe provider.now) version_set }
        ensures room { KeepsRoom self.old self.new }
        ensures step { OnOk result (IsStep (D.universe provider.now) (λ root. ⊤) (notes_in self.old) (notes_in self.new)) }
        ensures constrained { OnOk result (Contains (notes_in self.new).constrained version_set) }
        ensures refusal { IfErr result (IsShortage (IsFull (notes_in self.new))) }
    {
        if is_among(&self.constrained, &version_set) {
            return Ok(());
        }
        self.imply_each(provider, Helper::Constraint(version_set), forbidden)?;
        append(&mut self.constrained, version_set)?;
        Ok(())
    }

    /// Forbids a solvable that its own constraint excludes.
    fn forbid_itself<D: DependencyProvider<NameId = N, SolvableId = S>>(
        &mut self,
        provider: &D,
        by: By<S>,
        version_set: VersionSetId,
        forbidden: &[S],
    ) -> Result<(), Exhausted>
        requires forbidden { forbidden.now ≡ others (D.universe provider.now) version_set }
        ensures room { KeepsRoom self.old self.new }
        ensures step { OnOk result (IsStep (D.universe provider.now) (HasConstraint (D.universe provider.now) by version_set) (notes_in self.old)
            (notes_in self.new)) }
        ensures itself { OnOk result ((s : S) → by ≡ BySolvable s → Contains forbidden.now s →
            Contains (notes_in self.new).kinds (ConstrainsKind by version_set (Some s))) }
        ensures refusal { IfErr result (IsShortage (IsFull (notes_in self.new))) }
    {
        match own_parent(provider, by, version_set) {
            None => Ok(()),
            Some(parent) => {
                if !is_listed(forbidden, parent) {
                    return Ok(());
                }
                self.constrain(provider, by, version_set, Some(parent))?;
                Ok(())
            }
        }
    }

    /// Forbids the solvables outside a version set by its constraint helper.
    fn constrain_by_helper<D: DependencyProvider<NameId = N, SolvableId = S>>(
        &mut self,
        provider: &D,
        by: By<S>,
        version_set: VersionSetId,
        forbidden: &[S],
    ) -> Result<(), Exhausted>
        requires forbidden { forbidden.now ≡ others (D.universe provider.now) version_set }
        requires encoding { IsEncodingOf (D.universe provider.now) (HasConstraint (D.universe provider.now) by version_set) (notes_in self.old) }
        ensures room { KeepsRoom self.old self.new }
        ensures step { OnOk result (IsStep (D.universe provider.now) (HasConstraint (D.universe provider.now) by version_set) (notes_in self.old)
            (notes_in self.new)) }
        ensures read { OnOk result (IsConstraintRead (D.universe provider.now) (notes_in self.new).kinds by version_set) }
        ensures refusal { IfErr result (IsShortage (IsFull (notes_in self.new))) }
    {
        self.make_helper(provider, version_set, forbidden)?;
        self.constrain(provider, by, version_set, None)?;
        self.forbid_itself(provider, by, version_set, forbidden)?;
        Ok(())
    }

    /// Reads a constraint of the root or of a solvable: asks its package, and forbids the solvables outside its version
    /// set.
    pub(super) fn read_constraint<D: DependencyProvider<NameId = N, SolvableId = S>>(
        &mut self,
        provider: &D,
        by: By<S>,
        version_set: VersionSetId,
    ) -> Result<(), Interrupted<D::Cancel>>
        requires is_true { IsTrueCache (D.universe provider.now) (cache_in self.old) }
        requires encoding { IsEncodingOf (D.universe provider.now) (HasConstraint (D.universe provider.now) by version_set) (notes_in self.old) }
        ensures room { KeepsTrue (D.universe provider.now) self.old self.new }
        ensures step { OnOk result (IsConstraintStep (D.universe provider.now) by version_set (notes_in self.old) (notes_in self.new)) }
        ensures read { OnOk result (IsConstraintRead (D.universe provider.now) (notes_in self.new).kinds by version_set) }
        ensures asked { OnOk result (Contains (notes_in self.new).asked ((D.universe provider.now).version_set_name version_set)) }
        ensures refusal { IfErr result (IsStop (D.may_cancel provider.now) (IsFull (notes_in self.new))) }
    {
        self.ask(provider, provider.version_set_name(version_set))?;
        self.cache.fetch_non_matching(provider, version_set)?;
        let forbidden = Vec::from_slice(self.alloc, self.cache.non_matching(version_set))?;
        if forbidden.len() < CONSTRAINT_HELPER_THRESHOLD {
            self.constrain_each(provider, by, version_set, &forbidden)?;
            return Ok(());
        }
        self.constrain_by_helper(provider, by, version_set, &forbidden)?;
        Ok(())
    }
}
