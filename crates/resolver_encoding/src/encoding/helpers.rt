//! Helpers, and those of the version sets of conditions.

ghost use Rattle.std.specs.Prelude.{◌≡◌, ℕ, All, Bool, Contains, IfErr, OnOk, true, ⊤};
ghost use Rattle.resolver_clause_store.specs.Caches.{IsTrueCache};
ghost use Rattle.resolver_clause_store.specs.declared.ClauseKind.TheVariants.{Implies as ImpliesKind};
ghost use Rattle.resolver_clause_store.specs.declared.Helper.TheVariants.{Bit};
ghost use Rattle.resolver_encoding.specs.Encodings.{IsFull, IsStep};
ghost use Rattle.resolver_encoding.specs.Refusals.{IsShortage, IsStop};
ghost use Rattle.resolver_encoding.specs.Truth.{follows};

use super::Encoding;
use resolver_clause_store::{
    ClauseKind, DependencyProvider, Exhausted, Helper, Interner, Interrupted, VersionSetId, append,
    is_among,
};
use std::hash::Hash;

impl<N: Copy + Eq + Hash + Drop, S: Copy + Eq + Hash + Drop> Encoding<N, S> {
    ghost use Rattle.resolver_encoding.specs.Notes.{KeepsRoom, KeepsTrue, cache_in, notes_in};

    /// Adds the clauses by which each of these candidates implies a helper, other than a bit.
    pub(super) fn imply_each<D: DependencyProvider<NameId = N, SolvableId = S>>(
        &mut self,
        provider: &D,
        helper: Helper<N>,
        candidates: &[S],
    ) -> Result<(), Exhausted>
        requires no_bit { (n : N) (i : ℕ) → helper ≡ Bit n i → ⊥ }
        requires follow { All (λ s. (codes : N → ℕ → S → Bool) → follows (D.universe provider.now) codes helper s ≡ true) candidates.now }
        ensures room { KeepsRoom self.old self.new }
        ensures step { OnOk result (IsStep (D.universe provider.now) (λ root. ⊤) (notes_in self.old) (notes_in self.new)) }
        ensures implied { OnOk result (All (λ s. Contains (notes_in self.new).kinds (ImpliesKind s helper true)) candidates.now) }
        ensures helped { OnOk result ((notes_in self.new).helped ≡ (notes_in self.old).helped) }
        ensures constrained { OnOk result ((notes_in self.new).constrained ≡ (notes_in self.old).constrained) }
        ensures refusal { IfErr result (IsShortage (IsFull (notes_in self.new))) }
    {
        for candidate in candidates {
            self.add(ClauseKind::Implies {
                candidate: *candidate,
                helper,
                value: true,
            })?;
        }
        Ok(())
    }

    /// Makes the condition helper of a version set, if it has none yet.
    fn help<D: DependencyProvider<NameId = N, SolvableId = S>>(
        &mut self,
        provider: &D,
        version_set: VersionSetId,
    ) -> Result<(), Interrupted<D::Cancel>>
        requires is_true { IsTrueCache (D.universe provider.now) (cache_in self.old) }
        ensures room { KeepsTrue (D.universe provider.now) self.old self.new }
        ensures step { OnOk result (IsStep (D.universe provider.now) (λ root. ⊤) (notes_in self.old) (notes_in self.new)) }
        ensures helped { OnOk result (Contains (notes_in self.new).helped version_set) }
        ensures refusal { IfErr result (IsStop (D.may_cancel provider.now) (IsFull (notes_in self.new))) }
    {
        if is_among(&self.helped, &version_set) {
            return Ok(());
        }
        self.cache.fetch_matching(provider, version_set)?;
        let candidates = Vec::from_slice(self.alloc, self.cache.matching(version_set))?;
        let helper = Helper::Condition(version_set);
        self.imply_each(provider, helper, &candidates)?;
        append(&mut self.helped, version_set)?;
        Ok(())
    }

    /// Makes the condition helper of each version set of a disjunct.
    pub(super) fn help_each<D: DependencyProvider<NameId = N, SolvableId = S>>(
        &mut self,
        provider: &D,
        disjunct: &[VersionSetId],
    ) -> Result<(), Interrupted<D::Cancel>>
        requires is_true { IsTrueCache (D.universe provider.now) (cache_in self.old) }
        ensures room { KeepsTrue (D.universe provider.now) self.old self.new }
        ensures step { OnOk result (IsStep (D.universe provider.now) (λ root. ⊤) (notes_in self.old) (notes_in self.new)) }
        ensures helped { OnOk result (All (Contains (notes_in self.new).helped) disjunct.now) }
        ensures refusal { IfErr result (IsStop (D.may_cancel provider.now) (IsFull (notes_in self.new))) }
    {
        for version_set in disjunct {
            self.help(provider, *version_set)?;
        }
        Ok(())
    }
}
