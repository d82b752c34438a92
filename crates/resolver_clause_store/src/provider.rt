//! The traits of a provider, and their laws.

ghost use Rattle.std.specs.Prelude.{◌≡◌, IfOk, IfErr, OnOk, IfSome};
ghost use Rattle.resolver_clause_store.specs.Laws.{HasLawfulIds, HasLawfulPackages, IsIdentity};
ghost use Rattle.resolver_clause_store.specs.Texts.{Appends};
ghost use Rattle.resolver_clause_store.specs.Universe.{Universe, filtered_of, needs_of, package_of};

use crate::data::{Candidates, Condition, Dependencies, Exhausted};
use crate::ids::{ConditionId, StringId, VersionSetId, VersionSetUnionId};
use std::hash::Hash;

/// Resolves ids, and writes the texts of what they name. Resolving an id allocates nothing.
///
/// Each `display` method appends to `out`. When it is refused, what `out` held stays, followed by whatever was already
/// written.
pub trait Interner {
    /// The id of a package.
    type NameId: Copy + Eq + Ord + Hash + Drop;

    /// The id of a solvable: one version of a package.
    type SolvableId: Copy + Eq + Ord + Hash + Drop;

    /// The meaning of the ids. For packages and solvables it is up to the provider.
    ghost universe: { Self → Universe Self.NameId Self.SolvableId };

    /// Returns the package of a solvable.
    fn solvable_name(&self, solvable: Self::SolvableId) -> Self::NameId
        ensures { result ≡ (universe self.now).name solvable };

    /// Returns the package of a version set.
    fn version_set_name(&self, version_set: VersionSetId) -> Self::NameId
        ensures { result ≡ (universe self.now).version_set_name version_set };

    /// Returns the version sets of a union, in order.
    fn version_sets_in_union(&self, version_set_union: VersionSetUnionId) -> &[VersionSetId]
        ensures { result.now ≡ (universe self.now).union_members version_set_union };

    /// Resolves a condition by one step: to a version set, or to two conditions.
    fn resolve_condition(&self, condition: ConditionId) -> Condition
        ensures { result ≡ (universe self.now).condition condition };

    /// Writes the name of a package.
    fn display_name(&self, name: Self::NameId, out: &mut String) -> Result<(), Exhausted>
        ensures text { Appends out.old out.new ((universe self.now).name_text name) result }
        ensures memory { IfErr result (λ e. e ≡ Exhausted.Memory) };

    /// Writes the versions in a version set, without the name of the package.
    fn display_version_set(
        &self,
        version_set: VersionSetId,
        out: &mut String,
    ) -> Result<(), Exhausted>
        ensures text { Appends out.old out.new ((universe self.now).version_set_text version_set) result }
        ensures memory { IfErr result (λ e. e ≡ Exhausted.Memory) };

    /// Writes the text of a reason.
    fn display_string(&self, string: StringId, out: &mut String) -> Result<(), Exhausted>
        ensures text { Appends out.old out.new ((universe self.now).string_text string) result }
        ensures memory { IfErr result (λ e. e ≡ Exhausted.Memory) };

    /// Writes several versions of one package together.
    fn display_merged_solvables(
        &self,
        solvables: &[Self::SolvableId],
        out: &mut String,
    ) -> Result<(), Exhausted>
        ensures text { Appends out.old out.new ((universe self.now).merged_text solvables.now) result }
        ensures memory { IfErr result (λ e. e ≡ Exhausted.Memory) };

    /// Conditions are well-founded.
    ghost lawful_ids: { (it : Self) → HasLawfulIds (universe it) };

    /// Names that compare equal are the same value.
    ghost names_are_values: { IsIdentity Self.NameId.eq };

    /// Solvables that compare equal are the same value.
    ghost solvables_are_values: { IsIdentity Self.SolvableId.eq };

    /// The definitions compare solvables as the code does.
    ghost solvables_compare: { (it : Self) → (universe it).same_solvable ≡ Self.SolvableId.eq };
}

/// Lists the candidates of packages, and their dependencies.
///
/// Each answer is a function of the arguments, except for the cancel value. A call is refused only for lack of memory.
pub trait DependencyProvider: Interner {
    /// The value that a search is stopped with.
    type Cancel: Drop;

    /// The values with which the provider may stop a search.
    ghost may_cancel: { Self → Self.Cancel → Type 0 };

    /// Returns the candidates of a package.
    ///
    /// `None` counts as a package without candidates, and so without locked, favored, excluded or hinted ones.
    fn get_candidates(
        &self,
        name: Self::NameId,
    ) -> Result<Option<Candidates<Self::SolvableId>>, Exhausted>
        ensures answer { IfOk result (λ answer. package_of answer ≡ (Self.universe self.now).package_named name) }
        ensures memory { IfErr result (λ e. e ≡ Exhausted.Memory) };

    /// Returns the requirements and constraints of a solvable, or the reason why they are unknown.
    fn get_dependencies(&self, solvable: Self::SolvableId) -> Result<Dependencies, Exhausted>
        ensures answer { IfOk result (λ answer. needs_of answer ≡ (Self.universe self.now).needs solvable) }
        ensures memory { IfErr result (λ e. e ≡ Exhausted.Memory) };

    /// Returns the candidates in the version set, or with `inverse` those outside it.
    fn filter_candidates(
        &self,
        candidates: &[Self::SolvableId],
        version_set: VersionSetId,
        inverse: bool,
    ) -> Result<Vec<Self::SolvableId>, Exhausted>
        ensures answer { IfOk result (λ answer. answer.items ≡ filtered_of (Self.universe self.now) inverse candidates.now version_set) }
        ensures memory { IfErr result (λ e. e ≡ Exhausted.Memory) };

    /// Sorts candidates by preference, the best first. After a refusal the order and content of the list are
    /// unspecified.
    fn sort_candidates(&self, candidates: &mut Vec<Self::SolvableId>) -> Result<(), Exhausted>
        ensures sorted { OnOk result (candidates.new.items ≡ (Self.universe self.now).sorted_of candidates.old.items) }
        ensures memory { IfErr result (λ e. e ≡ Exhausted.Memory) };

    /// Returns a value to stop the search with, or `None` to let it go on. The result may change from call to call.
    fn should_cancel_with_value(&self) -> Option<Self::Cancel>
        ensures { IfSome result (may_cancel self.now) };

    /// A package lists only solvables of its name, filtering splits a list in two, and sorting permutes it.
    ghost lawful_packages: { (it : Self) → HasLawfulPackages (Self.universe it) };
}
