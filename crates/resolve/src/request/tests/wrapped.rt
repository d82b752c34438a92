//! A catalog that behaves differently in one way: it hints at all candidates, stops a search, or refuses an answer for
//! lack of memory. It counts its checks and answers, and logs the packages that it is asked for.

ghost use Rattle.std.specs.Prelude.{◌≡◌, IfErr, true};
ghost use Rattle.resolver_clause_store.specs.Universe.{package_of};
ghost use Rattle.resolve.specs.CatalogLaws.{catalog_ids_lawful, catalog_packages_lawful, compares_solvables, same_names, same_solvables};
ghost use Rattle.resolve.specs.Catalogs.{catalog_universe};
ghost use Rattle.resolve.specs.Hinting.{hinted_ids_lawful, hinted_packages_lawful, with_hint, with_hints};

use crate::catalog::Catalog;
use crate::ids::{NameId, SolvableId};
use resolver_clause_store::{
    Candidates, Condition, ConditionId, Dependencies, DependencyProvider, Exhausted,
    HintDependenciesAvailable, Interner, StringId, VersionSetId, VersionSetUnionId,
};
use std::alloc::Global;
use std::cell::Cell;

/// The way in which the provider behaves differently.
#[derive(Clone, Copy)]
pub enum Behaviour {
    /// It does not.
    Same,
    /// The dependencies of all candidates are available, so that each candidate is read early.
    Hinting,
    /// The cancel check with this number, counted from 1, stops the search with this value.
    StoppedAt { check: u64, value: u64 },
    /// The answer or text with this number, counted from 1, is refused for lack of memory.
    RefusedAt(u64),
    /// Each cancel check after this package was asked stops the search with this value.
    StoppedOnceAsked { package: NameId, value: u64 },
}

/// A catalog that behaves differently in one way.
#[derive(Drop)]
pub struct Wrapped {
    alloc: Global,
    inner: Catalog,
    hints_all: bool,
    /// The value that stops a search.
    cancel: u64,
    /// The number of the check that stops the search, or 0.
    stopping: u64,
    /// The package after which each check stops the search.
    last: Option<NameId>,
    /// Whether that package was asked.
    is_over: Cell<bool>,
    /// The number of the answer or text that is refused, or 0.
    refusing: u64,
    checks: Cell<u64>,
    answers: Cell<u64>,
    log: Cell<u64>,
}

impl Wrapped {
    pub fn new(alloc: Global, inner: Catalog, behaviour: Behaviour) -> Self {
        let (hints_all, cancel, stopping, last, refusing) = match behaviour {
            Behaviour::Same => (false, 0, 0, None, 0),
            Behaviour::Hinting => (true, 0, 0, None, 0),
            Behaviour::StoppedAt { check, value } => (false, value, check, None, 0),
            Behaviour::RefusedAt(answer) => (false, 0, 0, None, answer),
            Behaviour::StoppedOnceAsked { package, value } => (false, value, 0, Some(package), 0),
        };
        Wrapped {
            alloc,
            inner,
            hints_all,
            cancel,
            stopping,
            last,
            is_over: Cell::new(false),
            refusing,
            checks: Cell::new(0),
            answers: Cell::new(0),
            log: Cell::new(0),
        }
    }

    /// Returns the number of cancel checks so far.
    pub fn checks(&self) -> u64 {
        self.checks.get()
    }

    /// Returns the number of answers and texts so far.
    pub fn answers(&self) -> u64 {
        self.answers.get()
    }

    /// Returns the packages that were asked for their candidates: each has a digit, 1 for the first one.
    pub fn log(&self) -> u64 {
        self.log.get()
    }

    /// Notes that a package was asked for its candidates.
    fn note(&self, name: NameId) {
        let digit = u64::from(name.0).wrapping_add(1);
        self.log
            .set(self.log.get().wrapping_mul(10).wrapping_add(digit));
        if self.last == Some(name) {
            self.is_over.set(true);
        }
    }

    /// Counts an answer or text, and refuses it if its turn has come.
    fn count(&self) -> Result<(), Exhausted>
        ensures memory { IfErr result (λ e. e ≡ Exhausted.Memory) }
    {
        let answer = self.answers.get().saturating_add(1);
        self.answers.set(answer);
        if answer == self.refusing {
            return Err(Exhausted::Memory);
        }
        Ok(())
    }
}

/// Returns the same candidates, with a hint that all their dependencies are available.
fn hinted<S: Drop>(alloc: Global, found: Option<Candidates<S>>) -> Option<Candidates<S>>
    ensures { package_of result ≡ with_hint true (package_of found) }
{
    let (candidates, favored, locked, excluded) = match found {
        None => (Vec::new(alloc), None, None, Vec::new(alloc)),
        Some(found) => (
            found.candidates,
            found.favored,
            found.locked,
            found.excluded,
        ),
    };
    Some(Candidates {
        candidates,
        favored,
        locked,
        hint_dependencies_available: HintDependenciesAvailable::All,
        excluded,
    })
}

impl Interner for Wrapped {
    type NameId = NameId;

    type SolvableId = SolvableId;

    ghost universe = { λ it. with_hints it.hints_all (catalog_universe it.inner) };

    ghost lawful_ids = { λ it. hinted_ids_lawful it.hints_all (catalog_universe it.inner) (catalog_ids_lawful it.inner) };

    ghost names_are_values = { same_names };

    ghost solvables_are_values = { same_solvables };

    ghost solvables_compare = { λ it. compares_solvables it.inner };

    fn solvable_name(&self, solvable: SolvableId) -> NameId {
        self.inner.solvable_name(solvable)
    }

    fn version_set_name(&self, version_set: VersionSetId) -> NameId {
        self.inner.version_set_name(version_set)
    }

    fn version_sets_in_union(&self, version_set_union: VersionSetUnionId) -> &[VersionSetId] {
        self.inner.version_sets_in_union(version_set_union)
    }

    fn resolve_condition(&self, condition: ConditionId) -> Condition {
        self.inner.resolve_condition(condition)
    }

    fn display_name(&self, name: NameId, out: &mut String) -> Result<(), Exhausted> {
        self.count()?;
        self.inner.display_name(name, out)
    }

    fn display_version_set(
        &self,
        version_set: VersionSetId,
        out: &mut String,
    ) -> Result<(), Exhausted> {
        self.count()?;
        self.inner.display_version_set(version_set, out)
    }

    fn display_string(&self, string: StringId, out: &mut String) -> Result<(), Exhausted> {
        self.count()?;
        self.inner.display_string(string, out)
    }

    fn display_merged_solvables(
        &self,
        solvables: &[SolvableId],
        out: &mut String,
    ) -> Result<(), Exhausted> {
        self.count()?;
        self.inner.display_merged_solvables(solvables, out)
    }
}

impl DependencyProvider for Wrapped {
    type Cancel = u64;

    ghost may_cancel = { λ it value. value ≡ it.cancel };

    ghost lawful_packages = { λ it. hinted_packages_lawful it.hints_all (catalog_universe it.inner) (catalog_packages_lawful it.inner) };

    fn get_candidates(&self, name: NameId) -> Result<Option<Candidates<SolvableId>>, Exhausted> {
        self.count()?;
        self.note(name);
        let found = self.inner.get_candidates(name)?;
        if self.hints_all {
            return Ok(hinted(self.alloc, found));
        }
        Ok(found)
    }

    fn get_dependencies(&self, solvable: SolvableId) -> Result<Dependencies, Exhausted> {
        self.count()?;
        let dependencies = self.inner.get_dependencies(solvable)?;
        Ok(dependencies)
    }

    fn filter_candidates(
        &self,
        candidates: &[SolvableId],
        version_set: VersionSetId,
        inverse: bool,
    ) -> Result<Vec<SolvableId>, Exhausted> {
        self.count()?;
        let kept = self
            .inner
            .filter_candidates(candidates, version_set, inverse)?;
        Ok(kept)
    }

    fn sort_candidates(&self, candidates: &mut Vec<SolvableId>) -> Result<(), Exhausted> {
        self.count()?;
        self.inner.sort_candidates(candidates)?;
        Ok(())
    }

    fn should_cancel_with_value(&self) -> Option<u64> {
        let check = self.checks.get().saturating_add(1);
        self.checks.set(check);
        if check == self.stopping || self.is_over.get() {
            return Some(self.cancel);
        }
        None
    }
}
