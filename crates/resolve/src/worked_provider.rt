//! A worked provider: three packages with semantic versions.
//!
//! The ids of packages, releases and version sets are places in three tables. An id that is no place has an answer, too:
//! such a package has no name and no releases, and a release or version set is 0.0.0 of package 0.

ghost use Rattle.std.specs.Prelude.{◌≡◌, IfErr, IfOk, Some, refl, string_bytes};
ghost use Rattle.resolver_clause_store.specs.Laws.{numbers_are_values};
ghost use Rattle.resolve.specs.WorkedProvider.{
  is_of as belongs_to,
  listed_in,
  name_at,
  range_takes,
  range_text as text_of_range,
  release_at,
  required_by as requirements_of,
  takes as takes_in,
  version_set_at,
  version_text,
  versions_text as text_of_versions,
  worked_ids_lawful,
  worked_packages_lawful,
  worked_universe,
};

use resolver_clause_store::{
    Candidates, Condition, ConditionId, ConditionalRequirement, Dependencies, DependencyProvider,
    Exhausted, HintDependenciesAvailable, Interner, KnownDependencies, Requirement, StringId,
    VersionSetId, VersionSetUnionId,
};
use std::alloc::Global;
use std::convert::Infallible;
use std::fmt;

/// A semantic version: its major, minor and patch number.
#[derive(Clone, Copy, PartialEq, Eq)]
struct Version(u32, u32, u32);

/// Some versions.
#[derive(Clone, Copy)]
enum Range {
    /// Those with this major number, and at least this minor number.
    Caret(u32, u32),
    /// This version alone.
    Exact(Version),
}

const NAMES: [&str; 3] = ["app", "web", "log"];

/// The package and the version of each release, the newest of a package first.
const RELEASES: [(u32, Version); 7] = [
    (0, Version(2, 0, 0)),
    (0, Version(1, 4, 0)),
    (1, Version(2, 1, 0)),
    (1, Version(1, 3, 0)),
    (1, Version(1, 2, 5)),
    (2, Version(2, 0, 1)),
    (2, Version(1, 1, 0)),
];

/// The package and the versions of each version set.
const VERSION_SETS: [(u32, Range); 6] = [
    (0, Range::Caret(2, 0)),
    (1, Range::Caret(2, 0)),
    (1, Range::Caret(1, 2)),
    (2, Range::Caret(2, 0)),
    (2, Range::Caret(1, 0)),
    (2, Range::Exact(Version(1, 1, 0))),
];

/// Releases, each with a version set that it requires.
const DEPENDENCIES: [(u32, u32); 5] = [(0, 1), (1, 2), (2, 3), (3, 4), (4, 4)];

impl fmt::Display for Version {
    ghost output = { λ version. Some (version_text version) };

    fn fmt<W: fmt::Write>(&self, f: &mut fmt::Formatter<W>) -> fmt::Result {
        write!(f, "{}.{}.{}", self.0, self.1, self.2)
    }
}

impl Range {
    /// Returns whether the version is one of these.
    fn takes(self, version: Version) -> bool
        ensures { result ≡ range_takes self version }
    {
        match self {
            Range::Caret(major, minor) => version.0 == major && version.1 >= minor,
            Range::Exact(only) => version == only,
        }
    }

    /// Returns the text, as `^1.2` or `=1.2.5`.
    fn text(self, alloc: Global) -> Result<String, Exhausted>
        ensures text { IfOk result (λ text. string_bytes text ≡ text_of_range self) }
        ensures memory { IfErr result (λ e. e ≡ Exhausted.Memory) }
    {
        let text = match self {
            Range::Caret(major, minor) => format!(in alloc; "^{major}.{minor}")?,
            Range::Exact(only) => format!(in alloc; "={only}")?,
        };
        Ok(text)
    }
}

/// Returns the name of a package.
fn name_of(name: u32) -> &'static str
    ensures { result.now ≡ name_at name }
{
    match NAMES.get(name as usize) {
        None => "",
        Some(text) => *text,
    }
}

/// Returns the package and the version of a release.
fn release_of(solvable: u32) -> (u32, Version)
    ensures { result ≡ release_at solvable }
{
    match RELEASES.get(solvable as usize) {
        None => (0, Version(0, 0, 0)),
        Some(release) => *release,
    }
}

/// Returns the package and the versions of a version set.
fn version_set_of(version_set: VersionSetId) -> (u32, Range)
    ensures { result ≡ version_set_at version_set }
{
    match VERSION_SETS.get(version_set.0 as usize) {
        None => (0, Range::Exact(Version(0, 0, 0))),
        Some(found) => *found,
    }
}

/// Returns whether a release is one of a package.
fn is_of(name: u32, solvable: u32) -> bool
    ensures { result ≡ belongs_to name solvable }
{
    release_of(solvable).0 == name
}

/// Returns the ids of a package's releases, the newest first.
fn releases_of(alloc: Global, name: u32) -> Result<Vec<u32>, Exhausted>
    ensures listed { IfOk result (λ listed. listed.items ≡ listed_in name) }
    ensures memory { IfErr result (λ e. e ≡ Exhausted.Memory) }
{
    let mut listed = Vec::new(alloc);
    for solvable in 0..RELEASES.len() as u32 {
        if is_of(name, solvable) {
            listed.push(solvable)?;
        }
    }
    Ok(listed)
}

/// Returns the requirements of a release.
fn required_by(alloc: Global, solvable: u32) -> Result<Vec<ConditionalRequirement>, Exhausted>
    ensures required { IfOk result (λ required. required.items ≡ requirements_of solvable) }
    ensures memory { IfErr result (λ e. e ≡ Exhausted.Memory) }
{
    let mut required = Vec::new(alloc);
    for (release, version_set) in &DEPENDENCIES {
        if *release == solvable {
            required.push(ConditionalRequirement {
                condition: None,
                requirement: Requirement::Single(VersionSetId(*version_set)),
            })?;
        }
    }
    Ok(required)
}

/// Returns whether the version of a release is in a version set.
fn takes(version_set: VersionSetId, solvable: u32) -> bool
    ensures { result ≡ takes_in version_set solvable }
{
    version_set_of(version_set).1.takes(release_of(solvable).1)
}

/// Returns the versions of releases, a space before each.
fn versions_text(alloc: Global, solvables: &[u32]) -> Result<String, Exhausted>
    ensures text { IfOk result (λ text. string_bytes text ≡ text_of_versions solvables.now) }
    ensures memory { IfErr result (λ e. e ≡ Exhausted.Memory) }
{
    let mut text = String::new(alloc);
    for solvable in solvables {
        let version = release_of(*solvable).1;
        let written = format!(in alloc; " {version}")?;
        text.push_str(written.as_str())?;
    }
    Ok(text)
}

/// The provider. It holds only the allocator that its answers are made with.
#[derive(Drop)]
struct Worked {
    alloc: Global,
}

impl Interner for Worked {
    type NameId = u32;

    type SolvableId = u32;

    ghost universe = { λ it. worked_universe };

    ghost lawful_ids = { λ it. worked_ids_lawful };

    ghost names_are_values = { numbers_are_values };

    ghost solvables_are_values = { numbers_are_values };

    ghost solvables_compare = { λ it. refl };

    fn solvable_name(&self, solvable: u32) -> u32 {
        release_of(solvable).0
    }

    fn version_set_name(&self, version_set: VersionSetId) -> u32 {
        version_set_of(version_set).0
    }

    fn version_sets_in_union(&self, _version_set_union: VersionSetUnionId) -> &[VersionSetId] {
        &[]
    }

    fn resolve_condition(&self, condition: ConditionId) -> Condition {
        Condition::Requirement(VersionSetId(condition.0))
    }

    fn display_name(&self, name: u32, out: &mut String) -> Result<(), Exhausted> {
        out.push_str(name_of(name))?;
        Ok(())
    }

    fn display_version_set(
        &self,
        version_set: VersionSetId,
        out: &mut String,
    ) -> Result<(), Exhausted> {
        let text = version_set_of(version_set).1.text(self.alloc)?;
        out.push_str(text.as_str())?;
        Ok(())
    }

    fn display_string(&self, _string: StringId, _out: &mut String) -> Result<(), Exhausted> {
        Ok(())
    }

    fn display_merged_solvables(
        &self,
        solvables: &[u32],
        out: &mut String,
    ) -> Result<(), Exhausted> {
        let [first, ..] = solvables else {
            return Ok(());
        };
        let versions = versions_text(self.alloc, solvables)?;
        out.push_str(name_of(release_of(*first).0))?;
        out.push_str(versions.as_str())?;
        Ok(())
    }
}

impl DependencyProvider for Worked {
    type Cancel = Infallible;

    ghost may_cancel = { λ _ _. ⊥ };

    ghost lawful_packages = { λ it. worked_packages_lawful };

    fn get_candidates(&self, name: u32) -> Result<Option<Candidates<u32>>, Exhausted> {
        let candidates = releases_of(self.alloc, name)?;
        Ok(Some(Candidates {
            candidates,
            favored: None,
            locked: None,
            hint_dependencies_available: HintDependenciesAvailable::None,
            excluded: Vec::new(self.alloc),
        }))
    }

    fn get_dependencies(&self, solvable: u32) -> Result<Dependencies, Exhausted> {
        let requirements = required_by(self.alloc, solvable)?;
        Ok(Dependencies::Known(KnownDependencies {
            requirements,
            constrains: Vec::new(self.alloc),
        }))
    }

    fn filter_candidates(
        &self,
        candidates: &[u32],
        version_set: VersionSetId,
        inverse: bool,
    ) -> Result<Vec<u32>, Exhausted> {
        let mut kept = Vec::new(self.alloc);
        for solvable in candidates {
            if takes(version_set, *solvable) != inverse {
                kept.push(*solvable)?;
            }
        }
        Ok(kept)
    }

    fn sort_candidates(&self, _candidates: &mut Vec<u32>) -> Result<(), Exhausted> {
        Ok(())
    }

    fn should_cancel_with_value(&self) -> Option<Infallible> {
        None
    }
}

#[cfg(test)]
mod tests;
