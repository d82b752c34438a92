//! Ids of packages and their versions, and ranges of versions.

ghost use Rattle.std.specs.Prelude.{◌≡◌, IfOk, IfErr, IfNone, IfSome, ◌<◌, ◌≤◌};
ghost use Rattle.resolve.specs.Ranges.{range_takes};

use resolver_clause_store::Exhausted;

/// The id of a package.
#[derive(Clone, Copy, PartialEq, Eq, PartialOrd, Ord, Hash)]
pub struct NameId(pub u32);

/// The id of one version of a package.
#[derive(Clone, Copy, PartialEq, Eq, PartialOrd, Ord, Hash)]
pub struct SolvableId(pub u32);

/// Some versions of a package.
#[derive(Clone, Copy, PartialEq, Eq, Hash)]
pub enum Range {
    /// Every version.
    All,

    /// The versions from `low` up to but not including `high`; none if `low` is not below `high`.
    Within { low: u64, high: u64 },
}

impl Range {
    /// Returns whether the range matches a version.
    pub fn takes(self, version: u32) -> bool
        ensures { result ≡ range_takes self version }
    {
        match self {
            Range::All => true,
            Range::Within { low, high } => low <= u64::from(version) && u64::from(version) < high,
        }
    }
}

/// The versions of one package that a range matches.
#[derive(Clone, Copy, PartialEq, Eq, Hash)]
pub(crate) struct VersionSet {
    pub name: NameId,
    pub range: Range,
}

/// One version of a package.
#[derive(Clone, Copy, PartialEq, Eq, Hash)]
pub(crate) struct Version {
    pub name: NameId,
    pub number: u32,
}

/// Returns the id of a place in a table. The place `u32::MAX` and later places have none.
pub(crate) fn id_of(place: usize) -> Result<u32, Exhausted>
    ensures id { IfOk result (λ id. id ≡ place) }
    ensures small { IfOk result (λ id. id < 4294967295) }
    ensures full { IfErr result (λ e. (e ≡ Exhausted.Ids) × (4294967295 ≤ place)) }
{
    if place < u32::MAX as usize {
        Ok(place as u32)
    } else {
        Err(Exhausted::Ids)
    }
}

/// Returns the id of the place that was found, if any.
pub(crate) fn found_id(place: Option<usize>) -> Option<u32>
    ensures found { IfSome result (λ id. place ≡ Some id) }
    ensures none { IfNone result (IfSome place (λ p. 4294967295 ≤ p)) }
{
    match id_of(place?) {
        Ok(id) => Some(id),
        Err(_) => None,
    }
}
