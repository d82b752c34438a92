//! Packages, with what was declared of them.

ghost use Rattle.std.specs.Prelude.{◌≡◌, ◌<◌, ◌++◌, ◌∷◌, [], IfOk, OnErr, OnOk, Some, length, slice_index_or, slice_set};
ghost use Rattle.resolve.specs.Listings.{no_versions, with_candidate, with_excluded};

use super::links::Links;
use crate::ids::SolvableId;
use resolver_clause_store::StringId;
use std::alloc::{AllocError, Global};
use std::marker::Model;

/// What was declared of a package.
#[derive(Clone, Copy)]
struct Listing {
    /// The list of its candidates.
    candidates: u32,
    favored: Option<SolvableId>,
    locked: Option<SolvableId>,
    /// The list of its excluded solvables.
    excluded: u32,
}

/// Packages with their versions in the order of declaration.
///
/// Most packages of a real input have one version, and none that is excluded. A package takes 24 bytes and a version 8,
/// in whatever order they are declared.
#[derive(Drop)]
pub struct Packages {
    listings: Vec<Listing>,
    candidates: Links<SolvableId>,
    excluded: Links<(SolvableId, StringId)>,
}

impl Model for Packages {
    ghost use Rattle.std.specs.Prelude.{All, List, length, map};
    ghost use Rattle.resolve.specs.Listings.{IsListedWithin, ListedPackage, package_in};

    ghost Value = { List ListedPackage };

    ghost view = { λ it. map (package_in it.candidates it.excluded) it.listings.items };

    ghost invariant = { λ it. All (IsListedWithin (length it.candidates) (length it.excluded)) it.listings.items };
}

impl Packages {
    /// Returns no packages.
    pub fn new(alloc: Global) -> Self
        ensures { result ≡ [] }
    {
        Packages {
            listings: Vec::new(alloc),
            candidates: Links::new(alloc),
            excluded: Links::new(alloc),
        }
    }

    /// Returns the number of packages.
    pub fn len(&self) -> usize
        ensures { result ≡ length self.now }
    {
        self.listings.len()
    }

    /// Adds a package without versions. An error changes nothing.
    pub fn add(&mut self) -> Result<(), AllocError>
        ensures added { OnOk result (self.new ≡ self.old ++ no_versions ∷ []) }
        ensures unchanged { OnErr result (self.new ≡ self.old) }
    {
        self.listings.push(Listing {
            candidates: 0,
            favored: None,
            locked: None,
            excluded: 0,
        })?;
        Ok(())
    }

    /// Adds a candidate to a package. An error changes nothing.
    pub fn list(&mut self, place: usize, solvable: SolvableId) -> Result<(), AllocError>
        requires { place < length self.old }
        ensures added { OnOk result (self.new ≡ slice_set self.old place (with_candidate (slice_index_or self.old place no_versions) solvable)) }
        ensures unchanged { OnErr result (self.new ≡ self.old) }
    {
        let mut listing = self.listings[place];
        listing.candidates = self.candidates.push(listing.candidates, solvable)?;
        self.listings[place] = listing;
        Ok(())
    }

    /// Adds an excluded solvable to a package. An error changes nothing.
    pub fn exclude(
        &mut self,
        place: usize,
        solvable: SolvableId,
        reason: StringId,
    ) -> Result<(), AllocError>
        requires { place < length self.old }
        ensures added { OnOk result (self.new ≡ slice_set self.old place (with_excluded (slice_index_or self.old place no_versions) (solvable, reason))) }
        ensures unchanged { OnErr result (self.new ≡ self.old) }
    {
        let mut listing = self.listings[place];
        listing.excluded = self.excluded.push(listing.excluded, (solvable, reason))?;
        self.listings[place] = listing;
        Ok(())
    }

    /// Returns the favored solvable of a package, if there is one.
    pub fn favored(&self, place: usize) -> Option<SolvableId>
        requires { place < length self.now }
        ensures { result ≡ (slice_index_or self.now place no_versions).favored }
    {
        self.listings[place].favored
    }

    /// Makes a solvable the favored one of a package.
    pub fn favor(&mut self, place: usize, solvable: SolvableId)
        requires { place < length self.old }
        ensures { self.new ≡ slice_set self.old place (record (slice_index_or self.old place no_versions) { favored = Some solvable }) }
    {
        self.listings[place].favored = Some(solvable);
    }

    /// Returns the solvable to which a package is locked, if there is one.
    pub fn locked(&self, place: usize) -> Option<SolvableId>
        requires { place < length self.now }
        ensures { result ≡ (slice_index_or self.now place no_versions).locked }
    {
        self.listings[place].locked
    }

    /// Locks a package to a solvable.
    pub fn lock(&mut self, place: usize, solvable: SolvableId)
        requires { place < length self.old }
        ensures { self.new ≡ slice_set self.old place (record (slice_index_or self.old place no_versions) { locked = Some solvable }) }
    {
        self.listings[place].locked = Some(solvable);
    }

    /// Returns the candidates of a package.
    pub fn candidates(&self, alloc: Global, place: usize) -> Result<Vec<SolvableId>, AllocError>
        requires { place < length self.now }
        ensures { IfOk result (λ found. found.items ≡ (slice_index_or self.now place no_versions).candidates) }
    {
        let list = self.listings[place].candidates;
        self.candidates.items(alloc, list)
    }

    /// Returns the excluded solvables of a package, and the reasons.
    pub fn excluded(
        &self,
        alloc: Global,
        place: usize,
    ) -> Result<Vec<(SolvableId, StringId)>, AllocError>
        requires { place < length self.now }
        ensures { IfOk result (λ found. found.items ≡ (slice_index_or self.now place no_versions).excluded) }
    {
        let list = self.listings[place].excluded;
        self.excluded.items(alloc, list)
    }
}
