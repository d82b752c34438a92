//! Which rank comes first.

ghost use Rattle.std.specs.Prelude.{◌≡◌};

use super::{Entry, place_by_rank};
use crate::owner::Owner;
use crate::scores::{Activity, Scores};
use std::alloc::{AllocError, Global};
use std::cmp::Reverse;
use std::collections::BinaryHeap;

/// The rank of a requirement among those whose packages have the same score.
///
/// Requirements of the root come first, then those with fewer candidates in the version set that is tried, and then
/// those that were added first.
#[derive(Clone, Copy, PartialEq, Eq, PartialOrd, Ord)]
pub struct Rank {
    pub is_later: bool,
    pub count: usize,
    pub requirement: u32,
    /// The package of that version set, if it is known.
    pub owner: Owner,
    /// The number of times that the requirement had been ranked before, counted round 2^32.
    pub edition: u32,
}

/// A rank with the score of its package, and the place of its requirement. The greatest comes first.
#[derive(Clone, Copy, PartialEq, Eq, PartialOrd, Ord)]
struct Scored {
    of_root: bool,
    score: u64,
    rank: Reverse<Rank>,
    place: usize,
}

impl Scored {
    fn new(rank: Rank, score: u64, place: usize) -> Self {
        Scored {
            of_root: !rank.is_later,
            score,
            rank: Reverse(rank),
            place,
        }
    }
}

/// The ranks of requirements, and the scores of packages. Old ranks are removed where they are found.
#[derive(Drop)]
pub struct Order {
    scores: Scores,
    learnt: u64,
    /// The ranks whose packages have a score, in no order.
    scored: Vec<Rank>,
    /// The ranks whose packages have no score.
    unscored: BinaryHeap<Reverse<Rank>>,
}

impl Order {
    /// Returns no ranks.
    pub fn new(alloc: Global, activity: Activity) -> Self {
        Order {
            scores: Scores::new(alloc, activity),
            learnt: 0,
            scored: Vec::new(alloc),
            unscored: BinaryHeap::new(alloc),
        }
    }

    /// Raises the score of a package.
    pub fn raise(&mut self, package: usize) -> Result<(), AllocError> {
        self.scores.add(package, self.learnt)?;
        Ok(())
    }

    /// Decays all scores.
    pub fn decay(&mut self) {
        self.learnt = self.learnt.saturating_add(1);
    }

    /// Returns the score of a package, 0 if it is not known.
    pub fn score_of(&self, owner: Owner) -> u64 {
        match owner.number() {
            Some(package) => self.scores.of(package, self.learnt),
            None => 0,
        }
    }

    /// Returns the score of the package of a rank, and stores it.
    fn read_score(&mut self, rank: &Rank) -> u64
        ensures { self.new.scored ≡ self.old.scored }
    {
        match rank.owner.number() {
            Some(package) => self.scores.read(package, self.learnt),
            None => 0,
        }
    }

    /// Adds a rank.
    pub fn add(&mut self, rank: Rank) -> Result<(), AllocError> {
        if self.read_score(&rank) == 0 {
            self.unscored.push(Reverse(rank))?;
            return Ok(());
        }
        self.scored.push(rank)?;
        Ok(())
    }

    /// Removes a rank that is old, or whose package has no score any more, and returns any other.
    fn scored_at(&mut self, entries: &[Entry], index: usize) -> Result<Option<Scored>, AllocError> {
        if index >= self.scored.len() {
            return Ok(None);
        }
        let rank = self.scored[index];
        let score = self.read_score(&rank);
        let place = place_by_rank(entries, &rank);
        if let Some(place) = place
            && score != 0
        {
            return Ok(Some(Scored::new(rank, score, place)));
        }
        self.scored.swap_remove(index);
        if place.is_some() {
            self.unscored.push(Reverse(rank))?;
        }
        Ok(None)
    }

    /// Returns the first of the ranks whose packages have a score.
    fn first_scored(&mut self, entries: &[Entry]) -> Result<Option<Scored>, AllocError> {
        let mut first = None;
        'ranks: for index in (0..self.scored.len()).rev() {
            first = first.max(self.scored_at(entries, index)?);
        }
        Ok(first)
    }

    /// Returns the first of the ranks whose packages have no score, and removes old ones before it.
    fn first_unscored(&mut self, entries: &[Entry]) -> Option<Scored> {
        'ranks: for _ in 0..self.unscored.len() {
            let Reverse(rank) = *self.unscored.peek()?;
            if let Some(place) = place_by_rank(entries, &rank) {
                return Some(Scored::new(rank, 0, place));
            }
            self.unscored.pop();
        }
        None
    }

    /// Returns the place of the active requirement whose rank comes first, and 0 if none has a rank.
    pub fn first_place(&mut self, entries: &[Entry]) -> Result<usize, AllocError> {
        let scored = self.first_scored(entries)?;
        match scored.max(self.first_unscored(entries)) {
            Some(first) => Ok(first.place),
            None => Ok(0),
        }
    }

    /// Removes the ranks without a score, if there are far more of them than active requirements. Returns whether it did.
    pub fn forget(&mut self, active: usize) -> bool {
        if self.unscored.len() / 2 <= active.saturating_add(32) {
            return false;
        }
        self.unscored.clear();
        true
    }
}
