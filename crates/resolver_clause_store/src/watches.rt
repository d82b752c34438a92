//! The clauses that watch each literal.

ghost use Rattle.std.specs.Prelude.{◌≡◌, ◌≢◌, ℕ, ◌+◌, ◌*◌, ◌<◌, ◌≤◌, ◌++◌, ◌∷◌, [], All, IfSome, List, MatchOption, OnErr, OnOk, Some, Vec, length, slice_get};
ghost use Rattle.resolver_clause_store.specs.Literals.{Literal, list_number};
ghost use Rattle.resolver_clause_store.specs.TrailView.{variable_count};
ghost use Rattle.resolver_clause_store.specs.Unsatisfied.{IsFirstUnsatisfied, IsNextUnsatisfied};
ghost use Rattle.resolver_clause_store.specs.Watches.{IsWatched, PutsBoth, list_at, watch_at, with_blocker};

use crate::literals::Literal;
use crate::numbered_lists::NumberedLists;
use crate::numbers::narrow;
use crate::pairs::WatchedPair;
use crate::placed_watch::PlacedWatch;
use crate::trail::Trail;
use std::alloc::{AllocError, Global};

/// A clause in the list of a literal that it watches.
///
/// The blocker takes four bytes and `start` two, so a watch takes twelve.
#[derive(Clone, Copy, PartialEq, Eq)]
pub struct Watch {
    /// The clause's number.
    pub number: u32,
    /// A literal of the clause. While it is true, the clause need not be visited.
    pub blocker: Literal,
    /// Whether the clause is known to have two literals.
    pub is_binary: bool,
    /// The place in the clause from which on another literal to watch is looked for first. Any place is right.
    pub start: u16,
}

impl Watch {
    ghost use Rattle.resolver_clause_store.specs.Watches.{new_watch};

    /// Returns a new watch of a clause.
    fn new(number: u32, blocker: Literal, is_binary: bool) -> Self
        ensures { result ≡ new_watch number blocker is_binary }
    {
        Watch {
            number,
            blocker,
            is_binary,
            start: 0,
        }
    }
}

/// Returns the first place from this one on whose blocker is not true, or the number of watches.
fn first_unsatisfied(watches: &[Watch], trail: &Trail, from: usize) -> usize
    requires from { from ≤ length watches.now }
    requires below { All (λ (watch : Watch). watch.blocker.variable < variable_count trail.now) watches.now }
    ensures { IsFirstUnsatisfied trail.now watches.now from result }
{
    'watches: for place in from..watches.len() {
        if !trail.is_true(watches[place].blocker) {
            return place;
        }
    }
    watches.len()
}

/// Returns the watch at a place, if there is one.
fn watch_in(watches: &[Watch], place: usize) -> Option<PlacedWatch>
    ensures { MatchOption result (length watches.now ≤ place) (λ placed. (placed.place ≡ place) × (slice_get watches.now place ≡ Some placed.watch)) }
{
    match watches.get(place) {
        Some(watch) => Some(PlacedWatch {
            place,
            watch: *watch,
        }),
        None => None,
    }
}

/// Puts the watches of a clause into the lists of its two literals. An error changes no list.
fn push_both(
    lists: &mut NumberedLists<Watch>,
    pair: WatchedPair,
    number: u32,
    is_binary: bool,
) -> Result<(), AllocError>
    requires first { list_number pair.first < length lists.old }
    requires second { list_number pair.second < length lists.old }
    ensures pushed { OnOk result (PutsBoth lists.old lists.new pair number is_binary) }
    ensures size { length lists.new ≡ length lists.old }
    ensures unchanged { OnErr result ((list : ℕ) → list_at lists.new list ≡ list_at lists.old list) }
{
    let list = pair.first.list_number();
    let place = lists.at(list).len();
    lists.push(list, Watch::new(number, pair.second, is_binary))?;
    match lists.push(
        pair.second.list_number(),
        Watch::new(number, pair.first, is_binary),
    ) {
        Ok(()) => Ok(()),
        Err(error) => {
            lists.take(list, place);
            Err(error)
        }
    }
}

/// The clauses that watch each literal, and the two literals that each clause watches.
///
/// A clause is in the lists of its two literals and in no other list. A clause without two different literals watches
/// none.
#[derive(Drop)]
pub struct Watches {
    lists: NumberedLists<Watch>,
    pairs: Vec<WatchedPair>,
    ghost watched: { IsWatched lists pairs.items },
}

impl Watches {
    ghost use Rattle.resolver_clause_store.specs.Watches.{IsPair, IsWatching, KeepsFit, KeepsFitWith, MovesWatch, PutsWatch, SameClauses, pair_at, watches_at};
    ghost use Rattle.resolver_clause_store.specs.WatchesView.{HasList, lists_of, pairs_of};

    /// Returns watches without literals and clauses.
    pub fn empty(alloc: Global) -> Self
        ensures lists { lists_of result ≡ [] }
        ensures pairs { pairs_of result ≡ [] }
    {
        Watches {
            lists: NumberedLists::new(alloc),
            pairs: Vec::new(alloc),
        }
    }

    /// Adds empty lists for the literals of new variables, up to this many variables.
    pub fn grow(&mut self, variables: usize) -> Result<(), AllocError>
        requires { length (lists_of self.old) ≤ 2 * variables }
        ensures size { OnOk result (length (lists_of self.new) ≡ 2 * variables) }
        ensures lists { (list : ℕ) → list_at (lists_of self.new) list ≡ list_at (lists_of self.old) list }
        ensures pairs { pairs_of self.new ≡ pairs_of self.old }
    {
        let Some(count) = variables.checked_mul(2) else {
            return Err(AllocError);
        };
        self.lists.grow(count)?;
        Ok(())
    }

    /// Returns the number of clauses.
    pub fn len(&self) -> usize
        ensures { result ≡ length (pairs_of self.now) }
    {
        self.pairs.len()
    }

    /// Returns the two literals that a clause watches.
    pub fn pair(&self, number: usize) -> WatchedPair
        requires { number < length (pairs_of self.now) }
        ensures { result ≡ pair_at (pairs_of self.now) number }
    {
        self.pairs[number]
    }

    /// Returns the literal that a clause watches beside this one.
    pub fn other_watched(&self, number: usize, literal: &Literal) -> Literal
        requires { number < length (pairs_of self.now) }
        ensures { (other : Literal) → literal.now ≢ other → IsPair (pair_at (pairs_of self.now) number) literal.now other → result ≡ other }
    {
        self.pairs[number].other(literal)
    }

    /// Returns the clause at a place of a literal's list, if the list is that long.
    pub fn placed_at(&self, literal: Literal, place: usize) -> Option<PlacedWatch>
        requires list { HasList self.now literal }
        ensures value { let it = watches_at (lists_of self.now) literal in
            MatchOption result (length it ≤ place) (λ p. (p.place ≡ place) × (slice_get it place ≡ Some p.watch)) }
        ensures watching { IfSome result (λ placed. IsWatching (pairs_of self.now) placed.watch.number literal) }
    {
        watch_in(self.lists.at(literal.list_number()), place)
    }

    /// Returns the first clause of a literal's list, from this place on, whose blocker is not true.
    pub fn next_unsatisfied(
        &self,
        trail: &Trail,
        literal: Literal,
        from: usize,
    ) -> Option<PlacedWatch>
        requires list { HasList self.now literal }
        requires from { from ≤ length (watches_at (lists_of self.now) literal) }
        requires below { All (λ (watch : Watch). watch.blocker.variable < variable_count trail.now) (watches_at (lists_of self.now) literal) }
        ensures value { let it = watches_at (lists_of self.now) literal in
            MatchOption result (IsFirstUnsatisfied trail.now it from (length it)) (IsNextUnsatisfied trail.now it from) }
        ensures watching { IfSome result (λ placed. IsWatching (pairs_of self.now) placed.watch.number literal) }
    {
        let watches = self.lists.at(literal.list_number());
        watch_in(watches, first_unsatisfied(watches, trail, from))
    }

    /// Appends a clause that watches the two literals of a pair, which are each other's blockers, or nothing.
    ///
    /// `is_binary` says that the clause has two literals.
    pub fn add(&mut self, pair: WatchedPair, is_binary: bool) -> Result<(), AllocError>
        requires inside { pair.first ≢ pair.second → HasList self.old pair.first × HasList self.old pair.second }
        ensures pairs { OnOk result (pairs_of self.new ≡ pairs_of self.old ++ pair ∷ []) }
        ensures kept { (number : ℕ) → number < length (pairs_of self.old) → pair_at (pairs_of self.new) number ≡ pair_at (pairs_of self.old) number }
        ensures size { OnOk result (length (lists_of self.new) ≡ length (lists_of self.old)) }
        ensures fit { OnOk result (KeepsFitWith (lists_of self.old) (lists_of self.new) pair (length (pairs_of self.old)) is_binary) }
    {
        let number = narrow(self.pairs.len())?;
        self.pairs.push(pair)?;
        if pair.first == pair.second {
            return Ok(());
        }
        match push_both(&mut self.lists, pair, number, is_binary) {
            Ok(()) => Ok(()),
            Err(error) => {
                self.pairs.pop();
                Err(error)
            }
        }
    }

    /// Replaces the blocker of a watch.
    pub fn set_blocker(&mut self, literal: Literal, placed: &PlacedWatch, blocker: Literal)
        requires list { HasList self.old literal }
        requires placed { slice_get (watches_at (lists_of self.old) literal) placed.now.place ≡ Some placed.now.watch }
        ensures set { PutsWatch (lists_of self.old) (lists_of self.new) literal placed.now.place (with_blocker placed.now.watch blocker) }
        ensures same { SameClauses (lists_of self.old) (lists_of self.new) }
        ensures pairs { pairs_of self.new ≡ pairs_of self.old }
        ensures fit { KeepsFit (lists_of self.old) (lists_of self.new) placed.now.watch.number blocker }
    {
        let watch = placed.watch;
        let watch = Watch {
            number: watch.number,
            blocker,
            is_binary: watch.is_binary,
            start: watch.start,
        };
        self.lists.set(literal.list_number(), placed.place, watch);
    }

    /// Makes a clause of a literal's list watch another literal instead, with a start for the next search.
    ///
    /// The last clause of the list moves to its place.
    pub fn move_watch(
        &mut self,
        from: Literal,
        placed: &PlacedWatch,
        to: Literal,
        blocker: Literal,
        start: u16,
    ) -> Result<(), AllocError>
        requires from { HasList self.old from }
        requires to { HasList self.old to }
        requires placed { slice_get (watches_at (lists_of self.old) from) placed.now.place ≡ Some placed.now.watch }
        requires unwatched { IsWatching (pairs_of self.old) placed.now.watch.number to → ⊥ }
        ensures moved { OnOk result (MovesWatch (lists_of self.old) (lists_of self.new) (pairs_of self.old) (pairs_of self.new) from to
            placed.now.place placed.now.watch.number) }
        ensures kept { OnErr result (pairs_of self.new ≡ pairs_of self.old) }
        ensures fit { OnOk result (KeepsFit (lists_of self.old) (lists_of self.new) placed.now.watch.number blocker) }
    {
        let watch = placed.watch;
        let moved = Watch {
            number: watch.number,
            blocker,
            is_binary: watch.is_binary,
            start,
        };
        self.lists.push(to.list_number(), moved)?;
        self.lists.take(from.list_number(), placed.place);
        self.pairs[watch.number as usize].replace(from, to);
        Ok(())
    }
}
