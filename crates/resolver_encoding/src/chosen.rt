//! The solvables that a trail makes true.

ghost use Rattle.std.specs.Prelude.{Contains, IfErr, IfOk, List, MatchBool, OnOk, length, ℕ, ◌++◌, ◌+◌, ◌<◌, ◌∷◌, ◌≡◌, ◌≤◌, []};
ghost use Rattle.std.specs.Option.{option_to_list};
ghost use Rattle.resolver_clause_store.specs.Laws.{IsIdentity};
ghost use Rattle.resolver_clause_store.specs.TrailView.{length_of, variable_at, variable_count};
ghost use Rattle.resolver_clause_store.specs.Variables.{AreDistinct, origins_in};
ghost use Rattle.resolver_clause_store.specs.declared.Origin.{Origin as OriginOf};
ghost use Rattle.resolver_clause_store.specs.declared.Trail.{Trail as TrailOf};
ghost use Rattle.resolver_encoding.specs.Encodings.{Extends};
ghost use Rattle.resolver_encoding.specs.Trails.{origin_at, solvable_found, solvable_if, value_of};

use indexmap::IndexSet;
use resolver_clause_store::{Exhausted, Literal, Origin, Trail, Variables, narrow};
use std::alloc::Global;
use std::hash::Hash;

/// Returns whether the entry at a place is true.
fn is_true_at(trail: &Trail, place: usize) -> bool
    requires { place < length_of trail.now }
    ensures { result ≡ value_of trail.now (variable_at trail.now place) }
{
    let literal = Literal::new(trail.variable_at(place), true);
    match trail.value(literal) {
        Some(value) => value,
        None => false,
    }
}

/// Returns the solvable that a variable stands for, if any.
fn as_solvable<N: Drop, S: Drop>(origin: Option<Origin<N, S>>) -> Option<S>
    ensures { result ≡ solvable_found origin }
{
    match origin {
        Some(Origin::Solvable(solvable)) => Some(solvable),
        Some(Origin::Root | Origin::Helper(_)) => None,
        None => None,
    }
}

/// Returns the solvable that the entry at a place makes true, if any.
fn solvable_at<N: Copy + Eq + Hash + Drop, S: Copy + Eq + Hash + Drop>(
    variables: &Variables<N, S>,
    trail: &Trail,
    place: usize,
) -> Option<S>
    requires { place < length_of trail.now }
    ensures { let v = variable_at trail.now place in
        option_to_list result ≡ solvable_if (origin_at (origins_in variables.now) v) (value_of trail.now v) }
{
    if !is_true_at(trail, place) {
        return None;
    }
    as_solvable(variables.origin(trail.variable_at(place)))
}

/// Appends a member, unless the set has it.
fn put<T: Copy + Eq + Hash + Drop>(set: &mut IndexSet<T>, member: T) -> Result<(), Exhausted>
    requires { IsIdentity T.eq }
    ensures last { OnOk result ((Contains set.old.keys member → ⊥) → set.new.keys ≡ set.old.keys ++ member ∷ []) }
    ensures more { OnOk result (Extends set.old.keys set.new.keys) }
    ensures memory { IfErr result (λ e. e ≡ Exhausted.Memory) }
{
    set.insert(member)?;
    Ok(())
}

/// Appends the member that was found, if any, unless the set has it.
fn put_found<T: Copy + Eq + Hash + Drop>(
    set: &mut IndexSet<T>,
    found: Option<T>,
) -> Result<(), Exhausted>
    requires { IsIdentity T.eq }
    ensures last { OnOk result (((t : T) → Contains (option_to_list found) t → Contains set.old.keys t → ⊥) → set.new.keys ≡ set.old.keys ++
        option_to_list found) }
    ensures more { OnOk result (Extends set.old.keys set.new.keys) }
    ensures memory { IfErr result (λ e. e ≡ Exhausted.Memory) }
{
    match found {
        Some(member) => {
            put(set, member)?;
            Ok(())
        }
        None => Ok(()),
    }
}

/// The solvables that the first entries of a trail make true, in the order of the trail.
///
/// An entry is followed once: when the trail is cut, the solvables of the entries that are left stay.
#[derive(Drop)]
pub struct Chosen<S: Copy + Eq + Hash + Drop> {
    solvables: IndexSet<S>,
    /// The number of solvables before each entry that was followed.
    counts: Vec<u32>,
}

impl<S: Copy + Eq + Hash + Drop> Chosen<S> {
    ghost use Rattle.resolver_encoding.specs.Trails.{Follows, chosen_in};

    /// Returns an empty list, which follows no entry of any trail.
    pub fn new<N>(alloc: Global) -> Self
        ensures none { chosen_in result ≡ [] }
        ensures follows { (origins : List (OriginOf N S)) (trail : TrailOf) → Follows result origins trail 0 }
    {
        Chosen {
            solvables: IndexSet::new(alloc),
            counts: Vec::new(alloc),
        }
    }

    /// Returns the number of chosen solvables.
    pub fn len(&self) -> usize
        ensures { result ≡ length (chosen_in self.now) }
    {
        self.solvables.len()
    }

    /// Returns whether no solvable is chosen.
    pub fn is_empty(&self) -> bool
        ensures { MatchBool result (chosen_in self.now ≡ []) (0 < length (chosen_in self.now)) }
    {
        self.solvables.is_empty()
    }

    /// Returns the set of chosen solvables.
    pub fn solvables(&self) -> &IndexSet<S>
        ensures { result.now.keys ≡ chosen_in self.now }
    {
        &self.solvables
    }

    /// Returns a list of the chosen solvables.
    pub fn to_vec(&self, alloc: Global) -> Result<Vec<S>, Exhausted>
        ensures list { IfOk result (λ list. list.items ≡ chosen_in self.now) }
        ensures memory { IfErr result (λ e. e ≡ Exhausted.Memory) }
    {
        let list = Vec::from_slice(alloc, self.solvables.as_slice())?;
        Ok(list)
    }

    /// Forgets the entries from a place on.
    pub fn cut<N>(&mut self, kept: usize)
        ensures { (origins : List (OriginOf N S)) (trail : TrailOf) (n : ℕ) →
            Follows self.old origins trail n → kept ≤ n → Follows self.new origins trail kept }
    {
        if kept >= self.counts.len() {
            return;
        }
        let count = self.counts[kept];
        self.solvables.truncate(count as usize);
        self.counts.truncate(kept);
    }

    /// Follows the entry at the first place that was not followed.
    fn follow_place<N: Copy + Eq + Hash + Drop>(
        &mut self,
        variables: &Variables<N, S>,
        trail: &Trail,
        place: usize,
    ) -> Result<(), Exhausted>
        requires identity { IsIdentity S.eq }
        requires distinct { AreDistinct (origins_in variables.now) }
        requires size { variable_count trail.now ≡ length (origins_in variables.now) }
        requires inside { place < length_of trail.now }
        ensures follows { let o = origins_in variables.now in OnOk result
            (Follows self.old o trail.now place → Follows self.new o trail.now (place + 1)) }
        ensures more { OnOk result (Extends (chosen_in self.old) (chosen_in self.new)) }
        ensures memory { IfErr result (λ e. e ≡ Exhausted.Memory) }
    {
        let count = narrow(self.solvables.len())?;
        self.counts.push(count)?;
        put_found(&mut self.solvables, solvable_at(variables, trail, place))?;
        Ok(())
    }

    /// Follows the trail to its end.
    ///
    /// After a refusal the list may have some of the new solvables, and is of no more use.
    pub fn follow<N: Copy + Eq + Hash + Drop>(
        &mut self,
        variables: &Variables<N, S>,
        trail: &Trail,
    ) -> Result<(), Exhausted>
        requires identity { IsIdentity S.eq }
        requires distinct { AreDistinct (origins_in variables.now) }
        requires size { variable_count trail.now ≡ length (origins_in variables.now) }
        ensures follows { let o = origins_in variables.now in let t = trail.now in OnOk result
            ((n : ℕ) → Follows self.old o t n → Follows self.new o t (length_of t)) }
        ensures more { OnOk result (Extends (chosen_in self.old) (chosen_in self.new)) }
        ensures memory { IfErr result (λ e. e ≡ Exhausted.Memory) }
    {
        for place in self.counts.len()..trail.len() {
            self.follow_place(variables, trail, place)?;
        }
        Ok(())
    }
}
