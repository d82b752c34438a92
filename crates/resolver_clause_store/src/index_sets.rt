//! Sets that keep the order in which members were added.

ghost use Rattle.std.specs.Prelude.{◌≡◌, [], ◌∷◌, ◌++◌, Contains, IfErr, IfNone, IfOk, IfSome, MatchBool, Some, length, slice_get, true, ◌<◌};
ghost use Rattle.resolver_clause_store.specs.Laws.{IsIdentity};

use crate::data::Exhausted;
use indexmap::IndexSet;
use std::hash::Hash;

/// Returns whether `member` is in the set.
pub fn is_among<T: Eq + Hash>(set: &IndexSet<T>, member: &T) -> bool
    requires { IsIdentity T.eq }
    ensures { MatchBool result (Contains set.now.keys member.now) (Contains set.now.keys member.now → ⊥) }
{
    set.contains(member)
}

/// Returns the place of a member, if it is in the set.
pub fn place_of<T: Eq + Hash>(set: &IndexSet<T>, member: &T) -> Option<usize>
    requires { IsIdentity T.eq }
    ensures place { IfSome result (λ i. slice_get set.now.keys i ≡ Some member.now) }
    ensures inside { IfSome result (λ i. i < length set.now.keys) }
    ensures absent { IfNone result (Contains set.now.keys member.now → ⊥) }
{
    match set.get_index_of(member) {
        Some(index) => Some(index),
        None => None,
    }
}

/// Appends a new member.
pub fn append<T: Copy + Eq + Hash + Drop>(set: &mut IndexSet<T>, member: T) -> Result<(), Exhausted>
    requires identity { IsIdentity T.eq }
    requires absent { Contains set.old.keys member → ⊥ }
    ensures keys { IfOk result (λ _. set.new.keys ≡ set.old.keys ++ member ∷ []) }
    ensures unchanged { IfErr result (λ _. set.new.keys ≡ set.old.keys) }
    ensures memory { IfErr result (λ e. e ≡ Exhausted.Memory) }
{
    set.insert(member)?;
    Ok(())
}
