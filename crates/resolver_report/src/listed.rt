//! Maps from keys to lists.

ghost use Rattle.std.specs.Prelude.{◌≡◌, ◌++◌, IfErr, OnOk};
ghost use Rattle.std.specs.HashMap.{get};
ghost use Rattle.resolver_report.specs.Listed.{items_if, optional_items};

use resolver_clause_store::Exhausted;
use std::alloc::Global;
use std::collections::HashMap;
use std::hash::Hash;

/// Appends elements to the list of a key, which it makes if there is none.
pub fn extend_at<K: Eq + Hash + Drop, T: Copy + Drop>(
    alloc: Global,
    lists: &mut HashMap<K, Vec<T>>,
    key: K,
    more: &[T],
) -> Result<(), Exhausted>
    ensures added { OnOk result ((k : K) → optional_items (get K.eq lists.new k) ≡ optional_items (get K.eq lists.old k) ++ items_if (K.eq key k) more.now) }
    ensures memory { IfErr result (λ e. e ≡ Exhausted.Memory) }
{
    match lists.get_mut(&key) {
        Some(list) => {
            list.extend_from_slice(more)?;
            Ok(())
        }
        None => {
            lists.insert(key, Vec::from_slice(alloc, more)?)?;
            Ok(())
        }
    }
}
