//! Classes of alike nodes, by their keys.

ghost use Rattle.std.specs.Prelude.{◌≡◌, ◌<◌, List, IfOk, IfErr, OnOk, length};
ghost use Rattle.resolver_report.specs.Classes.{AddsMember, HasClasses};
ghost use Rattle.resolver_report.specs.Keys.{AreKeysOf, key_view};
ghost use Rattle.resolver_report.specs.Merging.{Key, class_in};

use crate::graph::Side;
use crate::keys::NodeKey;
use crate::listed::extend_at;
use resolver_clause_store::Exhausted;
use std::alloc::Global;
use std::collections::HashMap;

/// A copy of a key.
fn copy_of(alloc: Global, key: &NodeKey) -> Result<NodeKey, Exhausted>
    ensures value { IfOk result (λ k. key_view k ≡ key_view key.now) }
    ensures memory { IfErr result (λ e. e ≡ Exhausted.Memory) }
{
    let name = key.name.clone()?;
    let sides_in = Vec::from_slice(alloc, &key.sides_in)?;
    let sides_out = Vec::from_slice(alloc, &key.sides_out)?;
    Ok(NodeKey {
        name,
        sides_in,
        sides_out,
    })
}

/// Appends a node to the class of its key. A node without a key joins none.
fn add_member(
    alloc: Global,
    classes: &mut HashMap<NodeKey, Vec<usize>>,
    key: &Option<NodeKey>,
    n: usize,
) -> Result<(), Exhausted>
    ensures added { OnOk result (AddsMember ⟦<NodeKey as PartialEq>⟧.eq classes.old classes.new key.now n) }
    ensures memory { IfErr result (λ e. e ≡ Exhausted.Memory) }
{
    match key {
        Some(key) => {
            let key = copy_of(alloc, key)?;
            extend_at(alloc, classes, key, &[n])?;
            Ok(())
        }
        None => Ok(()),
    }
}

/// Groups the nodes by key, each class in node order.
pub fn classes_of(
    alloc: Global,
    keys: &[Option<NodeKey>],
) -> Result<HashMap<NodeKey, Vec<usize>>, Exhausted>
    ensures value { IfOk result (HasClasses ⟦<NodeKey as PartialEq>⟧.eq keys.now) }
    ensures memory { IfErr result (λ e. e ≡ Exhausted.Memory) }
{
    let mut classes = HashMap::new(alloc);
    for n in 0..keys.len() {
        add_member(alloc, &mut classes, &keys[n], n)?;
    }
    Ok(classes)
}

/// The class of a node, in node order. It is empty for a node without a key.
pub fn class_at<'a>(
    keys: &[Option<NodeKey>],
    classes: &'a HashMap<NodeKey, Vec<usize>>,
    n: usize,
) -> &'a [usize]
    requires in_range { n < length keys.now }
    requires classes { HasClasses ⟦<NodeKey as PartialEq>⟧.eq keys.now classes.now }
    ensures { (ks : List Key) → AreKeysOf ⟦<Side as Ord>⟧.cmp ks keys.now → result.now ≡ class_in ks n }
{
    match &keys[n] {
        Some(key) => match classes.get(key) {
            Some(class) => class,
            None => &[],
        },
        None => &[],
    }
}
