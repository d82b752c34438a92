//! Lists that grow at their ends, all in one vector.

ghost use Rattle.std.specs.Prelude.{◌≡◌, ◌≤◌, ◌+◌, ◌++◌, ◌∷◌, [], IfOk, OnErr, OnOk, length};
ghost use Rattle.resolve.specs.Links.{up_to};

use resolver_clause_store::narrow;
use std::alloc::{AllocError, Global};
use std::marker::Model;

/// An item, and the number of links up to the item before it in its list; 0 if it is the first.
#[derive(Clone, Copy)]
struct Link<T> {
    item: T,
    before: u32,
}

/// Lists that grow at their ends. A list is known by the number of links up to its last item, and 0 is the empty list.
///
/// In contracts, the table is the list of what ends with each link. If it would have 2^32 links, a call is refused as
/// for lack of memory.
#[derive(Drop)]
pub struct Links<T: Copy> {
    links: Vec<Link<T>>,
}

impl<T: Copy> Model for Links<T> {
    ghost use Rattle.std.specs.Prelude.{[], List};
    ghost use Rattle.resolve.specs.Links.{LeadBack, lists_after};

    ghost Value = { List (List T) };

    ghost view = { λ it. lists_after [] it.links.items };

    ghost invariant = { λ it. LeadBack 0 it.links.items };
}

impl<T: Copy> Links<T> {
    /// Returns a table without links.
    pub fn new(alloc: Global) -> Self
        ensures { result ≡ [] }
    {
        Links {
            links: Vec::new(alloc),
        }
    }

    /// Adds an item to a list, and returns the longer list. An error changes nothing.
    pub fn push(&mut self, list: u32, item: T) -> Result<u32, AllocError>
        requires { list ≤ length self.old }
        ensures added { OnOk result (self.new ≡ self.old ++ (up_to self.old list ++ item ∷ []) ∷ []) }
        ensures list { IfOk result (λ longer. longer ≡ length self.old + 1) }
        ensures unchanged { OnErr result (self.new ≡ self.old) }
    {
        let longer = narrow(self.links.len() + 1)?;
        self.links.push(Link { item, before: list })?;
        Ok(longer)
    }

    /// Returns the items of a list.
    pub fn items(&self, alloc: Global, list: u32) -> Result<Vec<T>, AllocError>
        requires { list ≤ length self.now }
        ensures { IfOk result (λ found. found.items ≡ up_to self.now list) }
    {
        let mut items = Vec::new(alloc);
        let mut rest = list as usize;
        'items: while rest > 0 {
            let link = self.links[rest - 1];
            items.push(link.item)?;
            rest = link.before as usize;
        }
        items.reverse();
        Ok(items)
    }
}
