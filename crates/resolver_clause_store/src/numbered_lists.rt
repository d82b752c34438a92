//! Numbered lists.

ghost use Rattle.std.specs.Prelude.{◌≡◌, ◌≢◌, ◌<◌, ◌≤◌, ◌^◌, ◌++◌, ◌∷◌, [], ℕ, OnErr, OnOk, length, slice_set};
ghost use Rattle.std.specs.List.{swap_remove};
ghost use Rattle.resolver_clause_store.specs.NumberedLists.{PutsList, items_at, items_of, list_of};

use std::alloc::{AllocError, Global};
use std::marker::Model;

/// A list for each number, which is empty until something is added to it. In contracts, they are the list of the lists.
#[derive(Drop)]
pub struct NumberedLists<T: Copy> {
    alloc: Global,
    lists: Vec<Vec<T>>,
}

impl<T: Copy> Model for NumberedLists<T> {
    ghost use Rattle.std.specs.Prelude.{List};
    ghost use Rattle.resolver_clause_store.specs.NumberedLists.{items_of};

    ghost Value = { List (List T) };

    ghost view = { λ l. items_of l.lists.items };
}

/// Adds empty lists, up to this many.
fn add_lists<T: Copy>(
    alloc: Global,
    lists: &mut Vec<Vec<T>>,
    count: usize,
) -> Result<(), AllocError>
    ensures more { length lists.old.items ≤ length lists.new.items }
    ensures enough { OnOk result (count ≤ length lists.new.items) }
    ensures exact { OnOk result (length lists.old.items ≤ count → length lists.new.items ≡ count) }
    ensures same { (list : ℕ) → list_of (items_of lists.new.items) list ≡ list_of (items_of lists.old.items) list }
{
    'lists: while lists.len() < count {
        lists.push(Vec::new(alloc))?;
    }
    Ok(())
}

/// Appends an item to a list.
fn push_at<T: Copy>(lists: &mut Vec<Vec<T>>, number: usize, item: T) -> Result<(), AllocError>
    requires { number < length lists.old.items }
    ensures pushed { OnOk result (PutsList (items_of lists.old.items) (items_of lists.new.items) number
        (items_at lists.old.items number ++ item ∷ [])) }
    ensures unchanged { OnErr result (items_of lists.new.items ≡ items_of lists.old.items) }
{
    lists[number].push(item)?;
    Ok(())
}

/// Removes an item of a list, and puts the last one in its place.
fn take_at<T: Copy>(lists: &mut Vec<Vec<T>>, number: usize, place: usize)
    requires number { number < length lists.old.items }
    requires place { place < length (items_at lists.old.items number) }
    ensures { (any : T) → PutsList (items_of lists.old.items) (items_of lists.new.items) number
        (swap_remove (items_at lists.old.items number) place any) }
{
    let _taken = lists[number].swap_remove(place);
}

/// Replaces an item of a list.
fn set_at<T: Copy>(lists: &mut Vec<Vec<T>>, number: usize, place: usize, item: T)
    requires number { number < length lists.old.items }
    requires place { place < length (items_at lists.old.items number) }
    ensures { PutsList (items_of lists.old.items) (items_of lists.new.items) number
        (slice_set (items_at lists.old.items number) place item) }
{
    lists[number][place] = item;
}

/// Removes the items of a list.
fn clear_at<T: Copy>(lists: &mut Vec<Vec<T>>, number: usize)
    requires { number < length lists.old.items }
    ensures { PutsList (items_of lists.old.items) (items_of lists.new.items) number [] }
{
    lists[number].clear();
}

impl<T: Copy> NumberedLists<T> {
    /// Returns no lists.
    pub fn new(alloc: Global) -> Self
        ensures { result ≡ [] }
    {
        NumberedLists {
            alloc,
            lists: Vec::new(alloc),
        }
    }

    /// Returns the number of lists.
    pub fn len(&self) -> usize
        ensures count { result ≡ length self.now }
        ensures few { result < 2 ^ 63 }
    {
        self.lists.len()
    }

    /// Returns the items of a list.
    pub fn at(&self, number: usize) -> &[T]
        ensures { result.now ≡ list_of self.now number }
    {
        match self.lists.get(number) {
            Some(list) => list.as_slice(),
            None => &[],
        }
    }

    /// Adds empty lists, up to this many.
    pub fn grow(&mut self, count: usize) -> Result<(), AllocError>
        requires { length self.old ≤ count }
        ensures size { OnOk result (length self.new ≡ count) }
        ensures same { (list : ℕ) → list_of self.new list ≡ list_of self.old list }
    {
        add_lists(self.alloc, &mut self.lists, count)?;
        Ok(())
    }

    /// Appends an item to a list. An error changes no list.
    pub fn push(&mut self, number: usize, item: T) -> Result<(), AllocError>
        requires { number < length self.old }
        ensures pushed { OnOk result (PutsList self.old self.new number (list_of self.old number ++ item ∷ [])) }
        ensures unchanged { OnErr result (self.new ≡ self.old) }
    {
        push_at(&mut self.lists, number, item)?;
        Ok(())
    }

    /// Appends an item to a list, which may lie behind the others. An error changes no list.
    pub fn add(&mut self, number: usize, item: T) -> Result<(), AllocError>
        ensures here { OnOk result (list_of self.new number ≡ list_of self.old number ++ item ∷ []) }
        ensures others { (other : ℕ) → other ≢ number → list_of self.new other ≡ list_of self.old other }
    {
        let Some(count) = number.checked_add(1) else {
            return Err(AllocError);
        };
        add_lists(self.alloc, &mut self.lists, count)?;
        push_at(&mut self.lists, number, item)?;
        Ok(())
    }

    /// Replaces an item of a list.
    pub fn set(&mut self, number: usize, place: usize, item: T)
        requires number { number < length self.old }
        requires place { place < length (list_of self.old number) }
        ensures { PutsList self.old self.new number (slice_set (list_of self.old number) place item) }
    {
        set_at(&mut self.lists, number, place, item);
    }

    /// Removes an item of a list, and puts the last one in its place.
    pub fn take(&mut self, number: usize, place: usize)
        requires number { number < length self.old }
        requires place { place < length (list_of self.old number) }
        ensures { (any : T) → PutsList self.old self.new number (swap_remove (list_of self.old number) place any) }
    {
        take_at(&mut self.lists, number, place);
    }

    /// Moves the items of a list to the end of another list.
    pub fn take_all(&mut self, number: usize, items: &mut Vec<T>) -> Result<(), AllocError>
        ensures items { OnOk result (items.new.items ≡ items.old.items ++ list_of self.old number) }
        ensures here { OnOk result (list_of self.new number ≡ []) }
        ensures others { (other : ℕ) → other ≢ number → list_of self.new other ≡ list_of self.old other }
    {
        if number >= self.lists.len() {
            return Ok(());
        }
        items.extend_from_slice(self.lists[number].as_slice())?;
        clear_at(&mut self.lists, number);
        Ok(())
    }
}
