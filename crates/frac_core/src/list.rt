//! Lists that contracts see as their items.
ghost use Rattle.std.specs.Prelude.{◌≡◌, ◌<◌, ◌++◌, ◌∷◌, [], length, slice_index_or, slice_set, IfErr, IfOk, OnErr, OnOk};

use crate::OutOfMemory;
use std::alloc::Global;
use std::marker::Model;

/// A vector that contracts see as the list of its items.
#[derive(Drop)]
pub struct List<T> {
    contents: Vec<T>,
}

impl<T> Model for List<T> {
    ghost use Rattle.std.specs.Prelude.{List as list};

    ghost Value = { list T };

    ghost view = { λ a. a.contents.items };
}

impl<T> List<T> {
    /// The empty list, which takes no memory.
    pub fn new(alloc: Global) -> List<T>
        ensures { result ≡ [] }
    {
        List {
            contents: Vec::new(alloc),
        }
    }

    /// Puts an item at the end. Where no memory is found, the item is handed back and the list
    /// stays as it was.
    pub fn push(&mut self, item: T) -> Result<(), T>
        ensures pushed { OnOk result (self.new ≡ self.old ++ item ∷ []) }
        ensures unchanged { OnErr result (self.new ≡ self.old) }
        ensures handed_back { IfErr result (λ back. back ≡ item) }
    {
        match self.contents.push(item) {
            Ok(()) => Ok(()),
            Err(failed) => Err(failed.value),
        }
    }

    /// Puts an item at the end, or drops it where no memory is found; then the list stays as it was.
    pub fn add(&mut self, item: T) -> Result<(), OutOfMemory>
    where
        T: Drop,
        ensures added { OnOk result (self.new ≡ self.old ++ item ∷ []) }
        ensures unchanged { OnErr result (self.new ≡ self.old) }
    {
        match self.push(item) {
            Ok(()) => Ok(()),
            Err(_) => Err(OutOfMemory),
        }
    }

    /// The list of one item.
    pub fn one(alloc: Global, item: T) -> Result<List<T>, OutOfMemory>
    where
        T: Drop,
        ensures { IfOk result (λ list. list ≡ item ∷ []) }
    {
        let mut list = List::new(alloc);
        list.add(item)?;
        Ok(list)
    }

    /// The same items in a list of their own.
    pub fn copy(alloc: Global, items: &[T]) -> Result<List<T>, OutOfMemory>
    where
        T: Copy,
        ensures { IfOk result (λ list. list ≡ items.now) }
    {
        match Vec::from_slice(alloc, items) {
            Ok(contents) => Ok(List { contents }),
            Err(_) => Err(OutOfMemory),
        }
    }

    /// The items in order.
    pub fn as_slice(&self) -> &[T]
        ensures { result.now ≡ self.now }
    {
        self.contents.as_slice()
    }

    /// Puts an item at a place, counted from 0, and gives the one that stood there.
    pub fn replace(&mut self, place: u32, item: T) -> T
        requires { place < length self.old }
        ensures old { result ≡ slice_index_or self.old place result }
        ensures new { self.new ≡ slice_set self.old place item }
    {
        std::mem::replace(&mut self.contents[place as usize], item)
    }

    /// The items in order, as a vector.
    pub fn into_vec(self) -> Vec<T>
        ensures { result.items ≡ self }
    {
        self.contents
    }
}

impl<T> From<Vec<T>> for List<T> {
    ghost from_gives = { λ v l. l ≡ v.items };

    /// The list of a vector's items; it takes no memory.
    fn from(contents: Vec<T>) -> List<T> {
        List { contents }
    }
}
