// Values on the heap.
ghost use Rattle.std.specs.Prelude.{◌≡◌, [], ◌∷◌, ◌++◌, IfOk, OnOk, OnErr};

use crate::Memory;
use std::alloc::Global;
use std::marker::Model;

/// Values on the heap, which contracts see as a list.
#[derive(Drop)]
pub struct List<T> {
    vec: Vec<T>,
}

impl<T> Model for List<T> {
    ghost use Rattle.std.specs.Prelude.{List as Items};

    ghost Value = { Items T };

    ghost view = { λ list. list.vec.items };
}

impl<T> List<T> {
    /// An empty list.
    pub fn new(alloc: Global) -> Self
        ensures { result ≡ [] }
    {
        List {
            vec: Vec::new(alloc),
        }
    }

    /// The list of a vector's items.
    pub fn from_vec(vec: Vec<T>) -> Self
        ensures { result ≡ vec.items }
    {
        List { vec }
    }

    /// The items, in a vector.
    pub fn into_vec(self) -> Vec<T>
        ensures { result.items ≡ self }
    {
        let List { vec } = self;
        vec
    }

    /// The items.
    pub fn as_slice(&self) -> &[T]
        ensures { result.now ≡ self.now }
    {
        &self.vec
    }
}

impl<T: Drop> List<T> {
    /// Adds a value at the end. After an `Err` the list is unchanged.
    pub fn push(&mut self, item: T) -> Result<(), Memory>
        ensures ok { OnOk result (self.new ≡ self.old ++ item ∷ []) }
        ensures err { OnErr result (self.new ≡ self.old) }
    {
        self.vec.push(item)?;
        Ok(())
    }
}

impl<T: Copy> List<T> {
    /// A list of its own with these items.
    pub fn of(alloc: Global, items: &[T]) -> Result<Self, Memory>
        ensures { IfOk result (λ list. list ≡ items.now) }
    {
        let vec: Vec<T> = items.iter().copied().collect(alloc)?;
        Ok(List { vec })
    }

    /// Adds items at the end. After an `Err` the list is unchanged.
    pub fn extend_from_slice(&mut self, items: &[T]) -> Result<(), Memory>
        ensures ok { OnOk result (self.new ≡ self.old ++ items.now) }
        ensures err { OnErr result (self.new ≡ self.old) }
    {
        self.vec.extend_from_slice(items)?;
        Ok(())
    }
}
