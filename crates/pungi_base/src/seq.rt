ghost use Rattle.std.specs.Prelude.{◌≡◌, ◌==◌, ◌<◌, ◌∷◌, ◌++◌, [], List, length, slice_set, OnOk, OnErr, IfOk, IfNone};
ghost use Rattle.std.specs.Option.{option_to_list};

use crate::Memory;
use std::alloc::Global;
use std::marker::Model;

/// A list of values that contracts see as such.
#[derive(Debug, Drop)]
pub struct Seq<T> {
    items: Vec<T>,
}

impl<T> Model for Seq<T> {
    ghost Value = { List T };

    ghost view = { λ s. s.items.items };
}

impl<T> Seq<T> {
    /// The list of these values, whose memory it takes.
    pub fn new(items: Vec<T>) -> Self
        ensures { result ≡ items.items }
    {
        Seq { items }
    }

    /// Its values, with their memory.
    pub fn into_items(self) -> Vec<T>
        ensures { result.items ≡ self }
    {
        let Seq { items } = self;
        items
    }

    /// Its values, lent.
    pub fn as_slice(&self) -> &[T]
        ensures { result.now ≡ self.now }
    {
        self.items.as_slice()
    }

    /// How many values there are.
    pub fn len(&self) -> usize
        ensures { result ≡ length self.now }
    {
        self.items.len()
    }

    /// Whether it is empty.
    pub fn is_empty(&self) -> bool
        ensures { result ≡ (length self.now == 0) }
    {
        self.items.is_empty()
    }

    /// Adds a value at the end.
    pub fn push(&mut self, value: T) -> Result<(), Memory>
    where
        T: Drop,
        ensures ok { OnOk result (self.new ≡ self.old ++ value ∷ []) }
        ensures err { OnErr result (self.new ≡ self.old) }
    {
        self.items.push(value)?;
        Ok(())
    }

    /// Puts a value in the place of another.
    pub fn set(&mut self, index: usize, value: T)
    where
        T: Drop,
        requires { index < length self.old }
        ensures { self.new ≡ slice_set self.old index value }
    {
        self.items[index] = value;
    }

    /// The last value, removed.
    pub fn pop(&mut self) -> Option<T>
        ensures items { self.old ≡ self.new ++ option_to_list result }
        ensures empty { IfNone result (self.old ≡ []) }
    {
        self.items.pop()
    }

    /// The same values.
    pub fn copy(&self, alloc: Global) -> Result<Seq<T>, Memory>
    where
        T: Copy,
        ensures { IfOk result (λ s. s ≡ self.now) }
    {
        let items = Vec::from_slice(alloc, self.items.as_slice())?;
        Ok(Seq { items })
    }
}
