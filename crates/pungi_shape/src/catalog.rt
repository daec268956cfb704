ghost use Rattle.std.specs.Prelude.{◌≡◌, ◌<◌, ◌∷◌, ◌++◌, [], None, length, map, slice_get, Some, ℕ, IfOk, OnOk};
ghost use Rattle.std.specs.BTreeMap.{insert_entry};
ghost use Rattle.std.specs.Cmp.Lexicographic.{slice_cmp};
ghost use Rattle.std.specs.Ordering.{nat_cmp};
ghost use Rattle.pungi_shape.specs.Keys.{place_of};

use pungi_base::{Memory, Seq};
use std::alloc::Global;
use std::collections::BTreeMap;
use std::marker::Model;

/// Things in the order in which they were found, with a map from the numbers of each to its place in that order.
#[derive(Drop)]
pub(crate) struct Catalog<T: Drop> {
    items: Seq<T>,
    by_key: BTreeMap<Vec<u32>, u32>,
}

impl<T: Drop> Model for Catalog<T> {
    ghost use Rattle.std.specs.Prelude.{map};
    ghost use Rattle.pungi_shape.specs.Keys.{CatalogState};

    ghost Value = { CatalogState T };

    ghost view = { λ n. record { items = n.items; entries = map (λ e. (e.0.items, e.1)) n.by_key.entries } };
}

impl<T: Drop> Catalog<T> {
    /// Nothing.
    pub(crate) fn new(alloc: Global) -> Catalog<T>
        ensures { result ≡ record { items = []; entries = [] } }
    {
        Catalog {
            items: Seq::new(Vec::new(alloc)),
            by_key: BTreeMap::new(alloc),
        }
    }

    /// What was found, in the order in which it was.
    pub(crate) fn items(&self) -> &[T]
        ensures { result.now ≡ self.now.items }
    {
        self.items.as_slice()
    }

    /// The place of what has these numbers, if it was found.
    pub(crate) fn find(&self, key: &[u32]) -> Option<u32>
        ensures { result ≡ place_of key.now self.now }
    {
        self.by_key.get(key).copied()
    }

    /// Adds what was not found before, and gives its place.
    pub(crate) fn add(&mut self, key: Vec<u32>, item: T) -> Result<u32, Memory>
        requires new { place_of key.items self.old ≡ None }
        requires few { length self.old.items < 65536 }
        ensures added { OnOk result (self.new ≡ record {
          items = self.old.items ++ item ∷ [];
          entries = insert_entry (slice_cmp nat_cmp) self.old.entries key.items (length self.old.items);
        }) }
        ensures place { IfOk result (λ place. place ≡ length self.old.items) }
    {
        let place = self.items.len() as u32;
        self.by_key.insert(key, place)?;
        self.items.push(item)?;
        Ok(place)
    }

    /// The places of all, in the order of their numbers.
    pub(crate) fn in_order(&self, alloc: Global) -> Result<Vec<u32>, Memory>
        ensures { IfOk result (λ order. order.items ≡ map (λ e. e.1) self.now.entries) }
    {
        let mut order = Vec::new(alloc);
        for place in self.by_key.values() {
            order.push(*place)?;
        }
        Ok(order)
    }
}

/// For each place in an order its rank there.
pub(crate) fn ranks(alloc: Global, order: &[u32]) -> Result<Vec<u32>, Memory>
    requires places { (i k : ℕ) → slice_get order.now i ≡ Some k → k < length order.now }
    requires once { (i j k : ℕ) → slice_get order.now i ≡ Some k → slice_get order.now j ≡ Some k → i ≡ j }
    requires few { length order.now < 65536 }
    ensures { IfOk result (λ ranks. (i k : ℕ) → slice_get order.now i ≡ Some k → slice_get ranks.items k ≡ Some i) }
{
    let mut ranks = Vec::new(alloc);
    for _ in order {
        ranks.push(0)?;
    }
    for (rank, place) in order.iter().enumerate() {
        ranks[*place as usize] = rank as u32;
    }
    Ok(ranks)
}
