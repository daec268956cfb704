ghost use Rattle.std.specs.Prelude.{◌≡◌, ◌<◌, [], Some, length, replicate, slice_get, slice_set, IfOk};
ghost use Rattle.pungi_shape.specs.Classes.{classes_of, has_list};

use crate::Shape;
use pungi_base::{Memory, Seq};
use std::alloc::Global;
use std::marker::Model;

/// For each function of a file, by its number, its exit classes in the order of their keys; or none where they are not
/// known.
#[derive(Drop)]
pub struct Classes {
    lists: Seq<Option<Seq<Shape>>>,
}

impl Model for Classes {
    ghost use Rattle.pungi_shape.specs.Classes.{ClassLists};

    ghost Value = { ClassLists };

    ghost view = { λ c. c.lists };
}

impl Classes {
    /// No exit classes, of no function.
    pub fn none(alloc: Global) -> Classes
        ensures { result ≡ [] }
    {
        Classes {
            lists: Seq::new(Vec::new(alloc)),
        }
    }

    /// The exit classes of a function that are known.
    pub fn of(&self, g: u32) -> &[Shape]
        ensures { result.now ≡ classes_of self.now g }
    {
        match self.lists.as_slice().get(g as usize) {
            Some(Some(list)) => list.as_slice(),
            _ => &[],
        }
    }

    /// An empty list for each of so many functions.
    pub(crate) fn empty(alloc: Global, count: usize) -> Result<Classes, Memory>
        ensures { IfOk result (λ c. c ≡ replicate count (Some [])) }
    {
        let mut lists = Seq::new(Vec::new(alloc));
        for _ in 0..count {
            lists.push(Some(Seq::new(Vec::new(alloc))))?;
        }
        Ok(Classes { lists })
    }

    /// Whether a function has a list.
    pub fn has(&self, g: u32) -> bool
        ensures { result ≡ has_list (slice_get self.now g) }
    {
        match self.lists.as_slice().get(g as usize) {
            Some(Some(_)) => true,
            _ => false,
        }
    }

    /// Puts what is known of a function in the place of what was.
    pub(crate) fn set(&mut self, g: u32, list: Option<Seq<Shape>>)
        requires { g < length self.old }
        ensures { self.new ≡ slice_set self.old g list }
    {
        self.lists.set(g as usize, list);
    }
}
