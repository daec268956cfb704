ghost use Rattle.std.specs.Prelude.{◌≡◌, ◌<◌, [], IfOk};
ghost use Rattle.pungi_links.specs.Pending.{IsPending, Puts, Takes};

use crate::Chains;
use pungi_base::Memory;
use std::alloc::Global;
use std::marker::Model;

/// A list without repeats of numbers below a limit, first in, first out.
#[derive(Drop)]
pub struct Pending {
    /// The ring of `end` leads through the list. Every other number is alone.
    links: Chains,
    end: u32,
}

impl Model for Pending {
    ghost use Rattle.pungi_links.specs.Pending.{IsQueue, PendingState, listed};

    ghost Value = { PendingState };

    ghost view = { λ p. record { limit = p.end; list = listed p.links p.end } };

    ghost invariant = { λ p. IsQueue p.links p.end };
}

impl Pending {
    /// The empty list, for numbers below n.
    pub fn new(alloc: Global, n: u32) -> Result<Pending, Memory>
        ensures { IfOk result (λ p. p ≡ record { limit = n; list = [] }) }
    {
        let links = Chains::with_count(alloc, n as usize + 1)?;
        Ok(Pending { links, end: n })
    }

    /// Puts a number last, if it isn't in the list, and returns whether it wasn't.
    pub fn put(&mut self, i: u32) -> bool
        requires { i < self.old.limit }
        ensures puts { Puts self.old i self.new result }
        ensures pending { IsPending self.new }
    {
        if self.links.next(i) != i {
            return false;
        }
        self.links.splice(self.end, i);
        true
    }

    /// The first number, removed.
    pub fn take(&mut self) -> Option<u32>
        ensures takes { Takes self.old self.new result }
        ensures pending { IsPending self.new }
    {
        let first = self.links.next(self.end);
        if first == self.end {
            return None;
        }
        self.links.take_out(first);
        Some(first)
    }
}
