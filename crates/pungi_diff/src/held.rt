ghost use Rattle.std.specs.Prelude.{◌≡◌, ◌<◌, ◌≤◌, [], ◌∷◌, ◌++◌, length, slice_index_or, IfOk, replicate};
ghost use Rattle.pungi_diff.specs.Held.{IsLatest, nth};

use crate::Constraint;
use pungi_base::Memory;
use std::alloc::Global;
use std::marker::Model;

/// Constraints in the order in which they were added. Those on one node, their `y`, are found from the latest back, so
/// that whoever lowers a node looks at no others.
#[derive(Drop)]
pub struct Held {
    room: u32,
    constraints: Vec<Constraint>,
    /// By node: the latest constraint on it.
    latest: Vec<Option<u32>>,
    /// By constraint: the latest one before it on its node.
    earlier: Vec<Option<u32>>,
}

impl Model for Held {
    ghost use Rattle.std.specs.Prelude.{vec_capacity, length};
    ghost use Rattle.pungi_diff.specs.Held.{HeldState, Linked};

    ghost Value = { HeldState };

    ghost view = { λ h. record { nodes = length h.latest.items; room = h.room; list = h.constraints.items } };

    ghost invariant = { λ h. Linked h.room h.constraints.items (vec_capacity h.constraints) h.latest.items
        h.earlier.items (vec_capacity h.earlier) };
}

impl Held {
    /// No constraint, between this many nodes, with room for so many.
    pub fn new(alloc: Global, nodes: u32, room: u32) -> Result<Held, Memory>
        requires { room ≤ 65536 }
        ensures { IfOk result (λ h. h ≡ record { nodes = nodes; room = room; list = [] }) }
    {
        let constraints = Vec::with_capacity(alloc, room as usize)?;
        let earlier = Vec::with_capacity(alloc, room as usize)?;
        let mut latest = Vec::new(alloc);
        latest.resize(nodes as usize, None)?;
        Ok(Held {
            room,
            constraints,
            latest,
            earlier,
        })
    }

    /// The constraints, lent.
    pub fn as_slice(&self) -> &[Constraint]
        ensures { result.now ≡ self.now.list }
    {
        self.constraints.as_slice()
    }

    /// Adds a constraint.
    pub fn push(&mut self, new: Constraint)
        requires room { length self.old.list < self.old.room }
        requires node { new.y < self.old.nodes }
        ensures { self.new ≡ record self.old { list = self.old.list ++ new ∷ [] } }
    {
        let number = self.constraints.len() as u32;
        let node = new.y as usize;
        self.earlier.push_reserved(self.latest[node]);
        self.latest[node] = Some(number);
        self.constraints.push_reserved(new);
    }

    /// The number of the latest constraint on a node.
    pub fn latest(&self, node: usize) -> Option<u32>
        requires { node < self.now.nodes }
        ensures { IsLatest self.now.list node (length self.now.list) result }
    {
        self.latest[node]
    }

    /// The number of the latest constraint on the same node before this one.
    pub fn earlier(&self, number: u32) -> Option<u32>
        requires { number < length self.now.list }
        ensures { IsLatest self.now.list (nth self.now.list number).y number result }
    {
        self.earlier[number as usize]
    }

    /// The constraint of a number.
    pub fn get(&self, number: u32) -> &Constraint
        requires { number < length self.now.list }
        ensures { result.now ≡ nth self.now.list number }
    {
        &self.constraints[number as usize]
    }

    /// The same constraints, between at least as many nodes.
    pub fn copy(&self, alloc: Global, nodes: u32, room: u32) -> Result<Held, Memory>
        requires nodes { self.now.nodes ≤ nodes }
        requires room { (length self.now.list ≤ room) × (room ≤ 65536) }
        ensures { IfOk result (λ h. h ≡ record { nodes = nodes; room = room; list = self.now.list }) }
    {
        let mut constraints = Vec::with_capacity(alloc, room as usize)?;
        constraints.extend_from_slice(self.constraints.as_slice())?;
        let mut earlier = Vec::with_capacity(alloc, room as usize)?;
        earlier.extend_from_slice(self.earlier.as_slice())?;
        let mut latest = Vec::from_slice(alloc, self.latest.as_slice())?;
        latest.resize(nodes as usize, None)?;
        Ok(Held {
            room,
            constraints,
            latest,
            earlier,
        })
    }
}
