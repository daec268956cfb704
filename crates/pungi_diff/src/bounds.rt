ghost use Rattle.std.specs.Prelude.{◌≡◌, ℕ, ◌+◌, ◌<◌, ◌≤◌, ◌^◌, ℤ, pos, neg_ℤ, ◌≤ℤ◌, length, [], IfOk, vec_capacity};
ghost use Rattle.std.specs.Prelude.{replicate};
ghost use Rattle.pungi_diff.specs.Bounds.{Adds, Extends, Kept, MeetsIf, Moves, Solution};
ghost use Rattle.pungi_diff.specs.Constraint.{at, IsSmall, IsStep};

use crate::constraint::NO_CONSTRAINT;
use crate::held::Held;
use crate::round::trace;
use crate::search::{apply, begin, search};
use crate::{Constraint, Cycle};
use pungi_base::Memory;
use std::alloc::Global;
use std::marker::Model;

/// Difference-bound constraints that some values meet, with such values. The nodes are numbered from 0.
#[derive(Drop)]
pub struct Bounds {
    held: Held,
    value: Vec<i128>,
    gap: Vec<i128>,
    rank: Vec<u32>,
    via: Vec<Constraint>,
    fringe: Vec<u32>,
    round: Vec<Constraint>,
}

impl Model for Bounds {
    ghost use Rattle.std.specs.Prelude.{vec_capacity};
    ghost use Rattle.pungi_diff.specs.Bounds.{State, Kept, Roomy};

    ghost Value = { State };

    ghost view = { λ b. record {
      nodes = b.held.nodes;
      room = b.held.room;
      held = b.held.list;
      cycle = b.round.items;
    } };

    ghost invariant = { λ b. Kept b.held.list b.value.items
        × Roomy b.held.nodes b.value.items b.gap.items b.rank.items b.via.items (vec_capacity b.fringe)
        (vec_capacity b.round) };
}

fn is_met(value: &[i128], new: &Constraint) -> bool
    requires within { (new.now.x < length value.now) × (new.now.y < length value.now) }
    requires y_small { IsSmall (at value.now new.now.y) }
    requires c { IsStep new.now }
    ensures { MeetsIf (at value.now) new.now result }
{
    value[new.x as usize] <= value[new.y as usize] + new.c
}

/// Lowers the values so that they meet the new constraint too, or writes the cycle that forbids it.
fn extend(
    held: &Held,
    value: &mut [i128],
    gap: &mut [i128],
    rank: &mut [u32],
    via: &mut [Constraint],
    fringe: &mut Vec<u32>,
    new: &Constraint,
    round: &mut Vec<Constraint>,
) -> bool
    requires nodes { held.now.nodes ≡ length value.old }
    requires kept { Kept held.now.list value.old }
    requires gaps { length gap.old ≡ length value.old }
    requires ranks { length rank.old ≡ length value.old }
    requires vias { length via.old ≡ length value.old }
    requires new_in { (new.now.x < length value.old) × (new.now.y < length value.old) }
    requires c { IsStep new.now }
    requires fringe_room { length value.old ≤ vec_capacity fringe.old }
    requires round_room { length value.old < vec_capacity round.old }
    ensures extends { Extends held.now.list new.now value.new round.old.items round.new.items result }
    ensures fringe_room { vec_capacity fringe.new ≡ vec_capacity fringe.old }
    ensures round_room { vec_capacity round.new ≡ vec_capacity round.old }
{
    if is_met(value, new) {
        return true;
    }
    begin(value, gap, rank, fringe, new);
    if search(held, value, gap, rank, via, fringe, new) {
        apply(value, gap);
        return true;
    }
    trace(held.as_slice(), value, gap, rank, via, new, round);
    false
}

fn filled<T: Copy>(alloc: Global, count: usize, value: T) -> Result<Vec<T>, Memory>
    ensures { IfOk result (λ v. v.items ≡ replicate count value) }
{
    let mut filled = Vec::new(alloc);
    filled.resize(count, value)?;
    Ok(filled)
}

impl Bounds {
    /// No constraint is held. There is room for `room` of them.
    pub fn new(alloc: Global, nodes: u32, room: u32) -> Result<Bounds, Memory>
        requires some { 0 < nodes }
        requires few { (nodes ≤ 65536) × (room ≤ 65536) }
        ensures { IfOk result (λ b. b ≡ record { nodes = nodes; room = room; held = []; cycle = [] }) }
    {
        let count = nodes as usize;
        let round = Vec::with_capacity(alloc, count + 1)?;
        let fringe = Vec::with_capacity(alloc, count)?;
        let value = filled(alloc, count, 0i128)?;
        let gap = filled(alloc, count, 0i128)?;
        let rank = filled(alloc, count, 0u32)?;
        let via = filled(alloc, count, NO_CONSTRAINT)?;
        let held = Held::new(alloc, nodes, room)?;
        Ok(Bounds {
            held,
            value,
            gap,
            rank,
            via,
            fringe,
            round,
        })
    }

    /// Holds `x - y <= c` besides the others.
    pub fn add(&mut self, x: u32, y: u32, c: i128) -> Result<(), Cycle>
        requires nodes { (x < self.old.nodes) × (y < self.old.nodes) }
        requires c { (c ≤ℤ pos (2 ^ 65)) × (neg_ℤ (pos (2 ^ 65)) ≤ℤ c) }
        requires room { length self.old.held < self.old.room }
        ensures { Adds self.old (record { x = x; y = y; c = c }) self.new result }
    {
        self.hold(Constraint { x, y, c })
    }

    fn hold(&mut self, new: Constraint) -> Result<(), Cycle>
        requires nodes { (new.x < self.old.nodes) × (new.y < self.old.nodes) }
        requires c { IsStep new }
        requires room { length self.old.held < self.old.room }
        ensures { Adds self.old new self.new result }
    {
        if extend(
            &self.held,
            self.value.as_mut_slice(),
            self.gap.as_mut_slice(),
            self.rank.as_mut_slice(),
            self.via.as_mut_slice(),
            &mut self.fringe,
            &new,
            &mut self.round,
        ) {
            self.held.push(new);
            Ok(())
        } else {
            Err(Cycle)
        }
    }

    /// The cycle of the last refusal, empty where there was none.
    pub fn cycle(&self) -> &[Constraint]
        ensures { result.now ≡ self.now.cycle }
    {
        self.round.as_slice()
    }

    /// Values that meet all constraints held, by node, with node 0 at 0.
    pub fn model(&self, alloc: Global) -> Result<Vec<i128>, Memory>
        ensures { IfOk result (λ v. Solution self.now v.items) }
    {
        moved_values(alloc, self.value.as_slice())
    }

    /// The same constraints over at least as many nodes, with another room.
    pub fn copy(&self, alloc: Global, nodes: u32, room: u32) -> Result<Bounds, Memory>
        requires nodes { (self.now.nodes ≤ nodes) × (nodes ≤ 65536) }
        requires room { (length self.now.held ≤ room) × (room ≤ 65536) }
        ensures { IfOk result (λ b. b ≡ record { nodes = nodes; room = room; held = self.now.held; cycle = [] }) }
    {
        let count = nodes as usize;
        let round = Vec::with_capacity(alloc, count + 1)?;
        let fringe = Vec::with_capacity(alloc, count)?;
        let mut value = Vec::from_slice(alloc, self.value.as_slice())?;
        value.resize(count, 0)?;
        let gap = filled(alloc, count, 0i128)?;
        let rank = filled(alloc, count, 0u32)?;
        let via = filled(alloc, count, NO_CONSTRAINT)?;
        let held = self.held.copy(alloc, nodes, room)?;
        Ok(Bounds {
            held,
            value,
            gap,
            rank,
            via,
            fringe,
            round,
        })
    }
}

/// The values, moved so that node 0 is at 0.
fn moved_values(alloc: Global, value: &[i128]) -> Result<Vec<i128>, Memory>
    requires some { 0 < length value.now }
    requires small { (u : ℕ) → u < length value.now → IsSmall (at value.now u) }
    ensures { IfOk result (λ v. Moves value.now v.items) }
{
    let mut moved = Vec::new(alloc);
    for v in value {
        moved.push(*v - value[0])?;
    }
    Ok(moved)
}
