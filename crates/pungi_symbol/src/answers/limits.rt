// What answers say of numbers.
ghost use Rattle.std.specs.Prelude.{◌≡◌, ◌-ℤ◌, ◌∷◌, [], pos, IfOk, OnOk};
ghost use Rattle.std.specs.declared.cmp.Ordering.TheVariants.{Equal};
ghost use Rattle.pungi_symbol.specs.answers.SymbolicState.{low_limit, high_limit, order_limits, range_limits, limited};

use crate::states::limit::Limit;
use crate::states::node::Node;
use crate::states::state::State;
use crate::states::sum::Sum;
use pungi_base::Memory;
use pungi_types::ValueKind;
use std::cmp::Ordering;

/// The least number of a kind.
pub fn low_limit(kind: ValueKind) -> i128
    ensures { result ≡ low_limit kind }
{
    match kind {
        ValueKind::Int => -0x8000_0000,
        _ => -0x8000_0000_0000_0000,
    }
}

/// The greatest number of a kind.
pub fn high_limit(kind: ValueKind) -> i128
    ensures { result ≡ high_limit kind }
{
    match kind {
        ValueKind::Int => 0x7fff_ffff,
        _ => 0x7fff_ffff_ffff_ffff,
    }
}

fn difference(a: i128, b: i128) -> Result<i128, Memory>
    ensures { IfOk result (λ c. c ≡ a -ℤ b) }
{
    match a.checked_sub(b) {
        Some(c) => Ok(c),
        None => Err(Memory),
    }
}

impl State {
    /// The number at a node is at most so much more than that at another.
    fn limit(&mut self, x: Node, y: Node, c: i128) -> Result<(), Memory>
        ensures { OnOk result (self.new ≡ limited ((record { x = x; y = y; c = c }) ∷ []) self.old) }
    {
        self.limits.push(Limit { x, y, c })?;
        Ok(())
    }

    fn limit_below(&mut self, x: Node, y: Node, a: i128, b: i128) -> Result<(), Memory>
        ensures { OnOk result (self.new ≡ limited ((record { x = x; y = y; c = (a -ℤ b) -ℤ pos 1 }) ∷ []) self.old) }
    {
        let c = difference(difference(a, b)?, 1)?;
        self.limit(x, y, c)
    }

    fn limit_between(&mut self, x: Node, y: Node, c: i128, d: i128) -> Result<(), Memory>
        ensures { OnOk result (self.new ≡ limited ((record { x = x; y = y; c = c })
            ∷ (record { x = y; y = x; c = d }) ∷ []) self.old) }
    {
        self.limit(x, y, c)?;
        self.limit(y, x, d)
    }

    fn limit_equal(&mut self, a: Sum, b: Sum) -> Result<(), Memory>
        ensures { OnOk result (self.new ≡ limited (order_limits a b Equal) self.old) }
    {
        let c = difference(b.plus, a.plus)?;
        let d = difference(a.plus, b.plus)?;
        self.limit_between(a.node, b.node, c, d)
    }

    fn limit_within(&mut self, kind: ValueKind, a: Sum) -> Result<(), Memory>
        ensures { OnOk result (self.new ≡ limited (range_limits kind a 1) self.old) }
    {
        let c = difference(high_limit(kind), a.plus)?;
        let d = difference(a.plus, low_limit(kind))?;
        self.limit_between(a.node, Node::Zero, c, d)
    }

    /// Two numbers compare so.
    pub fn limit_order(&mut self, a: Sum, b: Sum, order: Ordering) -> Result<(), Memory>
        ensures { OnOk result (self.new ≡ limited (order_limits a b order) self.old) }
    {
        match order {
            Ordering::Less => self.limit_below(a.node, b.node, b.plus, a.plus),
            Ordering::Equal => self.limit_equal(a, b),
            Ordering::Greater => self.limit_below(b.node, a.node, a.plus, b.plus),
        }
    }

    /// A number is below the range of a kind, within it or above it.
    pub fn limit_range(&mut self, kind: ValueKind, a: Sum, place: u32) -> Result<(), Memory>
        ensures { OnOk result (self.new ≡ limited (range_limits kind a place) self.old) }
    {
        match place {
            0 => self.limit_below(a.node, Node::Zero, low_limit(kind), a.plus),
            1 => self.limit_within(kind, a),
            _ => self.limit_below(Node::Zero, a.node, a.plus, high_limit(kind)),
        }
    }
}
