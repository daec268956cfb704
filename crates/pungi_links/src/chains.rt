ghost use Rattle.std.specs.Prelude.{◌≡◌, ℕ, ◌<◌, ◌≤◌, ◌^◌, List, length, slice_index, IfOk};
ghost use Rattle.pungi_links.specs.Chains.{Alone, Copies, Extends, IsSame, Splices, TakesOut};
ghost use Rattle.pungi_links.specs.Ring.{IsPartition, IsRing, Stands};

use pungi_base::Memory;
use std::alloc::Global;
use std::marker::Model;

/// A partition of the numbers below some number, the members, into rings. Contracts see the list of their successors.
#[derive(Drop)]
pub struct Chains {
    next: Vec<u32>,
    before: Vec<u32>,
}

impl Model for Chains {
    ghost use Rattle.std.specs.Prelude.{List, ℕ};
    ghost use Rattle.pungi_links.specs.Chains.{Linked};

    ghost Value = { List ℕ };

    ghost view = { λ c. c.next.items };

    ghost invariant = { λ c. Linked c.next.items c.before.items };
}

impl Chains {
    /// Each member below n in a ring of its own.
    pub fn alone(alloc: Global, n: u32) -> Result<Chains, Memory>
        ensures { IfOk result (λ c. Alone n c) }
    {
        Chains::with_count(alloc, n as usize)
    }

    /// Each member below a count, which may be one more than a `u32` has, in a ring of its own.
    pub(crate) fn with_count(alloc: Global, count: usize) -> Result<Chains, Memory>
        requires { count ≤ 2 ^ 32 }
        ensures { IfOk result (λ c. Alone count c) }
    {
        let next = extended(alloc, &[], count)?;
        let before = extended(alloc, &[], count)?;
        Ok(Chains { next, before })
    }

    /// The ring of a, from a, is followed by the ring of b, from b. All other rings stay.
    pub fn splice(&mut self, a: u32, b: u32)
        requires range { (a < length self.old) × (b < length self.old) }
        requires apart { (xs : List ℕ) → IsRing self.old a xs → Stands b xs → ⊥ }
        ensures { Splices self.old a b self.new }
    {
        let last_a = self.before[a as usize];
        let last_b = self.before[b as usize];
        self.next[last_a as usize] = b;
        self.next[last_b as usize] = a;
        self.before[b as usize] = last_a;
        self.before[a as usize] = last_b;
    }

    /// The member is alone, its old ring keeps its order, and all other rings stay.
    pub fn take_out(&mut self, a: u32)
        requires { a < length self.old }
        ensures { TakesOut self.old a self.new }
    {
        let left = self.before[a as usize];
        let right = self.next[a as usize];
        self.next[left as usize] = right;
        self.before[right as usize] = left;
        self.next[a as usize] = a;
        self.before[a as usize] = a;
    }

    /// The member that follows in the ring.
    pub fn next(&self, a: u32) -> u32
        requires { a < length self.now }
        ensures value { result ≡ slice_index self.now a }
        ensures range { result < length self.now }
        ensures partition { IsPartition self.now }
    {
        self.next[a as usize]
    }

    /// Whether b is in the ring of a.
    pub fn same(&self, a: u32, b: u32) -> bool
        requires { (a < length self.now) × (b < length self.now) }
        ensures { IsSame self.now a b result }
    {
        if a == b {
            return true;
        }
        let mut member = self.next[a as usize];
        while member != a {
            if member == b {
                return true;
            }
            member = self.next[member as usize];
        }
        false
    }

    /// The ring of a member, from it on.
    pub fn members(&self, alloc: Global, a: u32) -> Result<Vec<u32>, Memory>
        requires { a < length self.now }
        ensures { IfOk result (λ v. IsRing self.now a v.items) }
    {
        let mut members = Vec::new(alloc);
        members.push(a)?;
        let mut member = self.next[a as usize];
        while member != a {
            members.push(member)?;
            member = self.next[member as usize];
        }
        Ok(members)
    }

    /// The same rings, and each further member below n in a ring of its own.
    pub fn copy(&self, alloc: Global, n: u32) -> Result<Chains, Memory>
        requires { length self.now ≤ n }
        ensures { IfOk result (λ c. Copies self.now n c) }
    {
        let next = extended(alloc, self.next.as_slice(), n as usize)?;
        let before = extended(alloc, self.before.as_slice(), n as usize)?;
        Ok(Chains { next, before })
    }
}

/// These links, and from there on each number linked to itself.
fn extended(alloc: Global, links: &[u32], count: usize) -> Result<Vec<u32>, Memory>
    requires { (length links.now ≤ count) × (count ≤ 2 ^ 32) }
    ensures { IfOk result (λ v. Extends links.now count v.items) }
{
    let mut more = Vec::from_slice(alloc, links)?;
    for number in links.len()..count {
        more.push(number as u32)?;
    }
    Ok(more)
}
