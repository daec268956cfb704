// Numbers that are tried before bounds are searched: each bound moves a number twice, from the first bound to the last and
// back, and then all are looked at.
ghost use Rattle.std.specs.Prelude.{◌≡◌, ◌<◌, ℕ, pos, true, length, get_or, All, IfOk};
ghost use Rattle.pungi_symbol.specs.declared.states.mark.Mark.TheVariants.{IsNull};
ghost use Rattle.pungi_symbol.specs.states.Known.{count};
ghost use Rattle.pungi_symbol.specs.states.Terms.{low_of, high_of};
ghost use Rattle.pungi_symbol.specs.runs.Numbers.{AreMarksMet, numbers_tried};
ghost use Rattle.pungi_symbol.specs.runs.Paths.{IsInMark, IsMetBy, IsModel, Numbers, node_at};
ghost use Rattle.pungi_world.specs.Choices.{is_between};

use crate::runs::numbers::number_where_free;
use crate::states::integer_range::IntegerRange;
use crate::states::limit::Limit;
use crate::states::mark::Mark;
use crate::states::node::{Node, is_zero_node};
use crate::states::state::State;
use pungi_base::Memory;
use std::alloc::Global;

/// Numbers for the tokens of a state, and for the results of its computations, that may meet what it notes.
#[derive(Drop)]
pub struct Candidate {
    pub tokens: Vec<i128>,
    pub computed: Vec<i128>,
}

fn is_in_range(range: IntegerRange, n: i128) -> bool
    ensures { result ≡ is_between (low_of range) (high_of range) n }
{
    match range {
        IntegerRange::Int => -0x8000_0000 <= n && n <= 0x7fff_ffff,
        IntegerRange::Long => -0x8000_0000_0000_0000 <= n && n <= 0x7fff_ffff_ffff_ffff,
        IntegerRange::SizeOrError => -1 <= n && n <= 0x7fff_ffff_ffff_ffff,
        IntegerRange::Flag => 0 <= n && n <= 1,
    }
}

/// Whether the number of a token may be this one.
fn is_in_mark(m: Mark, n: i128) -> bool
    ensures { result ≡ true → IsInMark m n }
{
    match m {
        Mark::Pointer => n == 0,
        Mark::TextPointer => n == 0,
        Mark::IsNull => n == 0,
        Mark::IsObject => n == 0,
        Mark::IsText => n == 0,
        Mark::IsNumber(k) => n == k as i128,
        Mark::IsConverted(k) => n == k as i128,
        Mark::Integer(range) => is_in_range(range, n),
    }
}

fn first_numbers(alloc: Global, marks: &[Mark]) -> Result<Vec<i128>, Memory>
    ensures { IfOk result (λ ns. length ns.items ≡ length marks.now) }
{
    let numbers: Vec<i128> = marks
        .iter()
        .map(|m| number_where_free(*m) as i128)
        .collect(alloc)?;
    Ok(numbers)
}

impl Candidate {
    /// What is tried first: 0 wherever nothing else is known.
    fn new(alloc: Global, marks: &[Mark], computed: usize) -> Result<Candidate, Memory>
        ensures { IfOk result (λ c. length c.tokens.items ≡ length marks.now) }
    {
        let results = vec![in alloc; 0i128; computed]?;
        Ok(Candidate {
            tokens: first_numbers(alloc, marks)?,
            computed: results,
        })
    }

    fn number_at(&self, node: Node) -> i128
        ensures { result ≡ node_at (numbers_tried self.now) node }
    {
        match node {
            Node::Zero => 0,
            Node::Token(t) => match self.tokens.get(t) {
                Some(n) => *n,
                None => 0,
            },
            Node::Computed(j) => match self.computed.get(j) {
                Some(n) => *n,
                None => 0,
            },
        }
    }

    /// Puts a number at a node, where it has one of its own.
    fn put(&mut self, node: Node, n: i128)
        ensures { length self.new.tokens.items ≡ length self.old.tokens.items }
    {
        match node {
            Node::Zero => {}
            Node::Token(t) => {
                if t < self.tokens.len() {
                    self.tokens[t] = n;
                }
            }
            Node::Computed(j) => {
                if j < self.computed.len() {
                    self.computed[j] = n;
                }
            }
        }
    }

    /// Lowers the number at x as far as a bound asks, or raises the one at y where x is the number 0.
    fn move_by(&mut self, limit: Limit)
        ensures { length self.new.tokens.items ≡ length self.old.tokens.items }
    {
        let highest = self.number_at(limit.y).saturating_add(limit.c);
        if self.number_at(limit.x) > highest {
            if is_zero_node(limit.x) {
                self.put(limit.y, 0i128.saturating_sub(limit.c));
            } else {
                self.put(limit.x, highest);
            }
        }
    }

    fn move_by_all(&mut self, limits: &[Limit])
        ensures { length self.new.tokens.items ≡ length self.old.tokens.items }
    {
        for limit in limits {
            self.move_by(*limit);
        }
    }

    /// The same from the last bound to the first.
    fn move_back_by_all(&mut self, limits: &[Limit])
        ensures { length self.new.tokens.items ≡ length self.old.tokens.items }
    {
        let count = limits.len();
        for i in 0..count {
            self.move_by(limits[count - 1 - i]);
        }
    }

    /// Whether a bound is met, as far as the sum has 128 bits.
    fn meets(&self, limit: Limit) -> bool
        ensures { result ≡ true → IsMetBy (numbers_tried self.now) limit }
    {
        match self.number_at(limit.y).checked_add(limit.c) {
            Some(highest) => self.number_at(limit.x) <= highest,
            None => false,
        }
    }

    fn meets_all(&self, limits: &[Limit]) -> bool
        ensures { result ≡ true → All (IsMetBy (numbers_tried self.now)) limits.now }
    {
        for limit in limits {
            if !self.meets(*limit) {
                return false;
            }
        }
        true
    }

    fn is_in_marks(&self, marks: &[Mark]) -> bool
        ensures { result ≡ true → AreMarksMet marks.now self.now.tokens.items }
    {
        for t in 0..marks.len() {
            if !is_in_mark(marks[t], self.number_at(Node::Token(t))) {
                return false;
            }
        }
        true
    }
    /// Whether these are numbers of a state that has as many tokens.
    fn is_model(&self, state: &State) -> bool
        requires { length self.now.tokens.items ≡ count state.now.known }
        ensures { result ≡ true → IsModel state.now (numbers_tried self.now) }
    {
        if self.is_in_marks(state.known.marks.as_slice()) {
            self.meets_all(state.limits.as_slice())
        } else {
            false
        }
    }
}

/// Whether the numbers that are tried meet all that a state notes.
pub fn is_met_at_once(alloc: Global, state: &State) -> Result<bool, Memory>
    ensures { IfOk result (λ b. b ≡ true → (ns : Numbers) × IsModel state.now ns) }
{
    let marks = state.known.marks.as_slice();
    let mut candidate = Candidate::new(alloc, marks, state.known.computed.len())?;
    candidate.move_by_all(state.limits.as_slice());
    candidate.move_back_by_all(state.limits.as_slice());
    Ok(candidate.is_model(state))
}
