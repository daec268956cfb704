// How far a path went through the loops of its code.
ghost use Rattle.std.specs.Prelude.{◌≡◌, position, IfOk};
ghost use Rattle.pungi_symbol.specs.states.Turns.{most_times, most_steps, is_head_at, head_note, once_more, is_bounded};
ghost use Rattle.pungi_symbol.specs.states.Turns.{blocked_at, entered, stepped};

use pungi_base::{Memory, Pos, Seq};
use std::alloc::Global;

/// How often a path may reach a loop's head.
const MOST_TIMES: u32 = 2;

/// How many instructions a path through a code with loops may have.
const MOST_STEPS: u32 = 16_384;

/// A loop's head, and how often the path reached it.
#[derive(Clone, Copy)]
pub struct ReachedHead {
    pub label: u32,
    /// The place by which it is reported.
    pub pos: Pos,
    pub times: u32,
}

/// How far a path went through the loops of its code.
#[derive(Drop)]
pub struct Turns {
    /// In the order of the code.
    pub heads: Seq<ReachedHead>,
    /// How many instructions were done; at most 16,384 are counted.
    pub steps: u32,
    /// The place of the head that was reached last, or of the first one where none was.
    pub last: Pos,
    /// Whether the next instruction was just reached: if it is a head, that isn't counted yet.
    pub arriving: bool,
}

fn is_head_at(pc: usize, head: &ReachedHead) -> bool
    ensures { result ≡ is_head_at pc head.now }
{
    head.label as usize == pc
}

/// The head at a place.
fn head_at(pc: usize, heads: &[ReachedHead]) -> Option<usize>
    ensures { result ≡ position (is_head_at pc) heads.now }
{
    heads.iter().position(|head| is_head_at(pc, head))
}

impl Turns {
    /// The same.
    pub fn copy(&self, alloc: Global) -> Result<Turns, Memory>
        ensures { IfOk result (λ t. t ≡ self.now) }
    {
        let heads = self.heads.copy(alloc)?;
        Ok(Turns {
            heads,
            steps: self.steps,
            last: self.last,
            arriving: self.arriving,
        })
    }

    fn head(&self, i: usize) -> ReachedHead
        ensures { result ≡ head_note self.now.heads i }
    {
        match self.heads.as_slice().get(i) {
            Some(head) => *head,
            None => ReachedHead {
                label: 0,
                pos: Pos { line: 0, col: 0 },
                times: 0,
            },
        }
    }

    /// Whether a bound is met before the instruction at a place, or a head is to be counted there.
    pub fn is_bounded(&self, pc: usize) -> bool
        ensures { result ≡ is_bounded self.now pc }
    {
        if self.heads.is_empty() {
            return false;
        }
        self.steps >= MOST_STEPS || (self.arriving && head_at(pc, self.heads.as_slice()).is_some())
    }

    /// The place at which the path isn't followed, if a bound is met.
    pub fn blocked_at(&self, pc: usize) -> Option<Pos>
        ensures { result ≡ blocked_at self.now pc }
    {
        if self.steps >= MOST_STEPS {
            return Some(self.last);
        }
        match head_at(pc, self.heads.as_slice()) {
            None => None,
            Some(i) => {
                let head = self.head(i);
                if head.times < MOST_TIMES {
                    None
                } else {
                    Some(head.pos)
                }
            }
        }
    }

    /// The head at a place is reached once more.
    pub fn enter(&mut self, pc: usize)
        ensures { self.new ≡ entered self.old pc }
    {
        if let Some(i) = head_at(pc, self.heads.as_slice()) {
            let head = self.head(i);
            if i < self.heads.len() {
                self.heads.set(
                    i,
                    ReachedHead {
                        label: head.label,
                        pos: head.pos,
                        times: if head.times < MOST_TIMES {
                            head.times + 1
                        } else {
                            head.times
                        },
                    },
                );
            }
            self.last = head.pos;
        }
        self.arriving = false;
    }

    /// One more instruction is done, and the next one is reached.
    pub fn step(&mut self)
        ensures { self.new ≡ stepped self.old }
    {
        if self.steps < MOST_STEPS {
            self.steps += 1;
        }
        self.arriving = true;
    }
}
