// What a run of a code holds.
ghost use Rattle.std.specs.Prelude.{◌≡◌};
ghost use Rattle.pungi_code.specs.Machine.{regs_of};
ghost use Rattle.pungi_code.specs.Registers.{put, put_answer};

use crate::Var;
use pungi_base::{Pos, Value};
use pungi_meaning::{CountedWorld, put};
use pungi_world::Content;

/// The world, the places of the choices that were used, and what the variables hold.
#[derive(Drop)]
pub struct Registers {
    pub world: CountedWorld,
    pub used: Vec<Pos>,
    pub vars: Vec<Content>,
}

/// Where an instruction leads.
#[derive(Clone, Copy)]
pub enum After {
    Goes(usize),
    Leaves(Pos, Option<Value>),
    Stops(Pos),
    Wants,
}

/// A variable holds something else.
pub fn set(m: &mut Registers, x: Var, content: Content)
    ensures { regs_of m.new ≡ put x content (regs_of m.old) }
{
    put(&mut m.vars, x.0 as usize, content);
}

/// A variable gets the answer, where there is one.
pub fn answer(m: &mut Registers, x: Option<Var>, value: Option<Value>)
    ensures { regs_of m.new ≡ put_answer x value (regs_of m.old) }
{
    if let Some(x) = x {
        if let Some(value) = value {
            set(m, x, Content::Holds(value));
        }
    }
}
