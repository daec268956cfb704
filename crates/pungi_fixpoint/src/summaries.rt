ghost use Rattle.std.specs.Prelude.{◌≡◌, ◌<◌, [], None, length, replicate, slice_get, slice_set, IfOk, OnOk, OnErr};
ghost use Rattle.std.specs.Prelude.{Some, MatchOption};
ghost use Rattle.std.specs.List.{slice_index_or};
ghost use Rattle.pungi_fixpoint.specs.Summaries.{exit_of, HasExit, HasValue, SameExits, SameValues};
ghost use Rattle.pungi_fixpoint.specs.declared.state.State.TheVariants.{NotSafe};

use crate::State;
use pungi_base::{Memory, Seq};
use std::alloc::Global;
use std::marker::Model;

/// What is known of the functions of a file: a value for each exit class that was put, and a state.
#[derive(Drop)]
pub struct Summaries<D: Drop> {
    exits: Vec<Seq<Option<D>>>,
    states: Vec<State>,
}

impl<D: Drop> Model for Summaries<D> {
    ghost use Rattle.pungi_fixpoint.specs.Summaries.{SummariesState};

    ghost Value = { SummariesState D };

    ghost view = { λ s. record { exits = s.exits.items; states = s.states.items } };
}

/// Makes room for an exit class.
fn fill<D: Drop>(exits: &mut Seq<Option<D>>, class: usize) -> Result<(), Memory>
    ensures room { OnOk result (class < length exits.new) }
    ensures same { SameValues exits.old exits.new }
{
    'filling: while exits.len() <= class {
        exits.push(None)?;
    }
    Ok(())
}

/// Puts a value for an exit class of one function.
fn put_value<D: Drop>(exits: &mut Seq<Option<D>>, class: usize, exit: D) -> Result<(), Memory>
    ensures ok { OnOk result (HasValue exits.old class exit exits.new) }
    ensures err { OnErr result (SameValues exits.old exits.new) }
{
    fill(exits, class)?;
    exits.set(class, Some(exit));
    Ok(())
}

impl<D: Drop> Summaries<D> {
    /// No exits, and each function in the state `NotSafe(0)`.
    pub fn empty(alloc: Global, functions: u32) -> Result<Summaries<D>, Memory>
        ensures { IfOk result (λ s. s ≡ record {
          exits = replicate functions [];
          states = replicate functions (NotSafe 0);
        }) }
    {
        let mut exits = Vec::new(alloc);
        let mut states = Vec::new(alloc);
        for _ in 0..functions {
            exits.push(Seq::new(Vec::new(alloc)))?;
            states.push(State::NotSafe(0))?;
        }
        Ok(Summaries { exits, states })
    }

    /// The value that was put for an exit class of a function, if one was.
    pub fn exit(&self, f: u32, class: u32) -> Option<&D>
        ensures { MatchOption result (exit_of self.now.exits f class ≡ None)
            (λ d. exit_of self.now.exits f class ≡ Some d.now) }
    {
        let exits = self.exits.get(f as usize)?;
        exits.as_slice().get(class as usize)?.as_ref()
    }

    /// The values of the exit classes of a function, as far as some were put.
    pub fn exits(&self, f: u32) -> &[Option<D>]
        requires { f < length self.now.exits }
        ensures { result.now ≡ slice_index_or self.now.exits f [] }
    {
        self.exits[f as usize].as_slice()
    }

    /// Puts a value for an exit class of a function, in the place of an earlier one.
    pub fn put(&mut self, f: u32, class: u32, exit: D) -> Result<(), Memory>
        requires { f < length self.old.exits }
        ensures ok { OnOk result (HasExit self.old.exits f class exit self.new.exits) }
        ensures err { OnErr result (SameExits self.old.exits self.new.exits) }
        ensures count { length self.new.exits ≡ length self.old.exits }
        ensures states { self.new.states ≡ self.old.states }
    {
        put_value(&mut self.exits[f as usize], class as usize, exit)
    }

    /// Puts the values of all exit classes of a function, in the place of earlier ones.
    pub fn put_exits(&mut self, f: u32, exits: Seq<Option<D>>)
        requires { f < length self.old.exits }
        ensures exits { self.new.exits ≡ slice_set self.old.exits f exits }
        ensures states { self.new.states ≡ self.old.states }
    {
        self.exits[f as usize] = exits;
    }

    /// Sets the state of a function.
    pub fn mark(&mut self, f: u32, state: State)
        requires { f < length self.old.states }
        ensures states { self.new.states ≡ slice_set self.old.states f state }
        ensures exits { self.new.exits ≡ self.old.exits }
    {
        self.states[f as usize] = state;
    }

    /// The state of a function.
    pub fn state(&self, f: u32) -> &State
        requires { f < length self.now.states }
        ensures { slice_get self.now.states f ≡ Some result.now }
    {
        &self.states[f as usize]
    }
}
