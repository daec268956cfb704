ghost use Rattle.std.specs.Prelude.{◌≡◌, ◌≤◌, ◌-◌, ◌++◌, get_or, length, replicate, slice_set, IfOk, OnOk};
ghost use Rattle.pungi_symbol.specs.declared.states.term.Term.TheVariants.{Unset};
ghost use Rattle.pungi_symbol.specs.states.Vars.{with_unset};

use crate::states::term::Term;
use pungi_base::Memory;
use std::alloc::Global;
use std::marker::Model;

/// What the variables of a code hold. Those after the last one that was set hold nothing that may be read, and take no
/// memory: a code has more variables than its instructions name.
#[derive(Drop)]
pub struct Vars {
    count: usize,
    /// What the first variables hold.
    first: Vec<Term>,
}

impl Model for Vars {
    ghost use Rattle.std.specs.Prelude.{List};
    ghost use Rattle.pungi_symbol.specs.declared.states.term.Term.{Term};
    ghost use Rattle.pungi_symbol.specs.states.Vars.{with_unset};

    ghost Value = { List Term };

    ghost view = { λ v. with_unset v.count v.first.items };
}

/// All variables before a place are among the first.
#[tactic(auto, using(crate::proofs::states::HeldVars::take_all))]
fn reach(first: &mut Vec<Term>, place: usize) -> Result<(), Memory>
    requires { length first.old.items ≤ place }
    ensures { OnOk result (first.new.items ≡ first.old.items ++ replicate (place - length first.old.items) Unset) }
{
    first.resize(place, Term::Unset)?;
    Ok(())
}

impl Vars {
    /// So many variables, of which the first hold this.
    pub fn new(count: usize, first: Vec<Term>) -> Vars
        ensures { result ≡ with_unset count first.items }
    {
        Vars { count, first }
    }

    /// The same.
    pub fn copy(&self, alloc: Global) -> Result<Vars, Memory>
        ensures { IfOk result (λ v. v ≡ self.now) }
    {
        let first = Vec::from_slice(alloc, self.first.as_slice())?;
        Ok(Vars {
            count: self.count,
            first,
        })
    }

    /// What a variable holds.
    #[tactic(auto, using(crate::proofs::states::HeldVars::get_first, crate::proofs::states::HeldVars::get_after))]
    pub fn get(&self, x: u32) -> Term
        ensures { result ≡ get_or self.now x Unset }
    {
        match self.first.get(x as usize) {
            Some(c) => *c,
            None => Term::Unset,
        }
    }

    /// A variable holds this, if it is there.
    #[tactic(auto, using(crate::proofs::states::HeldVars::set_first, crate::proofs::states::HeldVars::set_after))]
    pub fn put(&mut self, x: u32, c: Term) -> Result<(), Memory>
        ensures { OnOk result (self.new ≡ slice_set self.old x c) }
    {
        let place = x as usize;
        if place < self.first.len() {
            self.first[place] = c;
            return Ok(());
        }
        if place < self.count {
            reach(&mut self.first, place)?;
            self.first.push(c)?;
        }
        Ok(())
    }
}
