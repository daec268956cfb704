// The balances of a state after an instruction.
ghost use Rattle.std.specs.Prelude.{◌≡◌, negsuc, Some, slice_get, OnOk, if◌then◌else◌};
ghost use Rattle.pungi_code.specs.declared.instr.Instr.TheVariants.{Store as StoreOf};
ghost use Rattle.pungi_world.specs.Calls.{is_success, is_taken};
ghost use Rattle.pungi_symbol.specs.states.Terms.{value_of_mark};
ghost use Rattle.pungi_symbol.specs.questions.NextQuestion.{terms_of};
ghost use Rattle.pungi_symbol.specs.answers.KnownAfter.{instr_of};
ghost use Rattle.pungi_symbol.specs.answers.SymbolicState.{add_term, lower, taken_terms, terms_taken_by, own_weigh};
ghost use Rattle.pungi_symbol.specs.answers.SymbolicState.{weigh, stored_term};

use crate::questions::call_questions::smaller_length;
use crate::questions::next_question::line_at;
use crate::states::balances::add;
use crate::states::mark::Mark;
use crate::states::state::State;
use crate::states::term::Term;
use pungi_api::{Answer, OwnEffect, Signature, Take};
use pungi_base::Memory;
use pungi_code::{Atom, Instr, Line, Place};

fn counts(success: bool, take: Take) -> bool
    ensures { result ≡ is_taken success take }
{
    match take {
        Take::Never => false,
        Take::Always => true,
        Take::OnSuccess => success,
    }
}

fn is_object_mark(m: Mark) -> bool
    ensures { result ≡ is_success Answer.New (Some (value_of_mark m)) }
{
    match m {
        Mark::IsObject => true,
        Mark::Pointer => false,
        Mark::TextPointer => false,
        Mark::IsNull => false,
        Mark::IsText => false,
        Mark::IsNumber(_) => false,
        Mark::IsConverted(_) => false,
        Mark::Integer(_) => false,
    }
}

fn is_zero_mark(m: Mark) -> bool
    ensures { result ≡ is_success Answer.Status (Some (value_of_mark m)) }
{
    match m {
        Mark::IsNumber(n) => n == 0,
        Mark::IsConverted(n) => n == 0,
        Mark::Integer(_) => true,
        Mark::IsObject => false,
        Mark::Pointer => false,
        Mark::TextPointer => false,
        Mark::IsNull => false,
        Mark::IsText => false,
    }
}

/// A call with this answer succeeded.
pub fn succeeds(answer: Answer, m: Mark) -> bool
    ensures { result ≡ is_success answer (Some (value_of_mark m)) }
{
    match answer {
        Answer::New => is_object_mark(m),
        Answer::Status => is_zero_mark(m),
        _ => false,
    }
}

impl State {
    fn raise(&mut self, x: Term, d: i64) -> Result<(), Memory>
        ensures { OnOk result (self.new ≡ record self.old {
          balances = add_term self.old.classes self.old.known x d
              self.old.balances;
        }) }
    {
        match self.known.object(x) {
            None => Ok(()),
            Some(t) => {
                let c = self.class_of(t);
                add(&mut self.balances, c, d)
            }
        }
    }

    fn lower_if(&mut self, taken: bool, x: Term) -> Result<(), Memory>
        ensures { OnOk result (self.new ≡ record self.old {
          balances = if taken then add_term self.old.classes
              self.old.known x (negsuc 0) self.old.balances else self.old.balances;
        }) }
    {
        if taken { self.raise(x, -1) } else { Ok(()) }
    }

    fn lower_taken(&mut self, success: bool, takes: &[Take], atoms: &[Atom]) -> Result<(), Memory>
        ensures { OnOk result (self.new ≡ record self.old {
          balances = lower self.old.classes self.old.known
              (taken_terms success takes.now (terms_of self.old.known atoms.now)) self.old.balances;
        }) }
    {
        let n = smaller_length(takes.len(), atoms.len());
        for i in 0..n {
            let x = self.known.term(atoms[i]);
            self.lower_if(counts(success, takes[i]), x)?;
        }
        Ok(())
    }

    fn weigh_store(&mut self, place: Place, a: Atom) -> Result<(), Memory>
        ensures { OnOk result (self.new ≡ record self.old {
          balances = weigh self.old.classes self.old.known
              (StoreOf place a) self.old.balances;
        }) }
    {
        let found = self.known.seek(place);
        let held = self.known.held(found);
        let c = self.known.term(a);
        self.raise(held, 1)?;
        self.raise(c, -1)
    }

    fn weigh_call(&mut self, signature: &Signature, atoms: &[Atom]) -> Result<(), Memory>
        ensures { OnOk result (self.new ≡ record self.old {
          balances = own_weigh self.old.classes self.old.known
              signature.now.own signature.now.takes (terms_of self.old.known atoms.now) self.old.balances;
        }) }
    {
        match signature.own {
            None => self.lower_taken(false, signature.takes.as_slice(), atoms),
            Some(OwnEffect::IncRef) => {
                let x = self.known.first_of(atoms);
                self.raise(x, 1)
            }
            Some(OwnEffect::DecRef) => {
                let x = self.known.first_of(atoms);
                self.raise(x, -1)
            }
        }
    }

    /// The balances after an instruction that asks nothing.
    pub fn weigh_line(&mut self, code: &[Line]) -> Result<(), Memory>
        ensures { OnOk result (self.new ≡ record self.old {
          balances = weigh self.old.classes self.old.known
              (instr_of (slice_get code.now self.old.known.pc)) self.old.balances;
        }) }
    {
        match line_at(code, self.known.pc) {
            None => Ok(()),
            Some(line) => match &line.instr {
                Instr::Store(place, a) => self.weigh_store(*place, *a),
                Instr::Api(_, signature, args) => {
                    self.weigh_call(signature.get(), args.as_slice())
                }
                _ => Ok(()),
            },
        }
    }

    /// The balances after a call that took over some of its arguments.
    pub fn lower_call(&mut self, code: &[Line], success: bool) -> Result<(), Memory>
        ensures { OnOk result (self.new ≡ record self.old {
          balances = lower self.old.classes self.old.known
              (terms_taken_by success (instr_of (slice_get code.now self.old.known.pc)) self.old.known)
              self.old.balances;
        }) }
    {
        match line_at(code, self.known.pc) {
            None => Ok(()),
            Some(line) => match &line.instr {
                Instr::Api(_, signature, args) => {
                    self.lower_taken(success, signature.get().takes.as_slice(), args.as_slice())
                }
                _ => Ok(()),
            },
        }
    }

    /// The balances after a store to a slot that wasn't touched.
    pub fn lower_stored(&mut self, code: &[Line]) -> Result<(), Memory>
        ensures { OnOk result (self.new ≡ record self.old {
          balances = lower self.old.classes self.old.known
              (stored_term (instr_of (slice_get code.now self.old.known.pc)) self.old.known) self.old.balances;
        }) }
    {
        match line_at(code, self.known.pc) {
            None => Ok(()),
            Some(line) => match &line.instr {
                Instr::Store(_, a) => {
                    let c = self.known.term(*a);
                    self.raise(c, -1)
                }
                _ => Ok(()),
            },
        }
    }
}
