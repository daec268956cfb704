// What is known after an instruction's work is done.
ghost use Rattle.std.specs.Prelude.{◌≡◌, ◌+◌, ◌<◌, ◌^◌, OnOk, if◌then◌else◌};
ghost use Rattle.pungi_base.specs.declared.value.Value.TheVariants.{Int as IntOf};
ghost use Rattle.pungi_meaning.specs.Values.{is_true};
ghost use Rattle.pungi_code.specs.declared.instr.Instr.TheVariants.{Arith as ArithOf, Fit as FitOf};
ghost use Rattle.pungi_code.specs.declared.instr.Instr.TheVariants.{Compare as CompareOf, Load as LoadOf};
ghost use Rattle.pungi_code.specs.declared.instr.Instr.TheVariants.{Store as StoreOf, Api as ApiOf, Branch as BranchOf};
ghost use Rattle.pungi_symbol.specs.declared.questions.found_slot.Finding.TheVariants.{OfMade};
ghost use Rattle.pungi_symbol.specs.questions.NextQuestion.{first_term, terms_of};
ghost use Rattle.pungi_symbol.specs.answers.KnownAfter.{go_on, go_to, put, truth_term, compares, number_there};
ghost use Rattle.pungi_symbol.specs.answers.KnownAfter.{put_answer, answer_of_row, answer_of_call, store_at};
ghost use Rattle.pungi_symbol.specs.answers.KnownAfter.{store_found, does};
ghost use Rattle.pungi_symbol.specs.answers.KnownAfter.{order_number, holds_order, ordered, computed};

use crate::questions::found_slot::Finding;
use crate::states::known::Known;
use crate::states::spot::{Progress, Spot, Touched};
use crate::states::sum::Sum;
use crate::states::term::Term;
use pungi_api::{Answer, CallAnswer};
use pungi_base::{Memory, Value};
use pungi_code::{Atom, Instr, Label, Place, Var};
use pungi_meaning::{Cmp, Op, arithmetic, is_true, number_of, truth};
use pungi_types::ValueKind;
use std::cmp::Ordering;

/// What a comparison gives.
pub fn truth_term(holds: bool) -> Term
    ensures { result ≡ truth_term holds }
{
    Term::Number(number_of(truth(holds)))
}

/// A number that compares so with 0.
fn order_number(order: Ordering) -> i64
    ensures { result ≡ order_number order }
{
    match order {
        Ordering::Less => -1,
        Ordering::Equal => 0,
        Ordering::Greater => 1,
    }
}

/// A comparison of two numbers that compare so.
fn holds_order(cmp: Cmp, order: Ordering) -> bool
    ensures { result ≡ holds_order cmp order }
{
    cmp.holds(Value::Int(order_number(order)), Value::Int(0))
}

fn number_there(n: Option<i64>) -> i64
    ensures { result ≡ number_there n }
{
    match n {
        Some(n) => n,
        None => 0,
    }
}

fn answer_of_row(answer: Answer) -> Option<Term>
    ensures { result ≡ answer_of_row answer }
{
    match answer {
        Answer::Void => None,
        _ => Some(Term::Null),
    }
}

fn answer_of_call(answer: CallAnswer, x: Term) -> Option<Term>
    ensures { result ≡ answer_of_call answer x }
{
    match answer {
        CallAnswer::Of(answer) => answer_of_row(answer),
        CallAnswer::Argument => Some(x),
    }
}

impl Known {
    fn put(&mut self, x: u32, c: Term) -> Result<(), Memory>
        ensures { OnOk result (self.new ≡ put x c self.old) }
    {
        self.vars.put(x, c)
    }

    /// To the next instruction.
    pub fn go_on(&mut self)
        requires room { self.old.pc + 1 < 2 ^ 64 }
        ensures { self.new ≡ go_on self.old }
    {
        self.pc += 1;
        self.progress = Progress::Looking(0);
        self.turns.step();
    }

    fn go_to(&mut self, label: Label)
        ensures { self.new ≡ go_to label.0 self.old }
    {
        self.pc = label.0 as usize;
        self.progress = Progress::Looking(0);
        self.turns.step();
    }

    /// A variable gets this, and the next instruction comes.
    pub fn assign(&mut self, x: u32, c: Term) -> Result<(), Memory>
        requires room { self.old.pc + 1 < 2 ^ 64 }
        ensures { OnOk result (self.new ≡ go_on (put x c self.old)) }
    {
        self.put(x, c)?;
        self.go_on();
        Ok(())
    }

    /// A variable gets the answer of a call, where there is one.
    pub fn put_answer(&mut self, x: Option<Var>, answer: Option<Term>) -> Result<(), Memory>
        ensures is { OnOk result (self.new ≡ put_answer x answer self.old) }
        ensures place { OnOk result (self.new.pc ≡ self.old.pc) }
    {
        match x {
            None => Ok(()),
            Some(x) => match answer {
                None => Ok(()),
                Some(c) => self.put(x.0, c),
            },
        }
    }

    fn store_at(&mut self, i: usize, c: Term)
        ensures { self.new ≡ store_at i c self.old }
    {
        let was = self.slot(i);
        if i < self.slots.len() {
            let now = Touched {
                spot: was.spot,
                at_entry: was.at_entry,
                held: c,
            };
            self.slots.set(i, now);
        }
    }

    /// A slot of an object that was made, which held nothing.
    fn store_made(&mut self, spot: Spot, c: Term) -> Result<(), Memory>
        ensures { OnOk result (self.new ≡ store_found OfMade spot c self.old) }
    {
        let slot = Touched {
            spot,
            at_entry: Term::Unset,
            held: c,
        };
        self.slots.push(slot)?;
        Ok(())
    }

    /// A store into the slot that was found.
    fn store_found(&mut self, found: Finding, spot: Spot, c: Term) -> Result<(), Memory>
        ensures { OnOk result (self.new ≡ store_found found spot c self.old) }
    {
        match found {
            Finding::OfMade => self.store_made(spot, c),
            Finding::At(i) => {
                self.store_at(i, c);
                Ok(())
            }
            Finding::Waits(_) => Ok(()),
            Finding::Nowhere => Ok(()),
        }
    }

    fn compares(&self, cmp: Cmp, x: Term, y: Term) -> bool
        ensures { result ≡ compares self.now cmp x y }
    {
        cmp.holds(self.value(x), self.value(y))
    }

    fn do_arith(&mut self, x: Var, kind: ValueKind, op: Op, a: Atom, b: Atom) -> Result<(), Memory>
        requires room { self.old.pc + 1 < 2 ^ 64 }
        ensures { OnOk result (self.new ≡ does self.old (ArithOf x kind op a b)) }
    {
        let (left, right) = (self.number(self.term(a)), self.number(self.term(b)));
        let n = number_there(arithmetic(op, kind, left, right));
        self.assign(x.0, Term::Number(n))
    }

    fn do_fit(&mut self, x: Var, kind: ValueKind, a: Atom) -> Result<(), Memory>
        requires room { self.old.pc + 1 < 2 ^ 64 }
        ensures { OnOk result (self.new ≡ does self.old (FitOf x kind a)) }
    {
        let n = self.number(self.term(a));
        self.assign(x.0, Term::Number(n))
    }

    fn do_compare(&mut self, x: Var, cmp: Cmp, a: Atom, b: Atom) -> Result<(), Memory>
        requires room { self.old.pc + 1 < 2 ^ 64 }
        ensures { OnOk result (self.new ≡ does self.old (CompareOf x cmp a b)) }
    {
        let holds = self.compares(cmp, self.term(a), self.term(b));
        self.assign(x.0, truth_term(holds))
    }

    fn do_load(&mut self, x: Var, place: Place) -> Result<(), Memory>
        requires room { self.old.pc + 1 < 2 ^ 64 }
        ensures { OnOk result (self.new ≡ does self.old (LoadOf x place)) }
    {
        let found = self.seek(place);
        let held = self.held(found);
        self.assign(x.0, held)
    }

    fn do_store(&mut self, place: Place, a: Atom) -> Result<(), Memory>
        requires room { self.old.pc + 1 < 2 ^ 64 }
        ensures { OnOk result (self.new ≡ does self.old (StoreOf place a)) }
    {
        let found = self.seek(place);
        let spot = self.spot(place);
        let c = self.term(a);
        self.store_found(found, spot, c)?;
        self.go_on();
        Ok(())
    }

    fn do_call(&mut self, x: Option<Var>, answer: CallAnswer, atoms: &[Atom]) -> Result<(), Memory>
        requires room { self.old.pc + 1 < 2 ^ 64 }
        ensures { OnOk result (self.new ≡ go_on (put_answer x
            (answer_of_call answer (first_term (terms_of self.old atoms.now))) self.old)) }
    {
        let first = self.first_of(atoms);
        self.put_answer(x, answer_of_call(answer, first))?;
        self.go_on();
        Ok(())
    }

    fn do_branch(&mut self, a: Atom, this: Label, other: Label)
        ensures { self.new ≡ does self.old (BranchOf a this other) }
    {
        if is_true(self.value(self.term(a))) {
            self.go_to(this);
        } else {
            self.go_to(other);
        }
    }

    fn order_compare(&mut self, x: Var, cmp: Cmp, order: Ordering) -> Result<(), Memory>
        requires room { self.old.pc + 1 < 2 ^ 64 }
        ensures { OnOk result (self.new ≡ go_on (put x.0 (truth_term (holds_order cmp order)) self.old)) }
    {
        self.assign(x.0, truth_term(holds_order(cmp, order)))
    }

    fn order_branch(&mut self, this: Label, other: Label, order: Ordering)
        ensures { self.new ≡ go_to (if is_true (IntOf (order_number order)) then this.0 else other.0) self.old }
    {
        if is_true(Value::Int(order_number(order))) {
            self.go_to(this);
        } else {
            self.go_to(other);
        }
    }

    /// An instruction goes on where two numbers compare so.
    pub fn order(&mut self, instr: &Instr, order: Ordering) -> Result<(), Memory>
        requires room { self.old.pc + 1 < 2 ^ 64 }
        ensures { OnOk result (self.new ≡ ordered instr.now order self.old) }
    {
        match instr {
            Instr::Compare(x, cmp, _, _) => self.order_compare(*x, *cmp, order),
            Instr::Branch(_, this, other) => {
                self.order_branch(*this, *other, order);
                Ok(())
            }
            _ => Ok(()),
        }
    }

    /// The result of an instruction is this sum.
    pub fn compute(&mut self, instr: &Instr, a: Sum) -> Result<(), Memory>
        requires room { self.old.pc + 1 < 2 ^ 64 }
        ensures { OnOk result (self.new ≡ computed instr.now a self.old) }
    {
        match instr {
            Instr::Arith(x, _, _, _, _) => self.assign(x.0, Term::Sum(a)),
            Instr::Fit(x, _, _) => self.assign(x.0, Term::Sum(a)),
            _ => Ok(()),
        }
    }

    /// An instruction's work is done.
    pub fn perform(&mut self, instr: &Instr) -> Result<(), Memory>
        requires room { self.old.pc + 1 < 2 ^ 64 }
        ensures { OnOk result (self.new ≡ does self.old instr.now) }
    {
        match instr {
            Instr::Set(x, a) => {
                let c = self.term(*a);
                self.assign(x.0, c)
            }
            Instr::Arith(x, kind, op, a, b) => self.do_arith(*x, *kind, *op, *a, *b),
            Instr::Fit(x, kind, a) => self.do_fit(*x, *kind, *a),
            Instr::Compare(x, cmp, a, b) => self.do_compare(*x, *cmp, *a, *b),
            Instr::Load(x, place) => self.do_load(*x, *place),
            Instr::Store(place, a) => self.do_store(*place, *a),
            Instr::Api(x, signature, args) => {
                self.do_call(*x, signature.get().answer, args.as_slice())
            }
            Instr::Call(_, _, _) => Ok(()),
            Instr::Unset(x) => self.assign(x.0, Term::Unset),
            Instr::Jump(to) => {
                self.go_to(*to);
                Ok(())
            }
            Instr::Branch(a, this, other) => {
                self.do_branch(*a, *this, *other);
                Ok(())
            }
            Instr::Return(_) => Ok(()),
            Instr::Fall => Ok(()),
        }
    }
}
