// What is known after an answer to a question.
ghost use Rattle.std.specs.Prelude.{◌≡◌, ◌+◌, ◌++◌, ◌==◌, ◌<◌, ◌^◌, OnOk, Some, length, slice_get, slice_set};
ghost use Rattle.std.specs.Prelude.{if◌then◌else◌};
ghost use Rattle.pungi_code.specs.declared.instr.Instr.TheVariants.{Load as LoadOf, Store as StoreOf};
ghost use Rattle.pungi_code.specs.declared.instr.Instr.TheVariants.{Compare as CompareOf};
ghost use Rattle.pungi_symbol.specs.declared.states.known.Status.TheVariants.{Returned as IsReturned};
ghost use Rattle.pungi_symbol.specs.declared.states.known.Status.TheVariants.{Stopped as IsStopped};
ghost use Rattle.pungi_symbol.specs.declared.states.known.Status.TheVariants.{Blocked as IsBlocked};
ghost use Rattle.pungi_symbol.specs.declared.states.obstacle.Obstacle.TheVariants.{Number as ByNumber};
ghost use Rattle.pungi_symbol.specs.states.Terms.{outcomes_of_mark, outcomes_of_answer, mark_at};
ghost use Rattle.pungi_symbol.specs.states.Known.{count, mark_of};
ghost use Rattle.pungi_symbol.specs.answers.KnownAfter.{go_on, put, arrive, made_by, arrive_answer};
ghost use Rattle.pungi_symbol.specs.answers.KnownAfter.{compares_same, comparison_var};
ghost use Rattle.pungi_symbol.specs.answers.KnownAfter.{comparison_term, put_answer, term_with, call_var, touch};
ghost use Rattle.pungi_symbol.specs.answers.KnownAfter.{load_first, store_first, does, perform_line, place_of_line};
ghost use Rattle.pungi_symbol.specs.answers.KnownAfter.{instr_of, go, number_of_outcome, says_same, ordered, computed};
ghost use Rattle.pungi_symbol.specs.answers.KnownAfter.{turned, with_comparison, next_computed};
ghost use Rattle.pungi_symbol.specs.answers.KnownAfter.{with_computation, ranged};
ghost use Rattle.pungi_symbol.specs.states.Turns.{blocked_at};
ghost use Rattle.pungi_symbol.specs.questions.NextQuestion.{IsPlaced};

use crate::answers::decision::Decision;
use crate::answers::outcomes::{
    mark_after, mark_of_answer, number_of_outcome, says_order, says_same,
};
use crate::answers::perform::truth_term;
use crate::questions::next_question::line_at;
use crate::questions::question::Question;
use crate::states::computation::Computation;
use crate::states::known::{Known, Status};
use crate::states::mark::Mark;
use crate::states::node::{Node, is_computed};
use crate::states::number_places::{with_compared, with_computed};
use crate::states::obstacle::Obstacle;
use crate::states::spot::{Progress, Spot, Touched};
use crate::states::sum::Sum;
use crate::states::term::Term;
use pungi_api::Answer;
use pungi_base::{Memory, Pos, Value};
use pungi_code::{Atom, Instr, Line, Place, Var};
use pungi_meaning::{Cmp, Op};
use pungi_types::ValueKind;
use std::cmp::Ordering;

/// A comparison of two objects.
fn compares_same(cmp: Cmp, same: bool) -> bool
    ensures { result ≡ compares_same cmp same }
{
    cmp.holds(Value::Object(0), Value::Object(if same { 0 } else { 1 }))
}

/// What a call returned, of which this is known.
fn term_with(m: Mark, t: usize) -> Term
    ensures { result ≡ term_with m t }
{
    match m {
        Mark::Pointer => Term::Token(t),
        Mark::TextPointer => Term::Token(t),
        Mark::IsNull => Term::Null,
        Mark::IsObject => Term::Token(t),
        Mark::IsText => Term::Text,
        Mark::IsNumber(n) => Term::Number(n),
        Mark::IsConverted(n) => Term::Number(n),
        Mark::Integer(_) => Term::Token(t),
    }
}

fn place_of_line(code: &[Line], pc: usize) -> Pos
    ensures { result ≡ place_of_line (slice_get code.now pc) }
{
    match line_at(code, pc) {
        None => Pos { line: 0, col: 0 },
        Some(line) => line.pos,
    }
}

fn call_var(code: &[Line], pc: usize) -> Option<Var>
    ensures { result ≡ call_var (instr_of (slice_get code.now pc)) }
{
    match line_at(code, pc) {
        None => None,
        Some(line) => match &line.instr {
            Instr::Api(x, _, _) => *x,
            _ => None,
        },
    }
}

fn comparison_var(code: &[Line], pc: usize) -> u32
    ensures { result ≡ comparison_var (instr_of (slice_get code.now pc)) }
{
    match line_at(code, pc) {
        None => 0,
        Some(line) => match &line.instr {
            Instr::Compare(x, _, _, _) => x.0,
            _ => 0,
        },
    }
}

fn comparison_term(same: bool, code: &[Line], pc: usize) -> Term
    ensures { result ≡ comparison_term same (instr_of (slice_get code.now pc)) }
{
    match line_at(code, pc) {
        None => Term::Unset,
        Some(line) => match &line.instr {
            Instr::Compare(_, cmp, _, _) => truth_term(compares_same(*cmp, same)),
            _ => Term::Unset,
        },
    }
}

/// The place after one of two lists.
fn place_after(slots: &[Touched], made: &[usize], i: usize) -> usize
    requires within { i < length slots.now + length made.now }
    ensures { result ≡ i + 1 }
{
    i + 1
}

impl Known {
    /// How many tokens there are.
    pub fn tokens(&self) -> usize
        ensures { result ≡ count self.now }
    {
        self.marks.len()
    }

    fn arrive(&mut self, m: Mark) -> Result<(), Memory>
        ensures { OnOk result (self.new ≡ arrive m self.old) }
    {
        self.marks.push(m)?;
        Ok(())
    }

    fn note_made(&mut self, answer: Answer, m: Mark) -> Result<(), Memory>
        ensures { OnOk result (self.new ≡ record self.old {
          made = self.old.made ++ made_by answer m (count self.old);
        }) }
    {
        match answer {
            Answer::Made => match m {
                Mark::IsObject => {
                    let token = self.tokens();
                    self.made.push(token)?;
                    Ok(())
                }
                _ => Ok(()),
            },
            _ => Ok(()),
        }
    }

    /// The token of what a call returned.
    fn arrive_answer(&mut self, answer: Answer, m: Mark) -> Result<(), Memory>
        ensures { OnOk result (self.new ≡ arrive_answer answer m self.old) }
    {
        self.note_made(answer, m)?;
        self.arrive(m)
    }

    fn touch(&mut self, spot: Spot, held: Term) -> Result<(), Memory>
        ensures { OnOk result (self.new ≡ touch spot held self.old) }
    {
        let token = self.tokens();
        let slot = Touched {
            spot,
            at_entry: Term::Token(token),
            held,
        };
        self.slots.push(slot)?;
        Ok(())
    }

    fn load_place(&mut self, x: Var, place: Place, m: Mark) -> Result<(), Memory>
        requires room { self.old.pc + 1 < 2 ^ 64 }
        ensures { OnOk result (self.new ≡ load_first (LoadOf x place) m self.old) }
    {
        let token = Term::Token(self.tokens());
        let spot = self.spot(place);
        self.touch(spot, token)?;
        self.arrive(m)?;
        self.assign(x.0, token)
    }

    fn load_line(&mut self, code: &[Line], m: Mark) -> Result<(), Memory>
        ensures { OnOk result (self.new ≡ load_first (instr_of (slice_get code.now self.old.pc)) m self.old) }
    {
        match line_at(code, self.pc) {
            None => self.arrive(m),
            Some(line) => match &line.instr {
                Instr::Load(x, place) => self.load_place(*x, *place, m),
                _ => self.arrive(m),
            },
        }
    }

    fn store_place(&mut self, place: Place, a: Atom, m: Mark) -> Result<(), Memory>
        requires room { self.old.pc + 1 < 2 ^ 64 }
        ensures { OnOk result (self.new ≡ store_first (StoreOf place a) m self.old) }
    {
        let held = self.term(a);
        let spot = self.spot(place);
        self.touch(spot, held)?;
        self.arrive(m)?;
        self.go_on();
        Ok(())
    }

    fn store_line(&mut self, code: &[Line], m: Mark) -> Result<(), Memory>
        ensures { OnOk result (self.new ≡ store_first (instr_of (slice_get code.now self.old.pc)) m self.old) }
    {
        match line_at(code, self.pc) {
            None => self.arrive(m),
            Some(line) => match &line.instr {
                Instr::Store(place, a) => self.store_place(*place, *a, m),
                _ => self.arrive(m),
            },
        }
    }

    fn perform_line(&mut self, code: &[Line]) -> Result<(), Memory>
        ensures { OnOk result (self.new ≡ perform_line (slice_get code.now self.old.pc) (λ i. does self.old i) self.old) }
    {
        match line_at(code, self.pc) {
            None => Ok(()),
            Some(line) => self.perform(&line.instr),
        }
    }

    fn note(&mut self, t: usize, k: u32)
        ensures { self.new ≡ record self.old {
          marks = slice_set self.old.marks t
              (mark_at (outcomes_of_mark (mark_of self.old t)) k);
        } }
    {
        let m = mark_after(self.mark_of(t), k);
        if t < self.marks.len() {
            self.marks.set(t, m);
        }
    }

    fn walk(&mut self, same: bool, i: usize)
        requires within { i < length self.old.slots + length self.old.made }
        ensures { self.new ≡ record self.old {
          progress = if same then Progress.Found i else
              Progress.Looking (i + 1);
        } }
    {
        if same {
            self.progress = Progress::Found(i);
        } else {
            let next = place_after(self.slots.as_slice(), self.made.as_slice(), i);
            self.progress = Progress::Looking(next);
        }
    }

    fn take_answer(&mut self, code: &[Line], answer: Answer, m: Mark) -> Result<(), Memory>
        requires within { self.old.pc < length code.now }
        ensures { OnOk result (self.new ≡ go_on (put_answer (call_var (instr_of (slice_get code.now self.old.pc)))
            (Some (term_with m (count self.old))) (arrive_answer answer m self.old))) }
    {
        let x = call_var(code, self.pc);
        let returned = term_with(m, self.tokens());
        self.arrive_answer(answer, m)?;
        self.put_answer(x, Some(returned))?;
        self.go_on();
        Ok(())
    }

    fn take_same(&mut self, code: &[Line], same: bool) -> Result<(), Memory>
        requires within { self.old.pc < length code.now }
        ensures { OnOk result (self.new ≡ go_on (put (comparison_var (instr_of (slice_get code.now self.old.pc)))
            (comparison_term same (instr_of (slice_get code.now self.old.pc))) self.old)) }
    {
        let x = comparison_var(code, self.pc);
        let c = comparison_term(same, code, self.pc);
        self.assign(x, c)
    }

    fn returns(&mut self, code: &[Line], x: Option<Term>)
        ensures { self.new ≡ record self.old {
          status = IsReturned (place_of_line (slice_get code.now self.old.pc))
              x;
        } }
    {
        self.status = Status::Returned(place_of_line(code, self.pc), x);
    }

    fn stops(&mut self, code: &[Line])
        ensures { self.new ≡ record self.old { status = IsStopped (place_of_line (slice_get code.now self.old.pc)) } }
    {
        self.status = Status::Stopped(place_of_line(code, self.pc));
    }

    fn sees_number(&mut self, code: &[Line])
        ensures { self.new ≡ record self.old {
          status = IsBlocked ByNumber (place_of_line (slice_get code.now self.old.pc));
        } }
    {
        self.status = Status::Blocked(Obstacle::Number, place_of_line(code, self.pc));
    }

    fn take_turn(&mut self)
        ensures { self.new ≡ turned (blocked_at self.old.turns self.old.pc) self.old }
    {
        match self.turns.blocked_at(self.pc) {
            None => self.turns.enter(self.pc),
            Some(pos) => {
                self.status = Status::Blocked(Obstacle::Loop, pos);
            }
        }
    }

    fn take_order(&mut self, code: &[Line], order: Ordering) -> Result<(), Memory>
        ensures { OnOk result (self.new ≡ ordered (instr_of (slice_get code.now self.old.pc)) order self.old) }
    {
        match line_at(code, self.pc) {
            None => Ok(()),
            Some(line) => self.order(&line.instr, order),
        }
    }

    /// Two numbers are compared; where one is the result of a computation that is no sum, the place is noted.
    fn note_comparison(&mut self, code: &[Line], a: Sum, b: Sum)
        ensures { self.new ≡ with_comparison (place_of_line (slice_get code.now self.old.pc)) a b self.old }
    {
        if is_computed(a.node) || is_computed(b.node) {
            self.places = with_compared(self.places, place_of_line(code, self.pc));
        }
    }

    /// The result of the next computation that is no sum.
    pub fn next_computed(&self) -> Sum
        ensures { result ≡ next_computed self.now }
    {
        Sum {
            node: Node::Computed(self.computed.len()),
            plus: 0,
        }
    }

    /// One more computation that is no sum.
    fn note_computation(
        &mut self,
        code: &[Line],
        kind: ValueKind,
        op: Op,
        a: Sum,
        b: Sum,
    ) -> Result<(), Memory>
        ensures { OnOk result (self.new ≡ with_computation (place_of_line (slice_get code.now self.old.pc))
            (record { kind = kind; op = op; a = a; b = b }) self.old) }
    {
        self.places = with_computed(self.places, place_of_line(code, self.pc));
        self.computed.push(Computation { kind, op, a, b })?;
        Ok(())
    }

    fn take_computation(
        &mut self,
        code: &[Line],
        computation: (ValueKind, Op, Sum, Sum),
        k: u32,
    ) -> Result<(), Memory>
        ensures { OnOk result (self.new ≡ ranged (slice_get code.now self.old.pc) (next_computed self.old) k
            (with_computation (place_of_line (slice_get code.now self.old.pc)) (record {
              kind = computation.0;
              op = computation.1;
              a = computation.2;
              b = computation.3;
            }) self.old)) }
    {
        let (kind, op, a, b) = computation;
        let sum = self.next_computed();
        self.note_computation(code, kind, op, a, b)?;
        self.take_range(code, sum, k)
    }

    fn take_range(&mut self, code: &[Line], a: Sum, k: u32) -> Result<(), Memory>
        ensures { OnOk result (self.new ≡ ranged (slice_get code.now self.old.pc) a k self.old) }
    {
        if k == 1 {
            self.compute_line(code, a)
        } else {
            self.stops(code);
            Ok(())
        }
    }

    fn compute_line(&mut self, code: &[Line], a: Sum) -> Result<(), Memory>
        ensures { OnOk result (self.new ≡ computed (instr_of (slice_get code.now self.old.pc)) a self.old) }
    {
        match line_at(code, self.pc) {
            None => Ok(()),
            Some(line) => self.compute(&line.instr, a),
        }
    }

    /// What is known after an answer to a question.
    pub fn go(&mut self, code: &[Line], q: Question, d: Decision) -> Result<(), Memory>
        requires placed { IsPlaced code.now self.old q }
        ensures { OnOk result (self.new ≡ go (slice_get code.now self.old.pc) self.old q d) }
    {
        let k = number_of_outcome(d);
        let same = says_same(d);
        match q {
            Question::Does(_) => self.perform_line(code),
            Question::Touches(m) => self.load_line(code, m),
            Question::Overwrites(m) => self.store_line(code, mark_after(m, k)),
            Question::Null(t) => {
                self.note(t, k);
                Ok(())
            }
            Question::Base(_, _, i) => {
                self.walk(same, i);
                Ok(())
            }
            Question::Answers(answer) => self.take_answer(code, answer, mark_of_answer(answer, k)),
            Question::Same(_, _) => self.take_same(code, same),
            Question::Orders(a, b) => {
                self.note_comparison(code, a, b);
                self.take_order(code, says_order(d))
            }
            Question::Range(_, a) => self.take_range(code, a, k),
            Question::Computes(kind, op, a, b) => self.take_computation(code, (kind, op, a, b), k),
            Question::Unplain => {
                self.sees_number(code);
                Ok(())
            }
            Question::Turn => {
                self.take_turn();
                Ok(())
            }
            Question::Returns(x) => {
                self.returns(code, x);
                Ok(())
            }
            Question::Stops(_) => {
                self.stops(code);
                Ok(())
            }
            Question::Over => Ok(()),
        }
    }
}
