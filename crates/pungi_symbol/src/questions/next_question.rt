// What the next instruction asks.
ghost use Rattle.std.specs.Prelude.{◌≡◌, ◌<◌, MatchOption, None, Some, length, slice_get};
ghost use Rattle.pungi_code.specs.WellFormed.{place_kind};
ghost use Rattle.pungi_symbol.specs.states.Known.{term_of, number_in, sum_in, find};
ghost use Rattle.pungi_symbol.specs.questions.NextQuestion.{asks_set, asks_known, asks_computed, asks_result};
ghost use Rattle.pungi_symbol.specs.questions.NextQuestion.{asks_arith, asks_conversion};
ghost use Rattle.pungi_symbol.specs.questions.NextQuestion.{content_mark, asks_load, asks_store, asks_return};
ghost use Rattle.pungi_symbol.specs.questions.NextQuestion.{asks_instr, asks_line, asks_turn, ask};

use crate::answers::decision::Decision;
use crate::questions::number_questions::{asks_arith, asks_computed, asks_conversion, asks_result};
use crate::questions::question::Question;
use crate::questions::term_questions::{asks_set, content_mark};
use crate::states::known::{Known, Status, constant};
use pungi_api::Param;
use pungi_code::{Atom, Instr, Line, Place};
use pungi_meaning::Op;
use pungi_types::ValueKind;

/// The instruction at this place, if there is one.
pub fn line_at(instrs: &[Line], pc: usize) -> Option<&Line>
    ensures { MatchOption result (slice_get instrs.now pc ≡ None) (λ l. (slice_get instrs.now pc ≡ Some l.now)
        × (pc < length instrs.now)) }
{
    if pc < instrs.len() {
        Some(&instrs[pc])
    } else {
        None
    }
}

/// What a slot holds.
fn kind_of(place: Place) -> Param
    ensures { result ≡ place_kind place }
{
    match place {
        Place::Global(_, kind) => kind,
        Place::Field(_, _, _, kind) => kind,
    }
}

impl Known {
    fn asks_set_atom(&self, a: Atom) -> Question
        ensures { result ≡ asks_set (term_of self.now a) (Question.Does Decision.Quiet) }
    {
        asks_set(self.term(a), Question::Does(Decision::Quiet))
    }

    fn asks_operator(&self, kind: ValueKind, op: Op, a: Atom, b: Atom) -> Question
        ensures { result ≡ asks_set (term_of self.now a) (asks_set (term_of self.now b)
            (asks_arith op kind (number_in (term_of self.now a)) (number_in (term_of self.now b)) (asks_computed kind
            op (sum_in self.now (term_of self.now a)) (sum_in self.now (term_of self.now b))))) }
    {
        let (x, y) = (self.term(a), self.term(b));
        let result = asks_computed(kind, op, self.sum(x), self.sum(y));
        let done = asks_arith(op, kind, constant(x), constant(y), result);
        asks_set(x, asks_set(y, done))
    }

    fn asks_conversion(&self, kind: ValueKind, a: Atom) -> Question
        ensures { result ≡ asks_set (term_of self.now a) (asks_conversion kind (number_in (term_of self.now a))
            (asks_result kind (sum_in self.now (term_of self.now a)))) }
    {
        let x = self.term(a);
        asks_set(
            x,
            asks_conversion(kind, constant(x), asks_result(kind, self.sum(x))),
        )
    }

    fn asks_place_load(&self, place: Place) -> Question
        ensures { result ≡ asks_load self.now (content_mark (place_kind place)) (find self.now place) }
    {
        let found = self.seek(place);
        self.asks_load(content_mark(kind_of(place)), found)
    }

    fn asks_place_store(&self, place: Place, a: Atom) -> Question
        ensures { result ≡ asks_known self.now (term_of self.now a)
            (asks_store self.now (content_mark (place_kind place)) (find self.now place)) }
    {
        let found = self.seek(place);
        let done = self.asks_store(content_mark(kind_of(place)), found);
        self.asks_known(self.term(a), done)
    }

    fn asks_return(&self, a: Option<Atom>) -> Question
        ensures { result ≡ asks_return self.now a }
    {
        match a {
            None => Question::Returns(None),
            Some(a) => {
                let x = self.term(a);
                self.asks_known(x, Question::Returns(Some(x)))
            }
        }
    }

    fn asks_instr(&self, instr: &Instr) -> Question
        ensures { result ≡ asks_instr self.now instr.now }
    {
        match instr {
            Instr::Set(_, a) => self.asks_set_atom(*a),
            Instr::Arith(_, kind, op, a, b) => self.asks_operator(*kind, *op, *a, *b),
            Instr::Fit(_, kind, a) => self.asks_conversion(*kind, *a),
            Instr::Compare(_, _, a, b) => self.asks_compare(self.term(*a), self.term(*b)),
            Instr::Load(_, place) => self.asks_place_load(*place),
            Instr::Store(place, a) => self.asks_place_store(*place, *a),
            Instr::Api(_, signature, args) => self.asks_call(signature.get(), args.as_slice()),
            Instr::Call(_, _, _) => Question::Stops(Decision::Quiet),
            Instr::Unset(_) => Question::Does(Decision::Quiet),
            Instr::Jump(_) => Question::Does(Decision::Quiet),
            Instr::Branch(a, _, _) => self.asks_condition(self.term(*a)),
            Instr::Return(a) => self.asks_return(*a),
            Instr::Fall => Question::Stops(Decision::Quiet),
        }
    }

    fn asks_line(&self, code: &[Line]) -> Question
        ensures { result ≡ asks_line self.now (slice_get code.now self.now.pc) }
    {
        match line_at(code, self.pc) {
            None => Question::Stops(Decision::Quiet),
            Some(line) => self.asks_instr(&line.instr),
        }
    }

    /// What the next instruction asks, after a loop's head was counted.
    fn asks_next(&self, code: &[Line]) -> Question
        ensures { result ≡ asks_turn self.now (asks_line self.now (slice_get code.now self.now.pc)) }
    {
        if self.turns.is_bounded(self.pc) {
            return Question::Turn;
        }
        self.asks_line(code)
    }

    /// What the next instruction asks, where the run isn't over.
    pub fn question(&self, code: &[Line]) -> Question
        ensures { result ≡ ask code.now self.now }
    {
        match self.status {
            Status::Going => self.asks_next(code),
            Status::Returned(_, _) => Question::Over,
            Status::Stopped(_) => Question::Over,
            Status::Blocked(_, _) => Question::Over,
        }
    }
}
