// What the parts of an instruction ask.
ghost use Rattle.std.specs.Prelude.{◌≡◌, pos, Some};
ghost use Rattle.pungi_symbol.specs.states.Known.{number_in, sum_in};
ghost use Rattle.pungi_symbol.specs.questions.NextQuestion.{asks_set, asks_known, knows_mark, asks_thing, needs_mark};
ghost use Rattle.pungi_symbol.specs.questions.NextQuestion.{asks_order, asks_same, asks_compare, asks_sign};
ghost use Rattle.pungi_symbol.specs.questions.NextQuestion.{content_mark, asks_load, asks_store};
ghost use Rattle.pungi_symbol.specs.questions.NextQuestion.{asks_dropped, asks_answer};

use crate::answers::decision::Decision;
use crate::questions::found_slot::Finding;
use crate::questions::number_questions::{asks_orders, asks_pointers, asks_sign};
use crate::questions::question::Question;
use crate::states::integer_range::IntegerRange;
use crate::states::known::{Known, constant};
use crate::states::mark::Mark;
use crate::states::term::Term;
use pungi_api::{Answer, Param};

/// The step needs a set term.
pub fn asks_set(x: Term, q: Question) -> Question
    ensures { result ≡ asks_set x q }
{
    match x {
        Term::Unset => Question::Stops(Decision::Quiet),
        Term::Null => q,
        Term::Text => q,
        Term::Number(_) => q,
        Term::Token(_) => q,
        Term::Sum(_) => q,
    }
}

fn knows_mark(m: Mark, t: usize, q: Question) -> Question
    ensures { result ≡ knows_mark m t q }
{
    match m {
        Mark::Pointer => Question::Null(t),
        Mark::TextPointer => Question::Null(t),
        Mark::IsNull => q,
        Mark::IsObject => q,
        Mark::IsText => q,
        Mark::IsNumber(_) => q,
        Mark::IsConverted(_) => q,
        Mark::Integer(_) => q,
    }
}

fn needs_mark(m: Mark, t: usize, q: Question) -> Question
    ensures { result ≡ needs_mark m t q }
{
    match m {
        Mark::Pointer => Question::Null(t),
        Mark::TextPointer => Question::Null(t),
        Mark::IsNull => Question::Stops(Decision::Quiet),
        Mark::IsObject => q,
        Mark::IsText => q,
        Mark::IsNumber(_) => q,
        Mark::IsConverted(_) => q,
        Mark::Integer(_) => q,
    }
}

fn asks_order(a: Option<i64>, b: Option<i64>, q: Question) -> Question
    ensures { result ≡ asks_order a b q }
{
    match a {
        None => q,
        Some(m) => match b {
            None => q,
            Some(n) => Question::Does(Decision::Order(m.cmp(&n))),
        },
    }
}

fn asks_same(a: Option<usize>, b: Option<usize>) -> Question
    ensures { result ≡ asks_same a b }
{
    match a {
        None => Question::Does(Decision::Quiet),
        Some(t) => match b {
            None => Question::Does(Decision::Quiet),
            Some(u) => Question::Same(t, u),
        },
    }
}

/// What is known of what a slot of a kind held at entry.
pub fn content_mark(kind: Param) -> Mark
    ensures { result ≡ content_mark kind }
{
    match kind {
        Param::Object => Mark::Pointer,
        Param::ObjectOrNull => Mark::Pointer,
        Param::Text => Mark::TextPointer,
        Param::TextOrNull => Mark::TextPointer,
        Param::Int => Mark::Integer(IntegerRange::Int),
        Param::Long => Mark::Integer(IntegerRange::Long),
        Param::Size => Mark::Integer(IntegerRange::Long),
        Param::ModuleDef => Mark::Pointer,
    }
}

/// A call with an answer.
pub fn asks_answer(answer: Answer) -> Question
    ensures { result ≡ asks_answer answer }
{
    match answer {
        Answer::Void => Question::Does(Decision::Quiet),
        Answer::Null => Question::Does(Decision::Quiet),
        other => Question::Answers(other),
    }
}

impl Known {
    /// The step needs to know whether a term is `NULL`.
    pub fn asks_known(&self, x: Term, q: Question) -> Question
        ensures { result ≡ asks_known self.now x q }
    {
        match x {
            Term::Unset => Question::Stops(Decision::Quiet),
            Term::Null => q,
            Term::Text => q,
            Term::Number(_) => q,
            Term::Token(t) => knows_mark(self.mark_of(t), t, q),
            Term::Sum(_) => q,
        }
    }

    /// The step needs a term that isn't `NULL`.
    pub fn asks_thing(&self, x: Term, q: Question) -> Question
        ensures { result ≡ asks_thing self.now x q }
    {
        match x {
            Term::Unset => Question::Stops(Decision::Quiet),
            Term::Null => Question::Stops(Decision::Quiet),
            Term::Text => q,
            Term::Number(_) => q,
            Term::Token(t) => needs_mark(self.mark_of(t), t, q),
            Term::Sum(_) => q,
        }
    }

    /// A comparison.
    pub fn asks_compare(&self, a: Term, b: Term) -> Question
        ensures { result ≡ asks_compare self.now a b }
    {
        let (x, y) = (self.sum(a), self.sum(b));
        let same = asks_pointers(x, y, asks_same(self.object(a), self.object(b)));
        let known = asks_orders(x, y, self.asks_known(a, self.asks_known(b, same)));
        asks_order(constant(a), constant(b), known)
    }

    /// The condition of a branch.
    pub fn asks_condition(&self, a: Term) -> Question
        ensures { result ≡ asks_order (number_in a) (Some (pos 0)) (asks_sign (sum_in self.now a)
            (asks_known self.now a (Question.Does Decision.Quiet))) }
    {
        let known = self.asks_known(a, Question::Does(Decision::Quiet));
        asks_order(constant(a), Some(0), asks_sign(self.sum(a), known))
    }

    /// What a slot held that wasn't set doesn't matter.
    fn asks_dropped(&self, x: Term) -> Question
        ensures { result ≡ asks_dropped self.now x }
    {
        match x {
            Term::Unset => Question::Does(Decision::Quiet),
            Term::Null => Question::Does(Decision::Quiet),
            Term::Text => Question::Does(Decision::Quiet),
            Term::Number(_) => Question::Does(Decision::Quiet),
            Term::Token(t) => knows_mark(self.mark_of(t), t, Question::Does(Decision::Quiet)),
            Term::Sum(_) => Question::Does(Decision::Quiet),
        }
    }

    /// A load of a slot that stands there.
    pub fn asks_load(&self, m: Mark, f: Finding) -> Question
        ensures { result ≡ asks_load self.now m f }
    {
        match f {
            Finding::Waits(q) => q,
            Finding::At(i) => asks_set(self.slot(i).held, Question::Does(Decision::Quiet)),
            Finding::OfMade => Question::Stops(Decision::Quiet),
            Finding::Nowhere => Question::Touches(m),
        }
    }

    /// A store to a slot that stands there.
    pub fn asks_store(&self, m: Mark, f: Finding) -> Question
        ensures { result ≡ asks_store self.now m f }
    {
        match f {
            Finding::Waits(q) => q,
            Finding::At(i) => self.asks_dropped(self.slot(i).held),
            Finding::OfMade => Question::Does(Decision::Quiet),
            Finding::Nowhere => Question::Overwrites(m),
        }
    }
}
