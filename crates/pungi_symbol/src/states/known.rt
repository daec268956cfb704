ghost use Rattle.std.specs.Prelude.{◌≡◌, ◌+◌, ◌<◌, ◌^◌, get_or, IfOk};
ghost use Rattle.pungi_symbol.specs.declared.states.mark.Mark.TheVariants.{IsNull};
ghost use Rattle.pungi_symbol.specs.states.Terms.{value_of_mark};
ghost use Rattle.pungi_symbol.specs.states.Known.{mark_of, variable, term_of, known_value, number, object_mark};
ghost use Rattle.pungi_symbol.specs.states.Known.{object_of, number_in, sum_of_mark, sum_in, slot_note};

use crate::states::computation::Computation;
use crate::states::mark::Mark;
use crate::states::node::Node;
use crate::states::number_places::NumberPlaces;
use crate::states::obstacle::Obstacle;
use crate::states::spot::{Progress, Spot, Touched};
use crate::states::sum::Sum;
use crate::states::term::Term;
use crate::states::turns::Turns;
use crate::states::vars::Vars;
use pungi_base::{Memory, Name, Pos, Seq, Value};
use pungi_code::Atom;
use pungi_meaning::number_of;
use std::alloc::Global;

/// How a run is over, if it is.
#[derive(Clone, Copy)]
pub enum Status {
    Going,
    /// At this place, with this value.
    Returned(Pos, Option<Term>),
    Stopped(Pos),
    /// It goes on, but the path isn't followed. The place is that of the number, or that by which the loop is reported.
    Blocked(Obstacle, Pos),
}

/// What is known at a step of a run.
#[derive(Drop)]
pub struct Known {
    /// The number of the function.
    pub function: usize,
    pub pc: usize,
    pub vars: Vars,
    /// The slots that were touched, in the order of their first touch.
    pub slots: Seq<Touched>,
    /// The tokens of the objects that were made, in the order of their making.
    pub made: Seq<usize>,
    /// One for each token.
    pub marks: Seq<Mark>,
    pub progress: Progress,
    pub status: Status,
    pub turns: Turns,
    /// The computations on the path whose results are no sums.
    pub computed: Seq<Computation>,
    pub places: NumberPlaces,
}

/// A value that a mark is true of, where it is known what the value is.
fn value_of_mark(m: Mark) -> Value
    ensures { result ≡ value_of_mark m }
{
    match m {
        Mark::Pointer => Value::Null,
        Mark::TextPointer => Value::Null,
        Mark::IsNull => Value::Null,
        Mark::IsObject => Value::Object(0),
        Mark::IsText => Value::Text,
        Mark::IsNumber(n) => Value::Int(n),
        Mark::IsConverted(n) => Value::Int(n),
        Mark::Integer(_) => Value::Int(0),
    }
}

/// A token that is known to be an object.
fn object_mark(m: Mark, t: usize) -> Option<usize>
    ensures { result ≡ object_mark m t }
{
    match m {
        Mark::Pointer => None,
        Mark::TextPointer => None,
        Mark::IsNull => None,
        Mark::IsObject => Some(t),
        Mark::IsText => None,
        Mark::IsNumber(_) => None,
        Mark::IsConverted(_) => None,
        Mark::Integer(_) => None,
    }
}

/// The number that a term is.
pub fn constant(x: Term) -> Option<i64>
    ensures { result ≡ number_in x }
{
    match x {
        Term::Unset => None,
        Term::Null => None,
        Term::Text => None,
        Term::Number(n) => Some(n),
        Term::Token(_) => None,
        Term::Sum(_) => None,
    }
}

/// The number that a token with this mark stands for, where it is one.
fn sum_of_mark(m: Mark, t: usize) -> Option<Sum>
    ensures { result ≡ sum_of_mark m t }
{
    match m {
        Mark::Pointer => None,
        Mark::TextPointer => None,
        Mark::IsNull => None,
        Mark::IsObject => None,
        Mark::IsText => None,
        Mark::IsNumber(_) => None,
        Mark::IsConverted(_) => None,
        Mark::Integer(_) => Some(Sum {
            node: Node::Token(t),
            plus: 0,
        }),
    }
}

/// The number that a token stands for, where it is one.
fn sum_of_token(marks: &[Mark], t: usize) -> Option<Sum>
    ensures { result ≡ sum_of_mark (get_or marks.now t IsNull) t }
{
    if t < marks.len() {
        sum_of_mark(marks[t], t)
    } else {
        None
    }
}

/// The touched slot at a place.
pub fn touched_at(slots: &[Touched], i: usize) -> Touched
    ensures { result ≡ slot_note slots.now i }
{
    match slots.get(i) {
        Some(s) => *s,
        None => Touched {
            spot: Spot::Global(Name(0)),
            at_entry: Term::Unset,
            held: Term::Unset,
        },
    }
}

impl Known {
    /// The same.
    pub fn copy(&self, alloc: Global) -> Result<Known, Memory>
        ensures { IfOk result (λ k. k ≡ self.now) }
    {
        let vars = self.vars.copy(alloc)?;
        let slots = self.slots.copy(alloc)?;
        let made = self.made.copy(alloc)?;
        let marks = self.marks.copy(alloc)?;
        let turns = self.turns.copy(alloc)?;
        let computed = self.computed.copy(alloc)?;
        Ok(Known {
            function: self.function,
            pc: self.pc,
            vars,
            slots,
            made,
            marks,
            progress: self.progress,
            status: self.status,
            turns,
            computed,
            places: self.places,
        })
    }

    /// What a variable holds.
    pub fn variable(&self, x: u32) -> Term
        ensures { result ≡ variable self.now x }
    {
        self.vars.get(x)
    }

    /// What is known of a token.
    pub fn mark_of(&self, t: usize) -> Mark
        ensures { result ≡ mark_of self.now t }
    {
        match self.marks.as_slice().get(t) {
            Some(m) => *m,
            None => Mark::IsNull,
        }
    }

    /// What an atom stands for.
    pub fn term(&self, atom: Atom) -> Term
        ensures { result ≡ term_of self.now atom }
    {
        match atom {
            Atom::Var(x) => self.variable(x.0),
            Atom::Int(n) => Term::Number(n),
            Atom::Null => Term::Null,
            Atom::Text => Term::Text,
            Atom::Static(k) => Term::Token(k as usize),
        }
    }

    /// The value of a term, as far as it is known.
    pub fn value(&self, x: Term) -> Value
        ensures { result ≡ known_value self.now x }
    {
        match x {
            Term::Unset => Value::Null,
            Term::Null => Value::Null,
            Term::Text => Value::Text,
            Term::Number(n) => Value::Int(n),
            Term::Token(t) => value_of_mark(self.mark_of(t)),
            Term::Sum(_) => Value::Int(0),
        }
    }

    /// The number that a term stands for, as a sum.
    pub fn sum(&self, x: Term) -> Option<Sum>
        ensures { result ≡ sum_in self.now x }
    {
        match x {
            Term::Unset => None,
            Term::Null => None,
            Term::Text => None,
            Term::Number(n) => Some(Sum {
                node: Node::Zero,
                plus: n as i128,
            }),
            Term::Token(t) => sum_of_token(self.marks.as_slice(), t),
            Term::Sum(s) => Some(s),
        }
    }

    /// A term as a number.
    pub fn number(&self, x: Term) -> i64
        ensures { result ≡ number self.now x }
    {
        number_of(self.value(x))
    }

    /// The token of a term that is known to be an object.
    pub fn object(&self, x: Term) -> Option<usize>
        ensures { result ≡ object_of self.now x }
    {
        match x {
            Term::Unset => None,
            Term::Null => None,
            Term::Text => None,
            Term::Number(_) => None,
            Term::Token(t) => object_mark(self.mark_of(t), t),
            Term::Sum(_) => None,
        }
    }

    /// The touched slot at a place.
    pub fn slot(&self, i: usize) -> Touched
        ensures { result ≡ slot_note self.now.slots i }
    {
        touched_at(self.slots.as_slice(), i)
    }
}
